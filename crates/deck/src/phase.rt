//! The sign of a sink.
use dom_base::NetName;

/// Whether the value of a sink's net is taken as it is (`plus`) or from its complement.
#[derive(Debug, Drop)]
pub struct Phase {
    pub net: NetName,
    pub plus: bool,
}
