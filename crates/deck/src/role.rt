//! What the ports of a circuit are for, and where they stand.
ghost use Rattle.std.specs.Prelude.{◌≡◌, ◌<◌, ◌^◌};
ghost use Rattle.deck.specs.PortLayout.{first_clock, first_output, first_pin, master_pair, reset_pair, slave_pair, source_count};

use crate::limits::UNCLOCKED_COUNT;

/// How many clocks, pins and outputs the ports of a circuit have. The ports stand in this order:
/// `vdd`, `vss`, the clocks, `lm`, `lmb`, `ls`, `lsb`, `rs`, `rsb`, the pins, the outputs.
#[derive(Clone, Copy, Debug, PartialEq, Eq)]
pub struct Roles {
    pub clocks: u8,
    pub pins: u32,
    pub outs: u32,
}

impl Roles {
    /// The port of the first clock, from 0.
    pub fn first_clock(self) -> u32
        ensures { result ≡ first_clock }
    {
        2
    }

    /// The port `lm`, before `lmb`.
    pub fn master_pair(self) -> u32
        ensures { result ≡ master_pair self }
    {
        self.clocks as u32 + 2
    }

    /// The port `ls`, before `lsb`.
    pub fn slave_pair(self) -> u32
        ensures { result ≡ slave_pair self }
    {
        self.clocks as u32 + 4
    }

    /// The port `rs`, before `rsb`.
    pub fn reset_pair(self) -> u32
        ensures { result ≡ reset_pair self }
    {
        self.clocks as u32 + 6
    }

    /// The port of the first pin.
    pub fn first_pin(self) -> u32
        ensures { result ≡ first_pin self }
    {
        self.clocks as u32 + UNCLOCKED_COUNT as u32
    }

    /// The port of the first output. The roles of a circuit's ports meet the condition.
    pub fn first_output(self) -> u32
        requires { first_output self < 2 ^ 32 }
        ensures { result ≡ first_output self }
    {
        self.first_pin() + self.pins
    }

    /// How many ports are sources: those before the first output. The roles of a circuit's ports
    /// meet the condition.
    pub fn source_count(self) -> u32
        requires { source_count self < 2 ^ 32 }
        ensures { result ≡ source_count self }
    {
        self.first_output()
    }
}

/// The port, from 0, at which ports leave the order of roles.
#[derive(Clone, Copy, Debug, PartialEq, Eq)]
pub struct PortFault {
    pub place: u32,
}
