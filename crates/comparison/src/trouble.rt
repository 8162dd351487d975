//! Why nothing is compared.
use blif_read::BlifFault;
use deck::PortFault;
use dom_base::OutOfMemory;
use net_flatten::FlatFault;
use spice_read::DeckFault;
use std::alloc::{AllocError, AllocFailed};

/// Why nothing is compared: memory doesn't suffice, a text or a case is refused, or a line isn't printed.
#[derive(Clone, Copy, Debug, PartialEq, Eq)]
pub enum Trouble {
    Memory,
    Refused,
    NotPrinted,
}

impl From<AllocError> for Trouble {
    fn from(_: AllocError) -> Self {
        Trouble::Memory
    }
}

impl<T: Drop> From<AllocFailed<T>> for Trouble {
    fn from(_: AllocFailed<T>) -> Self {
        Trouble::Memory
    }
}

impl From<OutOfMemory> for Trouble {
    fn from(_: OutOfMemory) -> Self {
        Trouble::Memory
    }
}

impl From<BlifFault> for Trouble {
    fn from(fault: BlifFault) -> Self {
        match fault {
            BlifFault::At { .. } => Trouble::Refused,
            BlifFault::Memory => Trouble::Memory,
        }
    }
}

impl From<FlatFault> for Trouble {
    fn from(fault: FlatFault) -> Self {
        match fault {
            FlatFault::At { .. } | FlatFault::TooMany { .. } => Trouble::Refused,
            FlatFault::Memory => Trouble::Memory,
        }
    }
}

impl From<DeckFault> for Trouble {
    fn from(fault: DeckFault) -> Self {
        match fault {
            DeckFault::At { .. } => Trouble::Refused,
            DeckFault::Memory => Trouble::Memory,
        }
    }
}

impl From<PortFault> for Trouble {
    fn from(_: PortFault) -> Self {
        Trouble::Refused
    }
}
