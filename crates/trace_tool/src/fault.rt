//! Why a deck isn't simulated.
ghost use Rattle.std.specs.Prelude.{◌≡◌};
ghost use Rattle.trace_tool.specs.CosimRefusals.{of_blif, of_flat};
ghost use Rattle.trace_tool.specs.declared.fault.TraceFault.TheVariants.{Memory, Ports};
ghost use Rattle.trace_tool.specs.Refusals.{of_deck, of_stim};

use blif_read::{BlifFault, BlifKind};
use deck::{DeckKind, PortFault};
use dom_base::{NetName, OutOfMemory};
use net_flatten::FlatFault;
use spice_read::DeckFault;
use std::alloc::AllocError;
use stim_text::{StimFault, StimKind};

/// Why a deck isn't simulated.
#[derive(Debug, Drop)]
pub enum TraceFault {
    /// The first line of the file of BLIF with a fault, from 1, and its kind.
    Blif { line: u64, kind: BlifKind },
    /// Why the file of BLIF has no network. It is never want of memory.
    Flat(FlatFault),
    /// The first line of the deck with a fault, from 1, and its kind.
    Deck { line: u64, kind: DeckKind },
    /// The place, from 0, at which the deck's ports leave the order of roles.
    Ports { place: u32 },
    /// The first name of a probe word that is none of the deck's nets.
    NoNet { name: NetName },
    /// The first line of the stimulus with a fault, from 1, and its kind.
    Stim { line: u64, kind: StimKind },
    /// Out of memory.
    Memory,
}

impl From<BlifFault> for TraceFault {
    ghost from_gives = { λ fault e. e ≡ of_blif fault };

    fn from(fault: BlifFault) -> Self {
        match fault {
            BlifFault::At { line, kind } => TraceFault::Blif { line, kind },
            BlifFault::Memory => TraceFault::Memory,
        }
    }
}

impl From<FlatFault> for TraceFault {
    ghost from_gives = { λ fault e. e ≡ of_flat fault };

    fn from(fault: FlatFault) -> Self {
        match fault {
            FlatFault::Memory => TraceFault::Memory,
            fault => TraceFault::Flat(fault),
        }
    }
}

impl From<DeckFault> for TraceFault {
    ghost from_gives = { λ fault e. e ≡ of_deck fault };

    fn from(fault: DeckFault) -> Self {
        match fault {
            DeckFault::At { line, kind } => TraceFault::Deck { line, kind },
            DeckFault::Memory => TraceFault::Memory,
        }
    }
}

impl From<PortFault> for TraceFault {
    ghost from_gives = { λ fault e. e ≡ Ports fault.place };

    fn from(fault: PortFault) -> Self {
        TraceFault::Ports { place: fault.place }
    }
}

impl From<StimFault> for TraceFault {
    ghost from_gives = { λ fault e. e ≡ of_stim fault };

    fn from(fault: StimFault) -> Self {
        match fault {
            StimFault::At { line, kind } => TraceFault::Stim { line, kind },
            StimFault::Memory => TraceFault::Memory,
        }
    }
}

impl From<OutOfMemory> for TraceFault {
    ghost from_gives = { λ _ e. e ≡ Memory };

    fn from(_: OutOfMemory) -> Self {
        TraceFault::Memory
    }
}

impl From<AllocError> for TraceFault {
    ghost from_gives = { λ _ e. e ≡ Memory };

    fn from(_: AllocError) -> Self {
        TraceFault::Memory
    }
}
