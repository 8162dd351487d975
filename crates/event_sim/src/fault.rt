//! Why a circuit can't be simulated.
ghost use Rattle.std.specs.Prelude.{◌≡◌};
ghost use Rattle.event_sim.specs.declared.fault.SimFault.TheVariants.{Memory, Ports};

use deck::PortFault;
use dom_base::OutOfMemory;
use std::alloc::AllocError;

/// Why a circuit can't be simulated: its ports leave every order of roles at a place, or memory did
/// not suffice.
#[derive(Clone, Copy, Debug, PartialEq, Eq)]
pub enum SimFault {
    Ports(PortFault),
    Memory,
}

impl From<PortFault> for SimFault {
    ghost from_gives = { λ fault e. e ≡ Ports fault };

    fn from(fault: PortFault) -> Self {
        SimFault::Ports(fault)
    }
}

impl From<OutOfMemory> for SimFault {
    ghost from_gives = { λ _ e. e ≡ Memory };

    fn from(_: OutOfMemory) -> Self {
        SimFault::Memory
    }
}

impl From<AllocError> for SimFault {
    ghost from_gives = { λ _ e. e ≡ Memory };

    fn from(_: AllocError) -> Self {
        SimFault::Memory
    }
}
