//! A ring of nets that begins to turn.
ghost use Rattle.std.specs.Prelude.{◌≡◌};
ghost use Rattle.event_sim.specs.Choices.{Chooses};

use comparison::Trouble;
use dom_base::Tri;
use event_sim::{Chooser, Settled, Sim, SimFault};
use spice_read::read;
use std::alloc::Global;

/// Whether a ring turns on for all events, after so many up to rest, or has stopped.
#[derive(Clone, Copy)]
pub enum Outcome {
    Turns(u64),
    Stops,
}

/// Turns a ring by so many events: it settles while `rs` is `One`, and then `rs` becomes `Zero`.
pub fn turned(alloc: Global, deck: &str, events: u32) -> Result<Outcome, Trouble> {
    let circuit = read(alloc, deck.as_bytes())?;
    let chooser = Chooser::new(
        |_step: u64, _count: u64| -> u64
            ensures { result ≡ 0 }
        { 0 },
    );
    match Sim::new(alloc, &circuit, chooser) {
        Ok(mut sim) => {
            let Settled::Rest(first) = sim.settle() else {
                return Ok(Outcome::Stops);
            };
            sim.set_pin(7, Tri::Zero);
            if goes_on(&mut sim, events) {
                Ok(Outcome::Turns(first))
            } else {
                Ok(Outcome::Stops)
            }
        }
        Err(SimFault::Ports(_)) => Err(Trouble::Refused),
        Err(SimFault::Memory) => Err(Trouble::Memory),
    }
}

/// Whether so many events come, one after the other.
fn goes_on<F: Fn(u64, u64) -> u64>(sim: &mut Sim<F>, events: u32) -> bool
    requires { Chooses (F.pre sim.old.pick) (F.post sim.old.pick) }
{
    for _ in 0..events {
        if sim.step().is_none() {
            return false;
        }
    }
    true
}
