//! Three orders of events.
ghost use Rattle.std.specs.Prelude.{◌≡◌, ◌<◌, ◌≤◌};
ghost use Rattle.event_sim.specs.Orders.{congruent as number_of, first_place, last_place, seeded_place};

/// The place of the pending net with the smallest number. Takes no memory.
pub fn first(step: u64, count: u64) -> u64
    requires { 1 ≤ count }
    ensures place { result ≡ first_place step count }
    ensures below { result < count }
{
    0
}

/// The place of the pending net with the largest number. Takes no memory.
pub fn last(step: u64, count: u64) -> u64
    requires { 1 ≤ count }
    ensures place { result ≡ last_place step count }
    ensures below { result < count }
{
    count - 1
}

/// The place that a seed gives at a step, by a linear congruence modulo 2^64 (the multiplier and the
/// increment are those of Knuth's MMIX). Takes no memory.
pub fn seeded(seed: u64, step: u64, count: u64) -> u64
    requires { 1 ≤ count }
    ensures place { result ≡ seeded_place seed step count }
    ensures below { result < count }
{
    congruent(seed, step) / (1 << 33) % count
}

fn congruent(seed: u64, step: u64) -> u64
    ensures { result ≡ number_of seed step }
{
    step.wrapping_mul(6364136223846793005)
        .wrapping_add(seed)
        .wrapping_add(1442695040888963407)
}
