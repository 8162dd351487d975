//! Counts over signs and levels.
ghost use Rattle.std.specs.Prelude.{◌≡◌, ◌≤◌, ◌<◌, ◌^◌, All, IfOk, length, map, not};
ghost use Rattle.std.specs.List.{count_by, range_with_len};
ghost use Rattle.clock_phase.specs.Levels.{greatest};
ghost use Rattle.synth_flow.specs.SummaryParts.{levels_at_clock};

use clock_phase::clock_of_level;
use dom_base::OutOfMemory;
use std::alloc::Global;

/// How many signs are minus.
pub fn minus_count(signs: &[bool]) -> u32
    requires { length signs.now < 2 ^ 32 }
    ensures { result ≡ count_by not signs.now }
{
    let mut minus = 0;
    'signs: for sign in signs {
        if !*sign {
            minus += 1;
        }
    }
    minus
}

/// The greatest level, or 0 where there is none.
pub fn greatest_level(levels: &[u32]) -> u32
    ensures { result ≡ greatest levels.now }
{
    let mut most: u32 = 0;
    'levels: for level in levels {
        most = most.max(*level);
    }
    most
}

/// How many of these levels have this clock.
fn clock_count(levels: &[u32], top: u32, phases: u8, clock: u8) -> u32
    requires some_phase { 1 ≤ phases }
    requires few_phases { phases ≤ 4 }
    requires few { length levels.now < 2 ^ 32 }
    requires from_one { All (λ level. 1 ≤ level) levels.now }
    requires top { top ≡ greatest levels.now }
    ensures { result ≡ levels_at_clock phases top levels.now clock }
{
    let mut count = 0;
    'levels: for level in levels {
        if clock_of_level(phases, top, *level) == clock {
            count += 1;
        }
    }
    count
}

/// How many of these levels have each of so many clocks, from the first on.
pub fn clock_counts(alloc: Global, levels: &[u32], phases: u8) -> Result<Vec<u32>, OutOfMemory>
    requires some_phase { 1 ≤ phases }
    requires few_phases { phases ≤ 4 }
    requires few { length levels.now < 2 ^ 32 }
    requires from_one { All (λ level. 1 ≤ level) levels.now }
    ensures { IfOk result (λ counts. counts.items
        ≡ map (levels_at_clock phases (greatest levels.now) levels.now) (range_with_len 1 phases)) }
{
    let top = greatest_level(levels);
    let mut counts = Vec::new(alloc);
    'clocks: for k in 0..phases {
        counts.push(clock_count(levels, top, phases, 1 + k))?;
    }
    Ok(counts)
}
