//! The options of a simulation on the command line.
ghost use Rattle.std.specs.Prelude.{◌≡◌, IfOk, IsSome, MatchOption, None, OnErr, Some, map};
ghost use Rattle.std.specs.String.{string_bytes};
ghost use Rattle.command_words.specs.TraceOptionWords.{clocking_for, clocking_of, events_of, order_named, order_of, probes_of, seed_of, trace_options};
ghost use Rattle.command_words.specs.Written.{written};

use crate::items::{Wanted, is_same, only_wanted};
use crate::probes::probe_words;
use crate::values::{flag_given, number_given};
use dom_base::OutOfMemory;
use std::alloc::Global;
use trace_tool::{Clocking, Order, ProbeWord, TraceOptions};

/// The options of a simulation that words give.
pub fn trace_options_of(
    alloc: Global,
    words: &[String],
) -> Result<Option<TraceOptions>, OutOfMemory>
    ensures options { IfOk result (λ found. MatchOption found (trace_options (written (map string_bytes words.now)) ≡ None)
        (λ options. trace_options (written (map string_bytes words.now)) ≡ Some options)) }
    ensures wanted { OnErr result (IsSome (trace_options (written (map string_bytes words.now)))) }
{
    let Some(order) = order_of(words) else {
        return Ok(None)
    };
    let Some(seed) = seed_of(words) else {
        return Ok(None)
    };
    let Some(events) = events_of(words) else {
        return Ok(None)
    };
    let Some(probes) = probes_of(alloc, words)? else {
        return Ok(None)
    };
    Ok(Some(TraceOptions {
        order,
        seed,
        probes,
        events,
    }))
}

/// The order of events that words give, or the order `first`.
#[tactic(auto, using(crate::proofs::Given::given_rules))]
pub fn order_of(words: &[String]) -> Option<Order>
    ensures { result ≡ order_of (written (map string_bytes words.now)) }
{
    match only_wanted(words, Wanted::Value("--order"))? {
        Some(word) => order_named(word),
        None => Some(Order::First),
    }
}

/// The seed that words give, or 0.
pub fn seed_of(words: &[String]) -> Option<u64>
    ensures { result ≡ seed_of (written (map string_bytes words.now)) }
{
    number_given(words, "--seed", 0, u64::MAX, 0)
}

/// Whether the words ask for every event.
fn events_of(words: &[String]) -> Option<bool>
    ensures { result ≡ events_of (written (map string_bytes words.now)) }
{
    flag_given(words, "--events")
}

/// How the clocks fall that words ask for: together, or they overlap.
pub fn clocking_of(words: &[String]) -> Option<Clocking>
    ensures { result ≡ clocking_of (written (map string_bytes words.now)) }
{
    let overlap = flag_given(words, "--skew")?;
    Some(clocking_for(overlap))
}

/// How clocks fall that overlap, or don't.
fn clocking_for(overlap: bool) -> Clocking
    ensures { result ≡ clocking_for overlap }
{
    if overlap {
        Clocking::Overlapping
    } else {
        Clocking::Together
    }
}

/// The nets whose changes words ask for.
#[tactic(auto, using(crate::proofs::Given::given_rules))]
fn probes_of(alloc: Global, words: &[String]) -> Result<Option<Vec<ProbeWord>>, OutOfMemory>
    ensures probes { IfOk result (λ found. MatchOption found (probes_of (written (map string_bytes words.now)) ≡ None)
        (λ probes. probes_of (written (map string_bytes words.now)) ≡ Some probes.items)) }
    ensures wanted { OnErr result (IsSome (probes_of (written (map string_bytes words.now)))) }
{
    match only_wanted(words, Wanted::Value("--probe")) {
        Some(Some(value)) => probe_words(alloc, value),
        Some(None) => Ok(Some(Vec::new(alloc))),
        None => Ok(None),
    }
}

/// The order of events that a word names.
fn order_named(word: &str) -> Option<Order>
    ensures { result ≡ order_named word.now }
{
    if is_same(word, "first") {
        return Some(Order::First);
    }
    if is_same(word, "last") {
        return Some(Order::Last);
    }
    if is_same(word, "seed") {
        return Some(Order::Seed);
    }
    None
}
