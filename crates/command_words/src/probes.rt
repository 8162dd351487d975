//! The value of `--probe`: names of nets with the edge that is asked for, parted by commas.
ghost use Rattle.std.specs.Prelude.{◌≡◌, ◌<◌, ◌++◌, ◌∷◌, [], IfOk, IfSome, IsSome, MatchOption, OnErr, length};
ghost use Rattle.std.specs.Prelude.{None, Some, is_some};
ghost use Rattle.std.specs.List.{filter_map, list_all, slice_split};
ghost use Rattle.std.specs.Option.{option_to_list};
ghost use Rattle.command_words.specs.ProbeWords.{are_probe_words, is_comma, is_probe_name, is_visible, probe_of, probe_word, probe_words};

use dom_base::{NetName, OutOfMemory, name_in_lower_case};
use event_sim::Edge;
use memchr::memchr;
use std::alloc::Global;
use trace_tool::ProbeWord;

/// The probe words of a value, or none where one of them is out of form.
pub fn probe_words(alloc: Global, value: &str) -> Result<Option<Vec<ProbeWord>>, OutOfMemory>
    ensures probes { IfOk result (λ found. MatchOption found (probe_words value.now ≡ None)
        (λ probes. probe_words value.now ≡ Some probes.items)) }
    ensures wanted { OnErr result (IsSome (probe_words value.now)) }
{
    let value = value.as_bytes();
    if !are_probe_words(value) {
        return Ok(None);
    }
    Ok(Some(probes_of(alloc, value)?))
}

/// The bytes before the first comma and those behind it, where there is one.
fn cut_at_comma(text: &[u8]) -> Option<(&[u8], &[u8])>
    ensures cut { MatchOption result (slice_split is_comma text.now ≡ text.now ∷ [])
        (λ p. slice_split is_comma text.now ≡ p.0.now ∷ slice_split is_comma p.1.now) }
    ensures shorter { IfSome result (λ p. length p.1.now < length text.now) }
{
    match memchr(b',', text) {
        Some(at) => Some((&text[..at], &text[at + 1..])),
        None => None,
    }
}

/// Whether each piece of a value is a probe word.
fn are_probe_words(value: &[u8]) -> bool
    ensures { result ≡ are_probe_words value.now }
{
    let mut left = value;
    'pieces: while let Some((word, rest)) = cut_at_comma(left) {
        if !is_probe_word(word) {
            return false;
        }
        left = rest;
    }
    is_probe_word(left)
}

/// The pieces of a value that are probe words.
fn probes_of(alloc: Global, value: &[u8]) -> Result<Vec<ProbeWord>, OutOfMemory>
    ensures { IfOk result (λ probes. probes.items ≡ filter_map probe_word (slice_split is_comma value.now)) }
{
    let mut probes = Vec::new(alloc);
    let mut left = value;
    'pieces: while let Some((word, rest)) = cut_at_comma(left) {
        push_probe(alloc, &mut probes, word)?;
        left = rest;
    }
    push_probe(alloc, &mut probes, left)?;
    Ok(probes)
}

/// Puts a piece behind the probe words where it is one.
fn push_probe(alloc: Global, probes: &mut Vec<ProbeWord>, word: &[u8]) -> Result<(), OutOfMemory>
    ensures { IfOk result (λ _. probes.new.items ≡ probes.old.items ++ option_to_list (probe_word word.now)) }
{
    if let Some(probe) = probe_word(alloc, word)? {
        probes.push(probe)?;
    }
    Ok(())
}

/// The name in a piece of a value, and the edge that its end asks for: a rise by `+`, a fall by `-`, else any change.
fn name_and_edge(word: &[u8]) -> (&[u8], Edge)
    ensures { probe_word word.now ≡ probe_of result.1 result.0.now }
{
    match word {
        [name @ .., b'+'] => (name, Edge::Rise),
        [name @ .., b'-'] => (name, Edge::Fall),
        _ => (word, Edge::Any),
    }
}

/// Whether a piece of a value is a probe word.
fn is_probe_word(word: &[u8]) -> bool
    ensures { result ≡ is_some (probe_word word.now) }
{
    let (name, _) = name_and_edge(word);
    is_probe_name(name)
}

/// The probe word that a piece of a value is, with its name in lower case.
fn probe_word(alloc: Global, word: &[u8]) -> Result<Option<ProbeWord>, OutOfMemory>
    ensures { IfOk result (λ found. found ≡ probe_word word.now) }
{
    let (name, edge) = name_and_edge(word);
    if !is_probe_name(name) {
        return Ok(None);
    }
    match NetName::new(name_in_lower_case(alloc, name)?) {
        Some(name) => Ok(Some(ProbeWord { name, edge })),
        None => Ok(None),
    }
}

fn is_visible(b: u8) -> bool
    ensures { result ≡ is_visible b }
{
    b > b' ' && b != 0x7f
}

fn are_visible(name: &[u8]) -> bool
    ensures { result ≡ list_all is_visible name.now }
{
    name.iter().all(|b| is_visible(*b))
}

/// Whether a name has at least one byte, and none that is a blank or a control byte.
fn is_probe_name(name: &[u8]) -> bool
    ensures { result ≡ is_probe_name name.now }
{
    !name.is_empty() && are_visible(name)
}
