//! Values of options, and the numbers that words write.
ghost use Rattle.std.specs.Prelude.{◌≡◌, map};
ghost use Rattle.std.specs.String.{string_bytes};
ghost use Rattle.command_words.specs.Given.{flag_given, given};
ghost use Rattle.command_words.specs.NumberWords.{number_from};
ghost use Rattle.command_words.specs.Written.{values_of, written};

use crate::items::{Wanted, only_wanted};

/// The number from `low` to `high` that a word writes in decimal digits, with or without a `+` before them.
pub fn number_from(word: &str, low: u64, high: u64) -> Option<u64>
    ensures { result ≡ number_from low high word.now }
{
    let number = word.parse::<u64>().ok()?;
    if number < low || number > high {
        return None;
    }
    Some(number)
}

/// The number from `low` to `high` that an option gives, or its default where it isn't given.
#[tactic(auto, using(crate::proofs::Given::given_rules))]
pub fn number_given(words: &[String], name: &str, low: u64, high: u64, default: u64) -> Option<u64>
    ensures { result ≡ given (number_from low high) default (values_of name.now (written (map string_bytes words.now))) }
{
    match only_wanted(words, Wanted::Value(name))? {
        Some(word) => number_from(word, low, high),
        None => Some(default),
    }
}

/// Whether an option without a value is given.
#[tactic(auto, using(crate::proofs::Given::given_rules))]
pub fn flag_given(words: &[String], name: &str) -> Option<bool>
    ensures { result ≡ flag_given name.now (written (map string_bytes words.now)) }
{
    Some(only_wanted(words, Wanted::Flag(name))?.is_some())
}
