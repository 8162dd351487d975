//! The options of synthesis on the command line.
ghost use Rattle.std.specs.Prelude.{◌≡◌, map};
ghost use Rattle.std.specs.String.{string_bytes};
ghost use Rattle.command_words.specs.SynthOptionWords.{compound_of, exact_of, has_keepers, may_overlap, method_for, method_of, skew_of};
ghost use Rattle.command_words.specs.SynthOptionWords.{style_named, style_of, synth_options, version_of};
ghost use Rattle.command_words.specs.Written.{written};

use crate::command::Method;
use crate::items::{Wanted, is_same, only_wanted};
use crate::values::{flag_given, number_given};
use deck_form::{DeckVersion, SynthOptions};
use domino_cell::Style;
use tree_map::Bounds;

/// The options of synthesis that words give: a width of 2 to 8 and a height of 2 to 6, 4 where none is given,
/// 1 to 4 clocks, one where none is given, and a style, with keepers where none is given.
pub fn synth_options_of(words: &[String]) -> Option<SynthOptions>
    ensures { result ≡ synth_options (written (map string_bytes words.now)) }
{
    let width = number_given(words, "--width", 2, 8, 4)?;
    let height = number_given(words, "--height", 2, 6, 4)?;
    let phases = number_given(words, "--phases", 1, 4, 1)?;
    let style = style_of(words)?;
    Some(SynthOptions {
        bounds: Bounds {
            w: width as u32,
            h: height as u32,
        },
        phases: phases as u8,
        style,
    })
}

/// The style that words give, or `keeper`.
#[tactic(auto, using(crate::proofs::Given::given_rules))]
fn style_of(words: &[String]) -> Option<Style>
    ensures { result ≡ style_of (written (map string_bytes words.now)) }
{
    match only_wanted(words, Wanted::Value("--style"))? {
        Some(word) => style_named(word),
        None => Some(Style::Keeper),
    }
}

/// The style that a word names.
fn style_named(word: &str) -> Option<Style>
    ensures { result ≡ style_named word.now }
{
    if is_same(word, "keeper") {
        return Some(Style::Keeper);
    }
    if is_same(word, "precharge") {
        return Some(Style::Precharge);
    }
    None
}

/// The method that words ask for beside options: the plain one where they name none. Exact signs, clocks that overlap
/// and compound cells have no version but version 1, and no two of them are asked for; clocks overlap where there are
/// several and cells have keepers, and compound cells have none.
pub fn method_of(words: &[String], options: SynthOptions) -> Option<Method>
    ensures { result ≡ method_of options (written (map string_bytes words.now)) }
{
    let exact = exact_of(words)?;
    let skew = skew_of(words)?;
    let compound = compound_of(words)?;
    let version = version_of(words)?;
    method_for(options, exact, skew, compound, version)
}

/// Whether words ask for exact signs.
fn exact_of(words: &[String]) -> Option<bool>
    ensures { result ≡ exact_of (written (map string_bytes words.now)) }
{
    flag_given(words, "--exact")
}

/// Whether words ask for clocks that overlap.
fn skew_of(words: &[String]) -> Option<bool>
    ensures { result ≡ skew_of (written (map string_bytes words.now)) }
{
    flag_given(words, "--skew")
}

/// Whether words ask for compound cells.
fn compound_of(words: &[String]) -> Option<bool>
    ensures { result ≡ compound_of (written (map string_bytes words.now)) }
{
    flag_given(words, "--compound")
}

/// The version of the deck that words ask for, or version 1.
fn version_of(words: &[String]) -> Option<DeckVersion>
    ensures { result ≡ version_of (written (map string_bytes words.now)) }
{
    let number = number_given(words, "--deck", 1, 2, 1)?;
    Some(if number == 2 {
        DeckVersion::Two
    } else {
        DeckVersion::One
    })
}

/// The method for options, of exact signs or of the chosen ones, for clocks that overlap or not, with compound cells or
/// without, and of a version.
fn method_for(
    options: SynthOptions,
    exact: bool,
    skew: bool,
    compound: bool,
    version: DeckVersion,
) -> Option<Method>
    ensures { result ≡ method_for options exact skew compound version }
{
    match (exact, skew, compound, version) {
        (false, false, false, version) => Some(Method::Plain(version)),
        (true, false, false, DeckVersion::One) => Some(Method::Exact),
        (false, true, false, DeckVersion::One) if may_overlap(options) => Some(Method::Skew),
        (false, false, true, DeckVersion::One) if !has_keepers(options.style) => {
            Some(Method::Compound)
        }
        _ => None,
    }
}

/// Whether clocks may overlap: there are several, and cells have keepers.
fn may_overlap(options: SynthOptions) -> bool
    ensures { result ≡ may_overlap options }
{
    options.phases >= 2 && has_keepers(options.style)
}

/// Whether a style has keepers.
fn has_keepers(style: Style) -> bool
    ensures { result ≡ has_keepers style }
{
    match style {
        Style::Keeper => true,
        Style::Precharge => false,
    }
}
