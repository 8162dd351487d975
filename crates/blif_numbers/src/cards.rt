//! The words of a card, appended to the lists of a file.
ghost use Rattle.std.specs.Prelude.{◌≡◌, ◌∷◌, [], OnOk, drop, map, slice_index_or};
ghost use Rattle.std.specs.Option.{option_map, option_to_list};
ghost use Rattle.blif_ast.specs.Cards.{actual_of, formal_of};
ghost use Rattle.blif_ast.specs.Models.{init_of, instance_of, latch_of};
ghost use Rattle.numbered_file.specs.declared.parts.PartKind.TheVariants as at;
ghost use Rattle.blif_numbers.specs.LatchWords.{edge_in, edge_of, init_in, latch_words, signal_in, signal_of};
ghost use Rattle.blif_numbers.specs.BuilderData.{binding_words, card_lists, latch_parts};
ghost use Rattle.numbered_file.specs.OpenLists.{with_parts, open_lists, with_inputs, with_outputs, with_words};
ghost use Rattle.numbered_file.specs.NameNumbers.{Grows};
ghost use Rattle.numbered_file.specs.Numbered.{InstancePart};
ghost use Rattle.blif_lines.specs.Cuts.{numbered_line};

use crate::forms::sides;
use blif_ast::{Card, Edge2};
use dom_base::OutOfMemory;
use numbered_file::{OpenFile, PartKind};

/// Appends what a card that neither opens nor closes a model says of it. No words or rows wait for a part.
pub fn push_part<'t>(
    file: &mut OpenFile<'t>,
    card: Card,
    line: u32,
    words: &[&'t [u8]],
) -> Result<(), OutOfMemory>
    requires words { (open_lists file.old).words ≡ [] }
    requires rows { (open_lists file.old).rows ≡ [] }
    ensures lists { OnOk result (open_lists file.new
        ≡ card_lists (open_lists file.old) card (numbered_line line (map (λ w. w.now) words.now))) }
    ensures grown { OnOk result (Grows file.old.names file.new.names) }
{
    let behind = behind_first(words);
    match card {
        Card::Inputs => push_inputs(file, behind),
        Card::Outputs => push_outputs(file, behind),
        Card::Names => push_words(file, behind),
        Card::Latch => push_latch(file, line, words),
        Card::Subckt => push_instance(file, line, words),
        _ => Ok(()),
    }
}

/// The word at this place, or no bytes where there is none.
pub fn word_at<'t>(words: &[&'t [u8]], place: usize) -> &'t [u8]
    ensures { result.now ≡ slice_index_or (map (λ w. w.now) words.now) place [] }
{
    match words.get(place) {
        Some(word) => word,
        None => &[],
    }
}

/// The words behind the first.
fn behind_first<'w, 'a>(words: &'w [&'a [u8]]) -> &'w [&'a [u8]]
    ensures { result.now ≡ drop 1 words.now }
{
    match words {
        [_, rest @ ..] => rest,
        _ => words,
    }
}

/// The words behind the first two.
fn behind_second<'w, 'a>(words: &'w [&'a [u8]]) -> &'w [&'a [u8]]
    ensures { result.now ≡ drop 2 words.now }
{
    match words {
        [_, _, rest @ ..] => rest,
        _ => &words[words.len()..],
    }
}

fn push_inputs<'t>(file: &mut OpenFile<'t>, names: &[&'t [u8]]) -> Result<(), OutOfMemory>
    ensures lists { OnOk result (open_lists file.new ≡ with_inputs (open_lists file.old) (map (λ w. w.now) names.now)) }
    ensures grown { OnOk result (Grows file.old.names file.new.names) }
{
    for index in 0..names.len() {
        file.add_input(word_at(names, index))?;
    }
    Ok(())
}

fn push_outputs<'t>(file: &mut OpenFile<'t>, names: &[&'t [u8]]) -> Result<(), OutOfMemory>
    ensures lists { OnOk result (open_lists file.new ≡ with_outputs (open_lists file.old) (map (λ w. w.now) names.now)) }
    ensures grown { OnOk result (Grows file.old.names file.new.names) }
{
    for index in 0..names.len() {
        file.add_output(word_at(names, index))?;
    }
    Ok(())
}

fn push_words<'t>(file: &mut OpenFile<'t>, words: &[&'t [u8]]) -> Result<(), OutOfMemory>
    ensures lists { OnOk result (open_lists file.new ≡ with_words (open_lists file.old) (map (λ w. w.now) words.now)) }
    ensures grown { OnOk result (Grows file.old.names file.new.names) }
{
    for index in 0..words.len() {
        file.add_word(word_at(words, index))?;
    }
    Ok(())
}

fn init_of(word: &[u8]) -> u8
    ensures { result ≡ init_of word.now }
{
    if word.is_empty() {
        0
    } else {
        word[0].saturating_sub(b'0')
    }
}

fn edge_of(word: &[u8]) -> Edge2
    ensures { result ≡ edge_of word.now }
{
    if word == b"re".as_slice() {
        Edge2::Rising
    } else {
        Edge2::Falling
    }
}

/// The kind of the latch of a card `.latch`.
fn latch_kind(words: &[&[u8]]) -> PartKind
    ensures { result ≡ at.Latch (edge_in (map (λ w. w.now) words.now)) (init_in (map (λ w. w.now) words.now)) }
{
    match words {
        [_, _, _, init] => PartKind::Latch {
            edge: None,
            init: init_of(init),
        },
        [_, _, _, kind, _] => PartKind::Latch {
            edge: Some(edge_of(kind)),
            init: 3,
        },
        [_, _, _, kind, _, init] => PartKind::Latch {
            edge: Some(edge_of(kind)),
            init: init_of(init),
        },
        _ => PartKind::Latch {
            edge: None,
            init: 3,
        },
    }
}

/// The signal of a control, where `NIL` is none.
fn signal_of<'t>(control: &'t [u8]) -> Option<&'t [u8]>
    ensures { option_map (λ w. w.now) result ≡ signal_of control.now }
{
    if control == b"NIL".as_slice() {
        None
    } else {
        Some(control)
    }
}

/// The signal that controls the latch of a card `.latch`, if there is one.
fn signal_in<'t>(words: &[&'t [u8]]) -> Option<&'t [u8]>
    ensures { option_map (λ w. w.now) result ≡ signal_in (map (λ w. w.now) words.now) }
{
    match words {
        [_, _, _, _, control] => signal_of(control),
        [_, _, _, _, control, _] => signal_of(control),
        _ => None,
    }
}

fn push_signal<'t>(file: &mut OpenFile<'t>, words: &[&'t [u8]]) -> Result<(), OutOfMemory>
    ensures lists { OnOk result (open_lists file.new
        ≡ with_words (open_lists file.old) (option_to_list (signal_in (map (λ w. w.now) words.now)))) }
    ensures grown { OnOk result (Grows file.old.names file.new.names) }
{
    match signal_in(words) {
        Some(signal) => file.add_word(signal),
        None => Ok(()),
    }
}

/// Appends the words of a latch.
fn push_latch_words<'t>(file: &mut OpenFile<'t>, words: &[&'t [u8]]) -> Result<(), OutOfMemory>
    ensures lists { OnOk result (open_lists file.new ≡ with_words (open_lists file.old) (latch_words (map (λ w. w.now) words.now))) }
    ensures grown { OnOk result (Grows file.old.names file.new.names) }
{
    file.add_word(word_at(words, 1))?;
    file.add_word(word_at(words, 2))?;
    push_signal(file, words)
}

/// Appends the latch of a card `.latch`. No words or rows wait for a part.
fn push_latch<'t>(file: &mut OpenFile<'t>, line: u32, words: &[&'t [u8]]) -> Result<(), OutOfMemory>
    requires words { (open_lists file.old).words ≡ [] }
    requires rows { (open_lists file.old).rows ≡ [] }
    ensures lists { OnOk result (open_lists file.new
        ≡ with_parts (open_lists file.old) (latch_parts (latch_of line (map (λ w. w.now) words.now)))) }
    ensures grown { OnOk result (Grows file.old.names file.new.names) }
{
    if words.len() < 3 {
        return Ok(());
    }
    if 6 < words.len() {
        return Ok(());
    }
    push_latch_words(file, words)?;
    file.add_part(latch_kind(words), line)
}

/// Appends the words of bindings.
fn push_bindings<'t>(file: &mut OpenFile<'t>, words: &[&'t [u8]]) -> Result<(), OutOfMemory>
    ensures lists { OnOk result (open_lists file.new
        ≡ with_words (open_lists file.old) (binding_words (map (λ w. w.now) words.now))) }
    ensures grown { OnOk result (Grows file.old.names file.new.names) }
{
    for index in 0..words.len() {
        push_binding(file, word_at(words, index))?;
    }
    Ok(())
}

/// Appends the words of a binding.
fn push_binding<'t>(file: &mut OpenFile<'t>, word: &'t [u8]) -> Result<(), OutOfMemory>
    ensures lists { OnOk result (open_lists file.new
        ≡ with_words (open_lists file.old) (formal_of word.now ∷ actual_of word.now ∷ [])) }
    ensures grown { OnOk result (Grows file.old.names file.new.names) }
{
    let (formal, actual) = sides(word);
    file.add_word(formal)?;
    file.add_word(actual)
}

/// Appends the instance of a card `.subckt` in its form. No words or rows wait for a part.
fn push_instance<'t>(
    file: &mut OpenFile<'t>,
    line: u32,
    words: &[&'t [u8]],
) -> Result<(), OutOfMemory>
    requires words { (open_lists file.old).words ≡ [] }
    requires rows { (open_lists file.old).rows ≡ [] }
    ensures lists { OnOk result (open_lists file.new ≡ with_parts (open_lists file.old)
        (InstancePart (instance_of (numbered_line line (map (λ w. w.now) words.now))) ∷ [])) }
    ensures grown { OnOk result (Grows file.old.names file.new.names) }
{
    file.add_word(word_at(words, 1))?;
    push_bindings(file, behind_second(words))?;
    file.add_part(PartKind::Instance, line)
}
