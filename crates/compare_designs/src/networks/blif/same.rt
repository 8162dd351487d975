//! The models of an accepted text beside its logical lines.
use blif_ast::{Binding, BlifFile, BlifModel, Control, Edge2, Instance, Latch, Letter, Row, Table};
use dom_base::Name;
use plain_texts::{Logical, has_word, is_card, is_model, is_names, width_of};

/// Whether a name is the word at an index of a line, from 0.
fn is_word(name: &Name, line: &Logical, index: usize) -> bool {
    match line.words.get(index) {
        Some(word) => name.as_bytes() == word.as_slice(),
        None => false,
    }
}

fn is_latch(line: &Logical) -> bool {
    has_word(&line.words, 0, ".latch")
}

fn is_instance(line: &Logical) -> bool {
    has_word(&line.words, 0, ".subckt")
}

/// Names beside the words that the cards with this word give.
fn same_names(names: &[Name], lines: &[Logical], card: &str) -> bool {
    let mut left = names.iter();
    for line in lines.iter().filter(|line| has_word(&line.words, 0, card)) {
        for word in line.words.iter().skip(1) {
            match left.next() {
                Some(name) if name.as_bytes() == word.as_slice() => (),
                _ => return false,
            }
        }
    }
    left.next().is_none()
}

fn same_letter(letter: Letter, byte: u8) -> bool {
    match letter {
        Letter::Zero => byte == b'0',
        Letter::One => byte == b'1',
        Letter::Any => byte == b'-',
    }
}

/// A row beside its line, which has the letters in front of its last word.
fn same_row(row: &Row, line: &Logical) -> bool {
    let letters = match line.words.as_slice() {
        [letters, _] => letters.as_slice(),
        _ => &[],
    };
    row.letters.len() == letters.len()
        && row
            .letters
            .iter()
            .zip(letters.iter())
            .all(|(letter, byte)| same_letter(*letter, *byte))
}

/// The rows in front of the next card.
fn rows_of(lines: &[Logical]) -> &[Logical] {
    lines.split(|line| is_card(line)).next().unwrap_or(lines)
}

/// A table beside its card and the lines behind that.
fn same_table(table: &Table, card: &Logical, behind: &[Logical]) -> bool {
    let rows = rows_of(behind);
    let on = match rows.first().and_then(|row| row.words.last()) {
        Some(value) => value.as_slice() == b"1".as_slice(),
        None => true,
    };
    let width = width_of(card);
    let inputs = card.words.get(1..).unwrap_or(&[]);
    table.line == card.number
        && table.inputs.len() == width
        && table
            .inputs
            .iter()
            .zip(inputs.iter())
            .all(|(input, word)| input.as_bytes() == word.as_slice())
        && is_word(&table.output, card, width.saturating_add(1))
        && table.on == on
        && table.rows.len() == rows.len()
        && table
            .rows
            .iter()
            .zip(rows.iter())
            .all(|(row, line)| same_row(row, line))
}

/// The tables of a model beside the lines of the model.
fn same_tables(tables: &[Table], lines: &[Logical]) -> bool {
    let mut left = tables.iter();
    for (index, card) in lines.iter().enumerate() {
        if is_names(card) {
            let behind = lines.get(index.saturating_add(1)..).unwrap_or(&[]);
            match left.next() {
                Some(table) if same_table(table, card, behind) => (),
                _ => return false,
            }
        }
    }
    left.next().is_none()
}

/// A control beside the card of its latch: `NIL` is none.
fn same_control(control: &Control, card: &Logical) -> bool {
    let edge = match control.edge {
        Edge2::Rising => has_word(&card.words, 3, "re"),
        Edge2::Falling => has_word(&card.words, 3, "fe"),
    };
    let signal = match &control.signal {
        Some(name) => !has_word(&card.words, 4, "NIL") && is_word(name, card, 4),
        None => has_word(&card.words, 4, "NIL"),
    };
    edge && signal
}

/// A latch beside its card: an absent start value is 3.
fn same_latch(latch: &Latch, card: &Logical) -> bool {
    let words = &card.words;
    let typed = words.len() >= 5;
    let index = if typed { 5 } else { 3 };
    let init = match latch.init {
        0 => has_word(words, index, "0"),
        1 => has_word(words, index, "1"),
        2 => has_word(words, index, "2"),
        _ => words.len() <= index || has_word(words, index, "3"),
    };
    let control = match &latch.control {
        Some(control) => typed && same_control(control, card),
        None => !typed,
    };
    init && control
        && is_word(&latch.input, card, 1)
        && is_word(&latch.output, card, 2)
        && latch.line == card.number
}

fn same_latches(latches: &[Latch], lines: &[Logical]) -> bool {
    let cards = lines.iter().filter(|line| is_latch(line));
    latches.len() == lines.iter().filter(|line| is_latch(line)).count()
        && latches
            .iter()
            .zip(cards)
            .all(|(latch, card)| same_latch(latch, card))
}

/// A binding beside its word, which the first `=` parts.
fn same_binding(binding: &Binding, word: &[u8]) -> bool {
    let formal = binding.formal.as_bytes();
    let index = formal.len();
    word.iter().position(|b| *b == b'=') == Some(index)
        && word.get(..index) == Some(formal)
        && word.get(index.saturating_add(1)..) == Some(binding.actual.as_bytes())
}

fn same_instance(instance: &Instance, card: &Logical) -> bool {
    let words = card.words.get(2..).unwrap_or(&[]);
    is_word(&instance.unit, card, 1)
        && instance.line == card.number
        && instance.bindings.len() == words.len()
        && instance
            .bindings
            .iter()
            .zip(words.iter())
            .all(|(binding, word)| same_binding(binding, word.as_slice()))
}

fn same_instances(instances: &[Instance], lines: &[Logical]) -> bool {
    let cards = lines.iter().filter(|line| is_instance(line));
    instances.len() == lines.iter().filter(|line| is_instance(line)).count()
        && instances
            .iter()
            .zip(cards)
            .all(|(instance, card)| same_instance(instance, card))
}

/// A model beside the lines behind the card that opens it.
fn same_model(model: &BlifModel, lines: &[Logical]) -> bool {
    same_names(&model.inputs, lines, ".inputs")
        && same_names(&model.outputs, lines, ".outputs")
        && same_tables(&model.tables, lines)
        && same_latches(&model.latches, lines)
        && same_instances(&model.instances, lines)
}

/// A model beside the card that opens it.
fn same_head(model: &BlifModel, card: &Logical) -> bool {
    is_word(&model.name, card, 1) && model.line == card.number
}

/// The models beside the lines between the cards that open them.
pub fn same_file(file: &BlifFile, lines: &[Logical]) -> bool {
    let cards = lines.iter().filter(|line| is_model(line));
    let parts = lines.split(|line| is_model(line)).skip(1);
    file.models.len() == lines.iter().filter(|line| is_model(line)).count()
        && file
            .models
            .iter()
            .zip(cards)
            .all(|(model, card)| same_head(model, card))
        && file
            .models
            .iter()
            .zip(parts)
            .all(|(model, part)| same_model(model, part))
}
