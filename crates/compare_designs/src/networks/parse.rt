//! Plain files of the logical lines of texts.
use plain_hierarchies::{
    CardBody, NamedControl, NamedInstance, NamedLatch, NamedTable, PlainCard, PlainFile, PlainModel,
};
use plain_texts::{Logical, has_word, is_card, is_model, is_names};
use std::alloc::{AllocError, Global};

/// The number of a name, which is added where it is new.
fn number_of(alloc: Global, file: &mut PlainFile, word: &[u8]) -> Result<usize, AllocError> {
    for (number, name) in file.names.iter().enumerate() {
        if name.as_bytes() == word {
            return Ok(number);
        }
    }
    let number = file.names.len();
    let mut name = String::new(alloc);
    for byte in word {
        name.push(*byte as char)?;
    }
    file.names.push(name)?;
    Ok(number)
}

/// The numbers of the words from one place up to another.
fn numbers_of(
    alloc: Global,
    file: &mut PlainFile,
    words: &[Vec<u8>],
) -> Result<Vec<usize>, AllocError> {
    let mut numbers = Vec::new(alloc);
    for word in words {
        numbers.push(number_of(alloc, file, word)?)?;
    }
    Ok(numbers)
}

/// The number of the word at a place.
fn number_at(
    alloc: Global,
    file: &mut PlainFile,
    line: &Logical,
    place: usize,
) -> Result<usize, AllocError> {
    match line.words.get(place) {
        Some(word) => number_of(alloc, file, word),
        None => Ok(0),
    }
}

/// The letters of the rows behind the card of a table.
fn rows_of(alloc: Global, inputs: usize, rows: &[Logical]) -> Result<Vec<Vec<u8>>, AllocError> {
    let mut all = Vec::new(alloc);
    for row in rows {
        all.push(match row.words.first() {
            Some(letters) if inputs > 0 => letters.to_vec(alloc)?,
            _ => Vec::new(alloc),
        })?;
    }
    Ok(all)
}

fn table_of(
    alloc: Global,
    file: &mut PlainFile,
    card: &Logical,
    rows: &[Logical],
) -> Result<CardBody, AllocError> {
    let mut inputs = numbers_of(alloc, file, card.words.get(1..).unwrap_or(&[]))?;
    let output = inputs.pop().unwrap_or(0);
    let on = match rows.first().and_then(|row| row.words.last()) {
        Some(value) => value.as_slice() == b"1".as_slice(),
        None => true,
    };
    let rows = rows_of(alloc, inputs.len(), rows)?;
    Ok(CardBody::Table(NamedTable {
        inputs,
        output,
        on,
        rows,
    }))
}

fn control_of(
    alloc: Global,
    file: &mut PlainFile,
    card: &Logical,
) -> Result<Option<NamedControl>, AllocError> {
    if card.words.len() < 5 {
        return Ok(None);
    }
    let rising = has_word(&card.words, 3, "re");
    let signal = if has_word(&card.words, 4, "NIL") {
        None
    } else {
        Some(number_at(alloc, file, card, 4)?)
    };
    Ok(Some(NamedControl { rising, signal }))
}

fn latch_of(alloc: Global, file: &mut PlainFile, card: &Logical) -> Result<CardBody, AllocError> {
    let place = if card.words.len() < 5 { 3 } else { 5 };
    let init = if has_word(&card.words, place, "1") {
        1
    } else {
        0
    };
    Ok(CardBody::Latch(NamedLatch {
        input: number_at(alloc, file, card, 1)?,
        output: number_at(alloc, file, card, 2)?,
        control: control_of(alloc, file, card)?,
        init,
    }))
}

fn instance_of(
    alloc: Global,
    file: &mut PlainFile,
    card: &Logical,
) -> Result<CardBody, AllocError> {
    let unit = number_at(alloc, file, card, 1)?;
    let mut bindings = Vec::new(alloc);
    for word in card.words.iter().skip(2) {
        let mut parts = word.splitn(2, |byte| *byte == b'=');
        let formal = number_of(alloc, file, parts.next().unwrap_or(&[]))?;
        let actual = number_of(alloc, file, parts.next().unwrap_or(&[]))?;
        bindings.push((formal, actual))?;
    }
    Ok(CardBody::Instance(NamedInstance { unit, bindings }))
}

/// The body of a card, where it has one, of the lines behind it.
fn body_of(
    alloc: Global,
    file: &mut PlainFile,
    card: &Logical,
    behind: &[Logical],
) -> Result<Option<CardBody>, AllocError> {
    if is_names(card) {
        let rows = behind.split(|line| is_card(line)).next().unwrap_or(behind);
        Ok(Some(table_of(alloc, file, card, rows)?))
    } else if has_word(&card.words, 0, ".latch") {
        Ok(Some(latch_of(alloc, file, card)?))
    } else if has_word(&card.words, 0, ".subckt") {
        Ok(Some(instance_of(alloc, file, card)?))
    } else {
        Ok(None)
    }
}

/// Adds a line to the last model.
fn add_line(
    alloc: Global,
    file: &mut PlainFile,
    line: &Logical,
    behind: &[Logical],
) -> Result<(), AllocError> {
    let is_input = has_word(&line.words, 0, ".inputs");
    let is_output = has_word(&line.words, 0, ".outputs");
    let mut ports = Vec::new(alloc);
    if is_input || is_output {
        ports = numbers_of(alloc, file, line.words.get(1..).unwrap_or(&[]))?;
    }
    let body = body_of(alloc, file, line, behind)?;
    if let Some(model) = file.models.last_mut() {
        if is_output {
            model.outputs.extend(ports)?;
        } else {
            model.inputs.extend(ports)?;
        }
        if let Some(body) = body {
            model.cards.push(PlainCard {
                line: line.number,
                body,
            })?;
        }
    }
    Ok(())
}

/// The file of the logical lines of an accepted text.
pub fn file_of(alloc: Global, lines: &[Logical]) -> Result<PlainFile, AllocError> {
    let mut file = PlainFile {
        names: Vec::new(alloc),
        models: Vec::new(alloc),
    };
    for (place, line) in lines.iter().enumerate() {
        if is_model(line) {
            let name = number_at(alloc, &mut file, line, 1)?;
            file.models.push(PlainModel {
                name,
                inputs: Vec::new(alloc),
                outputs: Vec::new(alloc),
                cards: Vec::new(alloc),
                line: line.number,
            })?;
        }
        let behind = lines.get(place.saturating_add(1)..).unwrap_or(&[]);
        add_line(alloc, &mut file, line, behind)?;
    }
    Ok(file)
}
