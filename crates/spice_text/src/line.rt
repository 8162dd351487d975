//! Words and lines, appended to a text.
ghost use Rattle.std.specs.Prelude.{◌≡◌, ◌++◌, ◌∷◌, OnOk};
ghost use Rattle.std.specs.List.{flat_map};
ghost use Rattle.spice_text.specs.Text.{deck_line};

use dom_base::{NetName, OutOfMemory, append, append_word};

/// Appends a blank before each word, and the word.
pub fn put_words(text: &mut Vec<u8>, words: &[NetName]) -> Result<(), OutOfMemory>
    ensures { OnOk result (text.new.items ≡ text.old.items ++ flat_map (λ word. 32 ∷ word) words.now) }
{
    for word in words {
        append_word(text, word.as_bytes())?;
    }
    Ok(())
}

/// Appends a line of a first word and others.
pub fn put_line(text: &mut Vec<u8>, first: &[u8], others: &[NetName]) -> Result<(), OutOfMemory>
    ensures { OnOk result (text.new.items ≡ text.old.items ++ deck_line first.now others.now) }
{
    append(text, first)?;
    put_words(text, others)?;
    append(text, b"\n")
}
