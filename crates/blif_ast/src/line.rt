//! Words and lines, appended to a text.
ghost use Rattle.std.specs.Prelude.{◌≡◌, ◌++◌, ◌∷◌, [], OnOk};
ghost use Rattle.std.specs.List.{flat_map};
ghost use Rattle.blif_ast.specs.Printed.{guard};

use dom_base::{Name, OutOfMemory, append, append_word};

/// Appends a blank before each word, and the word.
pub fn put_words(text: &mut Vec<u8>, words: &[Name]) -> Result<(), OutOfMemory>
    ensures { OnOk result (text.new.items ≡ text.old.items ++ flat_map (λ word. 32 ∷ word) words.now) }
{
    for word in words {
        append_word(text, word.as_bytes())?;
    }
    Ok(())
}

/// Appends what ends a line with this last word: LF, with a blank before it where the word ends
/// with `\`.
pub fn end_line(text: &mut Vec<u8>, last: &[u8]) -> Result<(), OutOfMemory>
    ensures { OnOk result (text.new.items ≡ text.old.items ++ guard last.now ++ 10 ∷ []) }
{
    append(text, if last.ends_with(b"\\") { b" \n" } else { b"\n" })
}
