//! Writes replies: a line of words, a field, and the word for a file's kind.

ghost use Rattle.std.specs.Prelude.{◌≡◌, ◌∷◌, ◌++◌, map, OnOk};
ghost use Rattle.std.specs.List.{flat_map};
ghost use Rattle.history_model.specs.Spelling.{Line, Field, part_text};
ghost use Rattle.history_model.specs.Spelling as spelling;

use history_model::FileKind;
use std::alloc::AllocError;

/// Returns the word for a file's kind.
pub fn kind_word(kind: FileKind) -> &'static [u8]
    ensures { result.now ≡ spelling.kind_word kind }
{
    match kind {
        FileKind::File => b"file",
        FileKind::Exec => b"exec",
        FileKind::Link => b"link",
    }
}

/// Appends words, each after a space. Fails only if memory runs out.
fn more_words(text: &mut Vec<u8>, words: &[&[u8]]) -> Result<(), AllocError>
    ensures { OnOk result (text.new.items
        ≡ text.old.items ++ flat_map (λ word. 32 ∷ word.now) words.now) }
{
    for word in words {
        text.push(b' ')?;
        text.extend_from_slice(word)?;
    }
    Ok(())
}

/// Appends a line of words, with one space between and an LF. Fails only if memory runs out.
pub fn line(text: &mut Vec<u8>, words: &[&[u8]]) -> Result<(), AllocError>
    ensures { OnOk result (text.new.items
        ≡ text.old.items ++ part_text (Line (map (λ word. word.now) words.now))) }
{
    if let Some((first, rest)) = words.split_first() {
        text.extend_from_slice(first)?;
        more_words(text, rest)?;
    }
    text.push(b'\n')?;
    Ok(())
}

/// Appends a field: its bytes and an LF. Fails only if memory runs out.
pub fn field(text: &mut Vec<u8>, bytes: &[u8]) -> Result<(), AllocError>
    ensures { OnOk result (text.new.items ≡ text.old.items ++ part_text (Field bytes.now)) }
{
    text.extend_from_slice(bytes)?;
    text.push(b'\n')?;
    Ok(())
}
