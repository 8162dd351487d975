//! Words that are names of nets, words that aren't, their escapes, and hashes of names.
use deck::esc;
use dom_base::{Name, NameHash, NetName, OutOfMemory};
use std::alloc::{AllocError, Global};
use std::hash::BuildHasher;
use std::test::Fail;

/// Whether a word is the name of a net, of the same bytes.
fn is_name_of_net(alloc: Global, word: &[u8]) -> Result<bool, OutOfMemory> {
    Ok(match NetName::from_word(alloc, word)? {
        Some(name) => name.as_bytes() == word,
        None => false,
    })
}

/// Words, and whether they are names of nets.
const WORDS: &[(&str, bool)] = &[
    ("a", true),
    ("i_a+[0].~", true),
    ("sixteen_bytes_at", true),
    ("seventeen_bytes_a", true),
    ("a_name_that_does_not_fit_into_the_room_of_a_name", true),
    ("\u{e9}", true),
    ("", false),
    ("a b", false),
    ("a\t", false),
    ("iA", false),
    ("a\u{7f}", false),
    ("\u{0}", false),
];

#[test]
fn names_of_words(rt: HostRuntime) -> Result<(), Fail> {
    let alloc = rt.alloc();
    for (word, is_name) in WORDS {
        let found = is_name_of_net(alloc, word.as_bytes())?;
        assert!(rt; found == *is_name, "at {word}");
    }
    Ok(())
}

/// Names, with their escapes.
const ESCAPES: &[(&[u8], &[u8])] = &[
    (b"a7z", b"a7z"),
    (b"A", b"_41"),
    (b"\xc3\xa9", b"_c3_a9"),
    (b"_\x00/:\xff", b"_5f_00_2f_3a_ff"),
    (b"", b""),
];

#[test]
fn escapes_of_names(rt: HostRuntime) -> Result<(), Fail> {
    for (name, escape) in ESCAPES {
        let text = esc(rt.alloc(), name)?;
        assert!(rt; text.as_slice() == *escape);
    }
    Ok(())
}

/// The hash of a name, with a key for the names of a text of so many bytes, of this one each.
fn hash_in(alloc: Global, name: &Name, byte: u8, length: usize) -> Result<u64, AllocError> {
    let text = vec![in alloc; byte; length]?;
    Ok(NameHash::of_text(&text).hash_one(name))
}

#[test]
fn hashes_of_texts(rt: HostRuntime) -> Result<(), Fail> {
    let alloc = rt.alloc();
    let name = Name::from_bytes(alloc, b"n1")?;
    let first = hash_in(alloc, &name, b'a', 8192)?;
    assert!(rt; first == hash_in(alloc, &name, b'a', 8192)?);
    assert!(rt; first != hash_in(alloc, &name, b'b', 8192)?);
    Ok(())
}
