//! Marks of names, for guesses whether a name came of late.

/// The mark of a name, of its first letter and its last ones: names that are numbered in turn have marks in turn. Other
/// names have the same mark, so whoever finds a name by it compares.
pub fn mark_of(name: &[u8]) -> u32 {
    match name {
        [first, .., a, b, c, d] => mixed(*first, *a, *b, *c, *d),
        [first, .., b, c, d] => mixed(*first, 0, *b, *c, *d),
        [first, c, d] => mixed(*first, 0, 0, *c, *d),
        [c, d] => mixed(0, 0, 0, *c, *d),
        [d] => mixed(0, 0, 0, 0, *d),
        [] => 0,
    }
}

/// A number out of five letters, the last four of them as digits of ten where two digits stand at the end, and else of 75, so
/// that names which end in letters have marks of their own too.
fn mixed(first: u8, a: u8, b: u8, c: u8, d: u8) -> u32 {
    let front = first as u32 * 5003;
    if c.is_ascii_digit() && d.is_ascii_digit() {
        front + a as u32 * 1000 + b as u32 * 100 + c as u32 * 10 + d as u32
    } else {
        front + a as u32 * 421_875 + b as u32 * 5625 + c as u32 * 75 + d as u32
    }
}
