//! The names of a network's signals: those of the main model, and for the other signals a prefix and a number.
ghost use Rattle.std.specs.Prelude.{ℕ, ◌≡◌, ◌≢◌, ◌≤◌, ◌<◌, ◌++◌, ◌∷◌, ◌==◌, [], All, IfOk, MatchOption, OnOk, Some, length, map, not, position, slice_get, true};
ghost use Rattle.std.specs.Char.{is_ascii_digit};
ghost use Rattle.std.specs.Fmt.{decimal};
ghost use Rattle.std.specs.List.{list_all};
ghost use Rattle.net_flatten.specs.NetworkNames.{AreNetworkNames, IsNoLongerTaking, MarksTaken, network_name};
ghost use Rattle.model_calls.specs.Numbering.{IsLeastPrefixAmong, IsPrefixedNumber, letters_w};

use dom_base::{NameBytes, OutOfMemory, append_number_to_name};
use network::ListPool;
use std::alloc::Global;

/// The most digits of a signal's index, as there are at most 200,000 signals.
const MOST_DIGITS: usize = 6;

/// The place of the first byte that is no `w`.
fn first_other(name: &[u8]) -> Option<usize>
    ensures { result ≡ position (λ byte. not (byte == 119)) name.now }
{
    name.iter().position(|byte| *byte != b'w')
}

fn are_digits(bytes: &[u8]) -> bool
    ensures { result ≡ list_all is_ascii_digit bytes.now }
{
    bytes.iter().all(|byte| byte.is_ascii_digit())
}

/// How many letters `w` a name begins with, where digits alone follow, at least one.
fn taken_width(name: &[u8]) -> Option<usize>
    ensures { MatchOption result ((width : ℕ) → IsPrefixedNumber (letters_w width) name.now → ⊥)
        (λ width. IsPrefixedNumber (letters_w width) name.now) }
{
    let width = first_other(name)?;
    if are_digits(&name[width..]) {
        Some(width)
    } else {
        None
    }
}

/// The bytes of the name at this index.
fn name_at<'a>(names: &[&'a [u8]], index: usize) -> &'a [u8]
    requires { index < length names.now }
    ensures { slice_get (map (λ k. k.now) names.now) index ≡ Some result.now }
{
    names[index]
}

/// The length of the longest name that takes a width, or 0.
fn longest_taking(names: &[&[u8]]) -> usize
    ensures { All (IsNoLongerTaking result) (map (λ k. k.now) names.now) }
{
    let mut longest = 0;
    for index in 0..names.len() {
        let name = name_at(names, index);
        if let Some(_) = taken_width(name) {
            longest = longest.max(name.len());
        }
    }
    longest
}

/// A mark for each width that a name takes.
fn taken_widths(alloc: Global, names: &[&[u8]]) -> Result<Vec<bool>, OutOfMemory>
    ensures { IfOk result (λ marks. MarksTaken (map (λ k. k.now) names.now) marks.items) }
{
    let mut marks = vec![in alloc; false; longest_taking(names)]?;
    if marks.is_empty() {
        return Ok(marks);
    }
    for index in 0..names.len() {
        if let Some(width) = taken_width(name_at(names, index)) {
            marks[width] = true;
        }
    }
    Ok(marks)
}

/// The first width, at least 1, that isn't marked.
fn first_free(marks: &[bool]) -> usize
    ensures some { 1 ≤ result }
    ensures free { slice_get marks.now result ≢ Some true }
    ensures first { (width : ℕ) → 1 ≤ width → width < result → slice_get marks.now width ≡ Some true }
{
    let mut width = 1;
    while width < marks.len() && marks[width] {
        width += 1;
    }
    width
}

/// The least number of letters `w`, at least one, such that no name is so many of them followed by digits only. The one
/// error is want of memory.
pub fn least_prefix(alloc: Global, names: &[&[u8]]) -> Result<usize, OutOfMemory>
    ensures { IfOk result (λ width. IsLeastPrefixAmong (map (λ k. k.now) names.now) width) }
{
    let marks = taken_widths(alloc, names)?;
    Ok(first_free(&marks))
}

/// So many letters `w` and a number.
fn prefixed_number(alloc: Global, width: usize, number: usize) -> Result<NameBytes, OutOfMemory>
    ensures { IfOk result (λ name. name.items ≡ letters_w width ++ decimal number) }
{
    let mut bytes = NameBytes::from_elem(alloc, b'w', width)?;
    append_number_to_name(&mut bytes, number as u64)?;
    Ok(bytes)
}

/// Appends the name at an index of a network of the signal of this number in the file.
fn push_name(
    alloc: Global,
    names: &mut ListPool<u8>,
    main_names: &[&[u8]],
    width: usize,
    index: usize,
    number: u32,
) -> Result<(), OutOfMemory>
    ensures { OnOk result (names.new
        ≡ names.old ++ network_name (map (λ k. k.now) main_names.now) (letters_w width) index number ∷ []) }
{
    match main_names.get(number as usize) {
        Some(name) => names.push(name),
        None => names.push(&prefixed_number(alloc, width, index)?),
    }
}

/// How many bytes of room the names of these signals want.
fn room_of(main_names: &[&[u8]], width: usize, numbers: &[u32]) -> usize {
    let prefixed = width.saturating_add(MOST_DIGITS);
    let mut room: usize = 0;
    for number in numbers {
        room = room.saturating_add(match main_names.get(*number as usize) {
            Some(name) => name.len(),
            None => prefixed,
        });
    }
    room
}

/// The names of the signals that have these numbers in the file, where names of the main model have the first numbers:
/// a name of the main model stays, and any other is the prefix and the signal's index. The one error is want of memory.
pub fn names_of_network(
    alloc: Global,
    main_names: &[&[u8]],
    numbers: &[u32],
) -> Result<ListPool<u8>, OutOfMemory>
    ensures { IfOk result (λ names. AreNetworkNames (map (λ k. k.now) main_names.now) numbers.now names) }
{
    let width = least_prefix(alloc, main_names)?;
    let room = room_of(main_names, width, numbers);
    let mut names = ListPool::with_capacity(alloc, numbers.len(), room)?;
    for index in 0..numbers.len() {
        push_name(alloc, &mut names, main_names, width, index, numbers[index])?;
    }
    Ok(names)
}
