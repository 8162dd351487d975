//! Names of the signals of a network that is generated.
ghost use Rattle.std.specs.Prelude.{◌≡◌, ◌++◌, IfOk, OnOk, codes};
ghost use Rattle.std.specs.Fmt.{decimal};
ghost use Rattle.net_gen.specs.Generated.{latch_count, numbered_names};

use dom_base::{NameBytes, OutOfMemory, append_number_to_name, append_to_name};
use network::ListPool;
use std::alloc::Global;

/// A letter with a number.
fn numbered_name(alloc: Global, letter: &[u8], number: u32) -> Result<NameBytes, OutOfMemory>
    ensures { IfOk result (λ name. name.items ≡ letter.now ++ decimal number) }
{
    let mut bytes = NameBytes::new(alloc);
    append_to_name(&mut bytes, letter)?;
    append_number_to_name(&mut bytes, number as u64)?;
    Ok(bytes)
}

/// Appends a letter with each of so many numbers, from 0.
fn push_numbered(
    alloc: Global,
    names: &mut ListPool<u8>,
    letter: &[u8],
    count: u32,
) -> Result<(), OutOfMemory>
    ensures { OnOk result (names.new ≡ names.old ++ numbered_names letter.now count) }
{
    'numbers: for number in 0..count {
        let name = numbered_name(alloc, letter, number)?;
        names.push(name.as_slice())?;
    }
    Ok(())
}

/// The names of 16 inputs, of the outputs of the latches and of the outputs of so many tables.
pub fn names_of(alloc: Global, tables: u32) -> Result<ListPool<u8>, OutOfMemory>
    ensures { IfOk result (λ names. names
        ≡ numbered_names (codes "a") 16 ++ numbered_names (codes "q") (latch_count tables) ++ numbered_names (codes "t") tables) }
{
    let mut names = ListPool::new(alloc);
    push_numbered(alloc, &mut names, b"a", 16)?;
    push_numbered(alloc, &mut names, b"q", tables / 16)?;
    push_numbered(alloc, &mut names, b"t", tables)?;
    Ok(names)
}
