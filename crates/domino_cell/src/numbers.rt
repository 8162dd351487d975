//! The numbers that the nets of gates may have in a circuit, gate by gate.
ghost use Rattle.std.specs.Prelude.{◌≡◌, ℕ, List, Some, None, slice_get, slice_index_or, slice_set};
ghost use Rattle.domino_cell.specs.NetsAt.{AreNumbersAt};

use dom_base::NetName;

/// The number that the net of a gate may have, if there is one.
pub fn number_of(numbers: &[Option<u32>], gate: usize) -> Option<u32>
    ensures { result ≡ slice_index_or numbers.now gate None }
{
    if gate < numbers.len() {
        numbers[gate]
    } else {
        None
    }
}

/// Sets the number of the net of a gate, where there is a place for it.
pub fn set_number(numbers: &mut [Option<u32>], gate: usize, number: u32)
    ensures { numbers.new ≡ slice_set numbers.old gate (Some number) }
{
    if gate < numbers.len() {
        numbers[gate] = Some(number);
    }
}

/// Sets the number of the net of a gate, where this net is the one of the gate and there is a place for it.
pub fn keep_number(
    numbers: &mut [Option<u32>],
    names: &[NetName],
    gate: usize,
    net: &NetName,
    number: u32,
)
    ensures { (nets : List (List ℕ)) → AreNumbersAt nets names.now numbers.old → slice_get nets number ≡ Some net.now
        → AreNumbersAt nets names.now numbers.new }
{
    if gate < names.len() && names[gate] == *net {
        set_number(numbers, gate, number);
    }
}
