//! Values of signals by their numbers.
ghost use Rattle.std.specs.Prelude.{◌≡◌, ◌+◌, ◌<◌, ◌≤◌, ◌++◌, All, length, map, take, drop};
ghost use Rattle.net_run.specs.RunnerData.{AreTablesFrom, AreValuesOf};
ghost use Rattle.net_run.specs.Runs.{value_at};

use crate::table::is_one;
use network::NetTables;

/// Gives all signals their values: those of the inputs, of the latches and then of the tables.
pub fn evaluate(values: &mut [bool], pins: &[bool], state: &[bool], tables: &NetTables)
    requires count { length values.old ≡ length (pins.now ++ state.now) + length tables.now }
    requires tables { AreTablesFrom (length (pins.now ++ state.now)) tables.now }
    ensures { AreValuesOf (pins.now ++ state.now) tables.now values.new }
{
    put(values, 0, pins);
    put(values, pins.len(), state);
    let first = pins.len() + state.len();
    for k in 0..tables.len() {
        values[first + k] = is_one(&tables.table(k), values);
    }
}

/// Puts bits in the places from one on.
fn put(values: &mut [bool], start: usize, bits: &[bool])
    requires { start + length bits.now ≤ length values.old }
    ensures { values.new ≡ take start values.old ++ bits.now ++ drop (start + length bits.now) values.old }
{
    values[start..start + bits.len()].copy_from_slice(bits);
}

/// Reads the values of the signals of these numbers.
pub fn read(into: &mut [bool], signals: &[u32], values: &[bool])
    requires signals { All (λ signal. signal < length values.now) signals.now }
    requires count { length into.old ≡ length signals.now }
    ensures { into.new ≡ map (value_at values.now) signals.now }
{
    for k in 0..signals.len() {
        into[k] = values[signals[k] as usize];
    }
}
