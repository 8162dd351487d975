//! Values of nets.
ghost use Rattle.std.specs.Prelude.{◌≡◌, ◌≢◌, ◌<◌, false, length, true};
ghost use Rattle.deck.specs.Switches.{value_of};

use dom_base::Tri;

/// Whether a net has this value.
pub fn has_value(values: &[Tri], net: u32, value: Tri) -> bool
    requires { net < length values.now }
    ensures yes { result ≡ true → value_of values.now net ≡ value }
    ensures no { result ≡ false → value_of values.now net ≢ value }
{
    values[net as usize] == value
}
