//! Sources that devices join to nets.
ghost use Rattle.std.specs.Prelude.{◌≡◌, ◌<◌, ℕ, IfSome, Some, false, length, true};
ghost use Rattle.deck.specs.Nets.{IsInRange};
ghost use Rattle.deck.specs.Paths.{Ends};
ghost use Rattle.switch_model.specs.LinksData.{is_first};
ghost use Rattle.switch_model.specs.Walks.{PassesSort};

use crate::sort::Sort;
use deck::Device;
use dom_base::Tri;

/// The end of a device that is no source, and the source at its other end, where paths of a sort go
/// through the device.
pub fn lead_of(sort: Sort, device: Device, sources: u32, values: &[Tri]) -> Option<(u32, u32)>
    requires { IsInRange (length values.now) device }
    ensures some { IfSome result (λ p.
        PassesSort sort values.now device × Ends device p.0 p.1 × (is_first sources p.0 ≡ false) × (is_first sources p.1 ≡ true)) }
    ensures only { (m s : ℕ) → PassesSort sort values.now device → Ends device m s
        → is_first sources m ≡ false → is_first sources s ≡ true → result ≡ Some (m, s) }
{
    if !sort.passes(device, values) {
        return None;
    }
    if device.drain < sources && device.source >= sources {
        Some((device.source, device.drain))
    } else if device.source < sources && device.drain >= sources {
        Some((device.drain, device.source))
    } else {
        None
    }
}
