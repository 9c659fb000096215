//! The distance rule: what a new sequence number says of a port with this last one.
ghost use Rattle.std.specs.Prelude.{◌≡◌};
ghost use Rattle.ports_spec.specs.Distance.{gap, ruled, last_behind};

use crate::Noted;

// Distances from here on are negative.
const HALF: u16 = 32768;

// From last to new, around 65,536.
fn gap(last: u16, new: u16) -> u16
    ensures { result ≡ gap last new }
{
    new.wrapping_sub(last)
}

/// What a new number says of a port with this last one.
pub fn rule(last: u16, new: u16) -> Noted
    ensures { result ≡ ruled last new }
{
    match gap(last, new) {
        0 => Noted::Repeated,
        1 => Noted::InOrder,
        d if d < HALF => Noted::Missing(d - 1),
        _ => Noted::Late,
    }
}

// The last number then.
pub(crate) fn last_behind(last: u16, new: u16) -> u16
    ensures { result ≡ last_behind last new }
{
    if gap(last, new) < HALF { new } else { last }
}
