//! Where the taking apart of a recording stands: a byte on, or a run of stream bytes on.
ghost use Rattle.std.specs.Prelude.{◌≡◌, false, ◌+◌, ◌*◌, ◌<◌, ◌≤◌};
ghost use Rattle.listing_spec.specs.Apart.{fresh_spot, on, wrong, left, next, in_stream, well, is_wrong};
ghost use Rattle.recording.specs.Call.{far};
ghost use Rattle.recording.specs.Deck.{channel_at};
ghost use Rattle.recording.specs.Private.{left_at, run_of, on_to, skipped};

use listing_spec::{Place, Spot};

/// The first byte of a recorded plain stream.
const PLAIN: u8 = 0x50;

/// The first byte of a recorded opportunistic channel.
const CHANNEL: u8 = 0x4F;

/// A record's mark.
const MARK: [u8; 2] = [0xF5, 0x5F];

/// A stream has at most so many bytes.
const MOST: u64 = 4294967295;

/// Before the first byte.
pub(crate) fn fresh() -> Spot
    ensures { result ≡ fresh_spot }
{
    Spot {
        place: Place::Mode,
        offset: 0,
        count: 0,
    }
}

// Stream bytes left in the record.
fn left_of(place: Place) -> usize
    ensures { (result ≡ left_at place) × (result ≤ 65536) }
{
    match place {
        Place::Inside(k) => usize::from(k) + 1,
        _ => 0,
    }
}

/// How many of the next n bytes are stream bytes of this record.
pub(crate) fn run(spot: Spot, n: usize) -> usize
    ensures { result ≡ run_of spot n }
{
    let room = MOST.saturating_sub(spot.count);
    n.min(left_of(spot.place).min(room as usize))
}

// The place n stream bytes on.
fn place_on(place: Place, n: usize) -> Place
    ensures { result ≡ on_to place n }
{
    let left = left_of(place);
    if n == 0 {
        place
    } else if n < left {
        Place::Inside((left - n - 1) as u16)
    } else {
        Place::Mark
    }
}

/// Behind n stream bytes of this record.
pub(crate) fn skip(spot: Spot, n: usize) -> Spot
    requires { (spot.offset + n ≤ far) × (spot.count + n ≤ far) }
    ensures { result ≡ skipped spot n }
{
    Spot {
        place: place_on(spot.place, n),
        offset: spot.offset + n as u64,
        count: spot.count + n as u64,
    }
}

// One byte on, at a new place. That the offset has room for it, `step` and `head` ask too: a spot is made anew with each byte, and so would a type of it be.
fn on(spot: Spot, place: Place) -> Spot
    requires { spot.offset < far }
    ensures { result ≡ on place spot }
{
    Spot {
        place,
        offset: spot.offset + 1,
        ..spot
    }
}

// At a wrong byte.
fn wrong(spot: Spot) -> Spot
    ensures { result ≡ wrong spot }
{
    Spot {
        place: Place::Wrong,
        ..spot
    }
}

// The place where a record has so many stream bytes.
fn place_of(low: u8, high: u8) -> Place
    ensures { result ≡ left (low + 256 * high) }
{
    match u16::from_le_bytes([low, high]) {
        0 => Place::Mark,
        n => Place::Inside(n - 1),
    }
}

/// Behind a byte that is no stream byte.
#[tactic(auto, unfolding(listing_spec::specs::Apart::next_at, listing_spec::specs::Apart::in_stream))]
pub(crate) fn step(spot: Spot, b: u8) -> Spot
    requires { (spot.offset < far) × (in_stream spot.place spot.count ≡ false) }
    ensures { result ≡ next spot b }
{
    match spot.place {
        Place::Mode if b == PLAIN || b == CHANNEL => on(spot, Place::Mark),
        Place::Mark if b == MARK[0] => on(spot, Place::Second),
        Place::Second if b == MARK[1] => on(spot, Place::Low),
        Place::Low => on(spot, Place::High(b)),
        Place::High(low) => on(spot, place_of(low, b)),
        Place::Mode | Place::Mark | Place::Second | Place::Inside(_) => wrong(spot),
        Place::Wrong => spot,
    }
}

// The flag is the state's, which callers hand in: it switches nothing here, and stays behind every byte but the first.
/// Which stream it is behind a byte that is no stream byte: the first byte says it.
pub(crate) fn channel_behind(place: Place, channel: bool, b: u8) -> bool
    ensures { result ≡ channel_at place b channel }
{
    match place {
        Place::Mode => b == CHANNEL,
        _ => channel,
    }
}

/// Whether a recording may end here.
pub(crate) fn is_well(place: Place) -> bool
    ensures { result ≡ well place }
{
    matches!(place, Place::Mark)
}

/// Whether a wrong byte was met.
pub(crate) fn is_wrong(place: Place) -> bool
    ensures { result ≡ is_wrong place }
{
    matches!(place, Place::Wrong)
}
