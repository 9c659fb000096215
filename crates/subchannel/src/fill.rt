//! Bytes that only fill a word, many in one go: they give no answer, and of the state they move the group's count, the word's and the cells alone.
ghost use Rattle.std.specs.Prelude.{◌≡◌, ◌+◌, ◌≤◌};
ghost use Rattle.channel_spec.specs.Sender.{word_bytes};
ghost use Rattle.subchannel_spec.specs.Sender.{group_bytes};
ghost use Rattle.subchannel.specs.Private.{Fills, filled, FillAsks, FilledIs};

use crate::cells;
use crate::counts::Counts;
use crate::lane::Lane;
use crate::sub::Sub;
use interleaver::Back;

// How many of the bytes that are left only fill the word: not its last one, and none before every byte brings one.
pub(crate) fn plain(lane: Lane, back: &Back, left: usize) -> usize
    requires { (lane.counts.group ≤ group_bytes) × (lane.counts.word ≤ word_bytes) }
    ensures { (result ≤ left) × Fills lane back.now.again result }
{
    let counts = lane.counts;
    let brings = back.again || lane.settings.depth < 2;
    if lane.lost || !lane.locked || counts.word == Sub::WORD || counts.handed != 0 || !brings {
        return 0;
    }
    let room = (Sub::GROUP - counts.group).min(Sub::WORD - 1 - counts.word);
    left.min(room)
}

// The lane behind n such bytes.
pub(crate) fn filled(lane: Lane, n: usize) -> Lane
    requires { (lane.counts.group + n ≤ group_bytes) × (lane.counts.word + n ≤ word_bytes) }
    ensures { result ≡ filled lane n }
{
    let counts = lane.counts;
    Lane {
        counts: Counts {
            group: counts.group + n,
            word: counts.word + n,
            ..counts
        },
        ..lane
    }
}

// The n bytes of the piece from one on, each through the interleaver and into its place in the word. By their numbers: byte and place go on
// together, and of `iter_mut().zip(..)` a proof knows the length alone.
pub(crate) fn fill(
    lane: Lane,
    back: &mut Back,
    word: &mut [u8],
    piece: &[u8],
    from: usize,
    n: usize,
)
    requires { FillAsks lane back.old word.old piece.now from n }
    ensures { FilledIs lane back.old word.old piece.now from n back.new word.new }
{
    let depth = lane.settings.depth;
    let at = lane.counts.word;
    for k in 0..n {
        if let Some(byte) = cells::turn(back, depth, piece[from + k]) {
            word[at + k] = byte;
        }
    }
}
