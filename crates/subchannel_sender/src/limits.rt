//! R and the depth of a sub-channel, neither beyond its limit: its words, and its groups.
ghost use Rattle.std.specs.Prelude.{◌≡◌, false, ◌+◌, ◌*◌, ◌/◌, ◌≤◌, length, take, MatchResult, Err};
ghost use Rattle.base.specs.Calls.{joined};
ghost use Rattle.base.specs.Written.{copied};
ghost use Rattle.parity.specs.Calls.{root_limit, word_bytes};
ghost use Rattle.interleaver_spec.specs.Running.{depth_limit, fresh, beyond};
ghost use Rattle.subchannel_spec.specs.Sender.{message_bytes, group_bytes, word_of, missing};
ghost use Rattle.subchannel_sender.specs.Sending.{message_of, words_from, group_count};
ghost use Rattle.subchannel_sender.specs.Private.{group_length, groups_from, GroupIs, limited};

use base::Refusal;
use interleaver::Matrix;
use packet::Packet;
use subchannel_spec::{Group, Settings};

#[derive(Clone, Copy)]
pub(crate) struct Limits {
    parity: usize,
    depth: usize,
    ghost roots: { parity ≤ root_limit },
    ghost rows: { depth ≤ depth_limit },
}

impl Limits {
    // Refused where R or the depth is beyond its limit.
    pub(crate) fn of(parity: usize, depth: usize) -> Result<Self, Refusal>
        ensures { MatchResult result (λ l. (l.parity ≡ parity) × (l.depth ≡ depth)) (λ e. limited parity depth ≡ Err e) }
    {
        if Settings::PARITY < parity {
            return Err(Refusal::Roots);
        }
        if Settings::DEPTH < depth {
            return Err(Refusal::Depth);
        }
        Ok(Limits { parity, depth })
    }

    // Bytes of a message.
    pub(crate) fn message(self) -> usize
        ensures { result ≡ message_bytes self.parity }
    {
        Group::WORD - self.parity
    }

    // How many groups a stream of so many bytes has, with the closing push.
    pub(crate) fn groups(self, bytes: usize) -> usize
        ensures { result ≡ group_count self.parity self.depth bytes }
    {
        let words = messages_of(self.message(), bytes);
        let closing = if self.depth < 2 { 0 } else { self.depth };
        (words + closing).div_ceil(Group::WORDS)
    }

    // The next message of a stream: its bytes, or those that are left and flags; and flags behind them.
    fn message_of(self, stream: &[u8]) -> [u8; Group::WORD]
        ensures { take (message_bytes self.parity) result ≡ message_of self.parity stream.now }
    {
        let n = self.message().min(stream.len());
        let mut message: [u8; Group::WORD] = [Packet::FLAG; Group::WORD];
        message[..n].copy_from_slice(&stream[..n]);
        message
    }

    // Writes the next word of a stream.
    fn put_word(self, stream: &[u8], out: &mut [u8])
        requires { word_bytes ≤ length out.old }
        ensures { out.new ≡ copied (word_of self.parity (message_of self.parity stream.now)) out.old }
    {
        let m = self.message();
        let message = self.message_of(stream);
        out[..m].copy_from_slice(&message[..m]);
        let _ = parity::make(self.parity, &message[..m], &mut out[m..]);
    }

    // The next four words of a stream. By their numbers: of the parts that `chunks_mut` lends nothing is known once they are written.
    pub(crate) fn group_of(self, stream: &[u8]) -> [u8; Group::BYTES]
        ensures { result ≡ joined (words_from self.parity 4 stream.now) }
    {
        let mut group = [0; Group::BYTES];
        let mut rest = stream;
        for i in 0..Group::WORDS {
            self.put_word(rest, &mut group[Group::WORD * i..]);
            rest = &rest[rest.len().min(self.message())..];
        }
        group
    }

    // Writes one group: the marker, and its bytes through the interleaver.
    pub(crate) fn put_group(self, matrix: Matrix, group: &[u8], out: &mut [u8]) -> Matrix
        requires { (beyond self.depth matrix.place ≡ false) × (length group.now ≡ group_bytes) × (group_length ≤ length out.old) }
        ensures { GroupIs self.depth matrix group.now out.old result out.new }
    {
        out[..4].copy_from_slice(&Group::MARKER);
        let pushed = interleaver::push(matrix, self.depth, group, &mut out[4..]);
        pushed.matrix
    }

    // Writes the groups of a stream, by their numbers for the same reason.
    pub(crate) fn put_groups(self, groups: usize, stream: &[u8], out: &mut [u8])
        requires { groups * group_length ≤ length out.old }
        ensures { out.new ≡ copied (groups_from self.parity self.depth groups fresh stream.now) out.old }
    {
        let mut matrix = interleaver::fresh();
        let mut rest = stream;
        for i in 0..groups {
            let group = self.group_of(rest);
            matrix = self.put_group(matrix, &group, &mut out[Group::LENGTH * i..]);
            rest = &rest[rest.len().min(Group::WORDS * self.message())..];
        }
    }
}

// How many messages of m bytes so many bytes fill.
fn messages_of(m: usize, n: usize) -> usize
    requires { 2 ≤ m }
    ensures { result ≡ (n + missing m n) / m }
{
    n.div_ceil(m)
}
