//! The opportunistic channel, heard with the receiver's state as numbers.
ghost use Rattle.std.specs.Prelude.{◌≡◌, ◌%◌};
ghost use Rattle.rack.specs.Answers.{receiver_of, channel_numbers};
ghost use Rattle.rack.specs.Call.{hearing};

use crate::answers::Numbered;
use crate::{answers, reading};
use channel::{Hunting, Locked, Receiver};

// A byte from its number: the lowest one counts. By the remainder, as the definition has it.
fn low(number: u64) -> u8
    ensures { result ≡ number % 256 }
{
    (number % 256) as u8
}

// The receiver's state from its numbers.
fn receiver_of(s: [u64; 21]) -> Receiver
    ensures { result ≡ receiver_of s }
{
    Receiver {
        locked: s[13] != 0,
        hunting: Hunting {
            a: low(s[17]),
            b: low(s[18]),
            c: low(s[19]),
            d: low(s[20]),
        },
        lock: Locked {
            word: s[14] as usize,
            handed: s[15] as usize,
            marker: s[16] as usize,
        },
        frame: answers::frame_by(s[8], s[9], s[10], s[11]),
    }
}

// The numbers behind a call: those of a plain stream's, and the lock's.
fn numbers(taken: usize, told: Numbered, receiver: Receiver) -> [u64; 21]
    ensures { result ≡ channel_numbers taken told receiver }
{
    let lock = receiver.lock;
    let last = receiver.hunting;
    // One by one into one array: a part that is laid down first is moved once more.
    let [a, b, c, d, e, f, g, h, i, j, k, l] = reading::numbers(taken, told, receiver.frame);
    [
        a,
        b,
        c,
        d,
        e,
        f,
        g,
        h,
        i,
        j,
        k,
        l,
        told.repaired as u64,
        u64::from(receiver.locked),
        lock.word as u64,
        lock.handed as u64,
        lock.marker as u64,
        u64::from(last.a),
        u64::from(last.b),
        u64::from(last.c),
        u64::from(last.d),
    ]
}

/// One call on the opportunistic channel: 0 more wanted, 256 a packet, 257 lock lost, 258 a clean block, 259 a repaired one, 260 one beyond
/// repair, or the number of a refusal. Refused with 10 or 11, it changes nothing.
pub fn aas_channel_read(
    state: &mut [u64; 21],
    recv: &mut [u8],
    word: &mut [u8],
    piece: &[u8],
) -> usize
    ensures { (result, state.new, recv.new, word.new)
        ≡ hearing state.old recv.old word.old piece.now }
{
    let heard = receiver_of(*state).hear(recv, word, piece);
    let told = answers::of_answer(heard.answer);
    if !answers::of_call(told.number) {
        *state = numbers(heard.taken, told, heard.receiver);
    }
    told.number
}
