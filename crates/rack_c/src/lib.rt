//! The rack's functions for C (rack/rack.h), a static library: each hands its arguments on to the function of `rack` with its name, and
//! promises what that one does. A slice is a pointer and a length; a receiver's state is an array of numbers that the caller lends.
#![tactic(auto)]

ghost use Rattle.std.specs.Prelude.{◌≡◌};
ghost use Rattle.rack.specs.Words.{making, checking, mending};
ghost use Rattle.rack.specs.Call.{reading, hearing};

/// Makes the r parity bytes of a message: 0, or refused with 30, 31, 23.
#[unsafe(no_mangle)]
pub extern "C" fn aas_parity_make(r: usize, message: &[u8], out: &mut [u8]) -> usize
    ensures { (result, out.new) ≡ making r message.now out.old }
{
    rack::aas_parity_make(r, message, out)
}

/// Checks a word with r parity bytes: 0 clean, 1 damaged, or refused with 30, 31.
#[unsafe(no_mangle)]
pub extern "C" fn aas_word_check(r: usize, word: &[u8]) -> usize
    ensures { result ≡ checking r word.now }
{
    rack::aas_word_check(r, word)
}

/// Repairs a word with r parity bytes in its place: 0 clean, 1 beyond repair, 256 + n repaired in n places, or refused with 30, 31.
#[unsafe(no_mangle)]
pub extern "C" fn aas_word_repair(r: usize, word: &mut [u8]) -> usize
    ensures { (result, word.new) ≡ mending r word.old }
{
    rack::aas_word_repair(r, word)
}

/// One call on a plain stream: 0 more wanted, 256 a packet, or the number of a refusal. Refused with 10 or 11, it changes nothing.
#[unsafe(no_mangle)]
pub extern "C" fn aas_stream_read(state: &mut [u64; 12], recv: &mut [u8], piece: &[u8]) -> usize
    ensures { (result, state.new, recv.new) ≡ reading state.old recv.old piece.now }
{
    rack::aas_stream_read(state, recv, piece)
}

/// One call on the opportunistic channel: 0 more wanted, 256 a packet, 257 lock lost, 258 a clean block, 259 a repaired one, 260 one beyond
/// repair, or the number of a refusal. Refused with 10 or 11, it changes nothing.
#[unsafe(no_mangle)]
pub extern "C" fn aas_channel_read(
    state: &mut [u64; 21],
    recv: &mut [u8],
    word: &mut [u8],
    piece: &[u8],
) -> usize
    ensures { (result, state.new, recv.new, word.new)
        ≡ hearing state.old recv.old word.old piece.now }
{
    rack::aas_channel_read(state, recv, word, piece)
}
