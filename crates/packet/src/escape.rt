//! Escapes: undone on reading, counted and stored on writing.
ghost use Rattle.std.specs.Prelude.{◌≡◌, ◌+◌, ◌<◌, ◌≤◌, ltb, length, drop};
ghost use Rattle.base.specs.Private.{Laid};
ghost use Rattle.packet_spec.specs.Escape.{escape, escape_byte, plain, escaped, wrong_from, wrong_behind, scan, restored};
ghost use Rattle.packet.specs.Private.{run, escapes};

use crate::search;
use packet_spec::Escapes;

// Plain reading of raw[at..]: the place of the first wrong byte behind 7D, 0 where there is none. Two functions and no loop, here and where escapes
// are undone: the paper names that form, and a run is passed over at once, so there are two calls for each escape. A number and no Option: the
// compiler makes no loop of calls that hand on an Option, which takes half as long again, and stack for each escape.
#[cycle(scan_escaped_scan_plain)]
fn scan_plain(raw: &[u8], at: usize) -> usize
    requires { at ≤ length raw.now }
    ensures { result ≡ wrong_from 0 at (drop at raw.now) }
{
    let i = at + search::up_to(&raw[at..], 0x7D);
    if i == raw.len() {
        return 0;
    }
    scan_escaped(raw, i + 1)
}

// Escaped reading of raw[at..], behind a 7D.
#[cycle(scan_escaped_scan_plain)]
fn scan_escaped(raw: &[u8], at: usize) -> usize
    requires { at ≤ length raw.now }
    ensures { result ≡ wrong_from 0x7D at (drop at raw.now) }
{
    if at == raw.len() {
        return 0;
    }
    match raw[at] {
        0x5E | 0x5D => scan_plain(raw, at + 1),
        _ => at,
    }
}

// What the escapes of raw bytes are.
pub fn scan(raw: &[u8]) -> Escapes
    ensures { result ≡ scan raw.now }
{
    if raw.last() == Some(&0x7D) {
        return Escapes::Unfinished;
    }
    match scan_plain(raw, 0) {
        0 => Escapes::Right,
        place => Escapes::Wrong(place),
    }
}

/// The place of the first byte of raw[from..] that stands behind 7D and is neither 5E nor 5D; 0 where there is none.
// No Option: the frame reader keeps it in its state, which callers hand in.
pub fn wrong_behind(raw: &[u8], from: usize) -> usize
    ensures { result ≡ wrong_behind from raw.now }
{
    if raw.len() <= from {
        return 0;
    }
    if from != 0 && raw[from - 1] == 0x7D {
        return scan_escaped(raw, from);
    }
    scan_plain(raw, from)
}

// The byte that stands as b behind 7D.
fn restored(b: u8) -> u8
    ensures { result ≡ restored b }
{
    if b == 0x5E { 0x7E } else { 0x7D }
}

// Moves the bytes of recv[from..] before the first 7D to the places from `to` on; how many.
// Buffer and places come one by one here and below: a struct of all three would say what it leaves in the buffer by nested pairs (`.exit.0.now`),
// one of the two places would keep one of two bounds, and both say no more plainly what stands where.
fn move_run(recv: &mut [u8], from: usize, to: usize) -> usize
    requires { (from ≤ length recv.old) × (to ≤ from) }
    ensures { Laid recv.old to (run (drop from recv.old)) recv.new (to + result) }
{
    let k = search::up_to(&recv[from..], 0x7D);
    if to < from {
        recv.copy_within(from..from + k, to);
    }
    k
}

// Plain reading of recv[from..]: stored, escapes undone, from `to` on; the place behind.
#[cycle(undo_escaped_undo_plain)]
pub fn undo_plain(recv: &mut [u8], from: usize, to: usize) -> usize
    requires { (from ≤ length recv.old) × (to ≤ from) }
    ensures { Laid recv.old to (plain (drop from recv.old)) recv.new result }
{
    let k = move_run(recv, from, to);
    let at = from + k;
    let end = to + k;
    if at == recv.len() {
        return end;
    }
    undo_escaped(recv, at + 1, end)
}

// Escaped reading of the same, behind a 7D.
#[cycle(undo_escaped_undo_plain)]
fn undo_escaped(recv: &mut [u8], from: usize, to: usize) -> usize
    requires { (from ≤ length recv.old) × (to < from) }
    ensures { Laid recv.old to (escaped (drop from recv.old)) recv.new result }
{
    if from == recv.len() {
        return to;
    }
    let b = restored(recv[from]);
    recv[to] = b;
    undo_plain(recv, from + 1, to + 1)
}

// Whether a byte is escaped.
fn is_escaped(b: u8) -> bool
    ensures { result ≡ escapes b }
{
    b == 0x7E || b == 0x7D
}

// How many bytes they are once they are escaped. A loop, since the compiler makes no vectors of a chain that filters and counts.
pub fn escaped_len(bytes: &[u8]) -> usize
    ensures { result ≡ length (escape bytes.now) }
{
    let mut n: usize = 0;
    for b in bytes {
        n += 1 + usize::from(is_escaped(*b));
    }
    n
}

// Whether they are more than `limit` then: half as many cannot be.
pub fn longer(bytes: &[u8], limit: usize) -> bool
    ensures { result ≡ ltb limit (length (escape bytes.now)) }
{
    limit / 2 < bytes.len() && limit < escaped_len(bytes)
}

// Stores a byte, escaped, from `at` on; the place behind.
fn put_byte(out: &mut [u8], at: usize, b: u8) -> usize
    requires { at + length (escape_byte b) ≤ length out.old }
    ensures { Laid out.old at (escape_byte b) out.new result }
{
    if is_escaped(b) {
        out[at] = 0x7D;
        out[at + 1] = b - 0x20;
        return at + 2;
    }
    out[at] = b;
    at + 1
}

// Stores bytes, escaped, from `at` on; the place behind.
pub fn put(out: &mut [u8], at: usize, bytes: &[u8]) -> usize
    requires { at + length (escape bytes.now) ≤ length out.old }
    ensures { Laid out.old at (escape bytes.now) out.new result }
{
    let mut to = at;
    for b in bytes {
        to = put_byte(out, to, *b);
    }
    to
}
