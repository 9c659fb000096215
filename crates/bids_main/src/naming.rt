//! What is said of a line that is not sent: its number, and why it is no bid.
use console::{Speak, say};

// `line N: `, the beginning of what is said of a line.
pub fn name_line(rt: &impl Speak, number: u64) {
    say(rt, b"line ");
    console::say_number(rt, number);
    say(rt, b": ");
}

// A line that is no bid; the first may be none by a mark that an editor put there.
pub fn say_no_bid(rt: &impl Speak, number: u64, line: &[u8]) {
    if number == 1 && has_mark(line) {
        say(
            rt,
            b"no bid: the file begins with a byte order mark: save it as plain text\n",
        );
        return;
    }
    say(
        rt,
        b"no bid: a bid is PORT SEQUENCE TEXT: two numbers up to 65535, one space behind each\n",
    );
}

// Whether a line begins with a byte order mark, of UTF-8 or of UTF-16.
fn has_mark(line: &[u8]) -> bool {
    line.starts_with(b"\xEF\xBB\xBF")
        || line.starts_with(b"\xFF\xFE")
        || line.starts_with(b"\xFE\xFF")
}
