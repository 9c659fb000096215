//! What the yards will make of the lines that are sent, by the boards' own rule: the proved table of ports that a board keeps, the classes of ports, and
//! how a board shows a byte. A warning is a line `line N: warning: ..` on standard error; what is sent does not depend on it.
use crate::naming::name_line;
use board_lines::Piece;
use console::{Speak, say};
use packet::Class;
use ports::{Entry, Noted, Ports};

// What the boards have seen, and what was said once. The two flags are no enum: each is set by itself, whatever the other is.
#[derive(Clone, Copy)]
pub struct Watch {
    ports: Ports,
    // Of a port that finds no place.
    full: bool,
    // Of a carriage return.
    returned: bool,
}

// So many bytes of a text are named, at most.
const NAMED: usize = 4;

impl Watch {
    // Before the first line.
    pub fn fresh() -> Watch {
        Watch {
            ports: Ports::fresh(),
            full: false,
            returned: false,
        }
    }

    // A line that is sent, and its number.
    pub fn heed(&mut self, rt: &impl Speak, number: u64, line: &[u8]) {
        if let Some(bid) = bid::read(line) {
            let told = self.ports.note(bid.port, bid.sequence);
            self.heed_number(rt, number, bid.port, told.noted);
            self.ports = told.ports;
            self.heed_text(rt, number, &line[bid.from.min(line.len())..]);
        }
    }

    // What a sequence number is to the last one of its port.
    fn heed_number(&mut self, rt: &impl Speak, number: u64, port: u16, noted: Noted) {
        match noted {
            Noted::First => heed_class(rt, number, port),
            Noted::InOrder => {}
            Noted::Repeated => {
                self.say_last(rt, number, b"repeated", port);
                say(rt, b"; the yards will not take it for a new bid\n");
            }
            Noted::Missing(n) => {
                self.say_last(rt, number, b"a gap", port);
                say(rt, b"; the yards will be told: missing ");
                console::say_number(rt, u64::from(n));
                say(rt, b"\n");
            }
            Noted::Late => {
                self.say_last(rt, number, b"late", port);
                say(rt, b"; the yards will not quote from it\n");
            }
            Noted::Refused(_) => self.heed_full(rt, number, port),
        }
    }

    // `line N: warning: WHAT: port P had number L before`.
    fn say_last(&self, rt: &impl Speak, number: u64, what: &[u8], port: u16) {
        warn(rt, number);
        say(rt, what);
        say(rt, b": port ");
        console::say_number(rt, u64::from(port));
        say(rt, b" had number ");
        console::say_number(rt, u64::from(last_of(port, &self.ports.entries)));
        say(rt, b" before");
    }

    // A port that finds no place, said once.
    fn heed_full(&mut self, rt: &impl Speak, number: u64, port: u16) {
        if self.full {
            return;
        }
        self.full = true;
        warn(rt, number);
        say(rt, b"port ");
        console::say_number(rt, u64::from(port));
        say(
            rt,
            b" is the seventeenth: a board watches 16, and of others cannot tell what is late or missing\n",
        );
    }

    // Bytes that the yards see by number; of a carriage return at the end once.
    fn heed_text(&mut self, rt: &impl Speak, number: u64, text: &[u8]) {
        let plain = text.strip_suffix(b"\r").unwrap_or(text);
        heed_plain(rt, number, plain);
        if plain.len() == text.len() || self.returned {
            return;
        }
        self.returned = true;
        warn(rt, number);
        say(
            rt,
            b"a carriage return ends the text, as in a file from Windows: the yards see \\x0D; not said of the lines behind it\n",
        );
    }
}

// The last number of a port that is held, as each with a gap or a late number is; 0 for none.
fn last_of(port: u16, entries: &[Entry]) -> u16 {
    entries
        .iter()
        .find(|e| e.held && e.port == port)
        .map_or(0, |e| e.last)
}

// Bytes that are not plain ASCII.
fn heed_plain(rt: &impl Speak, number: u64, text: &[u8]) {
    if let Some(odd) = text.iter().position(|b| is_odd(*b)) {
        warn(rt, number);
        say(rt, b"not plain ASCII: the yards see ");
        say_shown(rt, &text[odd..]);
        say(rt, b"\n");
    }
}

// Whether a board shows a byte by its number.
fn is_odd(b: u8) -> bool {
    !(b' '..=b'~').contains(&b)
}

// The first such bytes, as a board shows them.
fn say_shown(rt: &impl Speak, text: &[u8]) {
    for b in text.iter().take(NAMED).take_while(|b| is_odd(**b)) {
        say_byte(rt, *b);
    }
}

fn say_byte(rt: &impl Speak, b: u8) {
    let piece = Piece::shown_byte(b);
    say(rt, &piece.bytes[..piece.length.min(piece.bytes.len())]);
}

fn warn(rt: &impl Speak, number: u64) {
    name_line(rt, number);
    say(rt, b"warning: ");
}

// A port's first line.
fn heed_class(rt: &impl Speak, number: u64, port: u16) {
    if !matches!(packet::class_of(port), Class::Applications) {
        warn(rt, number);
        say(rt, b"port ");
        console::say_number(rt, u64::from(port));
        say(
            rt,
            b" is none for applications: take one from 1025 to 20735\n",
        );
    }
}
