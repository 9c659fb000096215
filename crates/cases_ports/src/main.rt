//! Answers cases of a table of ports, for tests/ports.
//!
//! A case: N, a packet noted, or F, a port forgotten; port and sequence, low byte first; 16 places: held, port, last. An answer: four bytes, low
//! byte first, of what is told: 0 first or forgotten, 1 in order, 2 repeated, 3 late, 0x10000 and how many are missing, 0x1000000 and the
//! number of a refusal; and the 16 places then.
#![tactic(auto)]

use base::Refusal;
use cases::Serve;
use ports::{Entry, Noted, Ports};
use std::io::{Read, Write};
use std::{array, io};

#[derive(Drop)]
struct Tables;

fn main(rt: HostRuntime) -> io::Result<()> {
    cases::serve_all(&rt, &mut Tables)
}

impl Serve for Tables {
    fn serve(&mut self, input: &mut impl Read, told: &mut impl Write) -> io::Result<bool> {
        let mut case = [0u8; 85];
        if !cases::read_full(input, &mut case)? {
            return Ok(false);
        }
        let head = place(cases::number_at(&case, 0));
        let ports = Ports {
            entries: places_of(&case),
        };
        if case[0] == b'N' {
            let r = ports.note(head.port, head.last);
            tell(told, noted(r.noted), r.ports)?;
        } else {
            let r = ports.forget(head.port);
            tell(told, forgot(r.forgot), r.ports)?;
        }
        Ok(true)
    }
}

fn noted(noted: Noted) -> u32 {
    match noted {
        Noted::First => 0,
        Noted::InOrder => 1,
        Noted::Repeated => 2,
        Noted::Late => 3,
        Noted::Missing(n) => 0x10000 + u32::from(n),
        Noted::Refused(n) => 0x1000000 + u32::from(n),
    }
}

fn forgot(forgot: Result<(), Refusal>) -> u32 {
    match forgot {
        Ok(()) => 0,
        Err(refusal) => 0x1000000 + refusal as u32,
    }
}

fn places_of(case: &[u8; 85]) -> [Entry; 16] {
    array::from_fn(|i| place(cases::number_at(case, 5 + 5 * i)))
}

// A place in a number; a case's own port and sequence stand likewise.
fn place(n: u64) -> Entry {
    Entry {
        held: n % 256 != 0,
        port: cases::half(n >> 8),
        last: cases::half(n >> 24),
    }
}

fn tell(out: &mut impl Write, told: u32, ports: Ports) -> io::Result<()> {
    out.write_all(&told.to_le_bytes())?;
    for entry in ports.entries {
        out.write_all(&[u8::from(entry.held)])?;
        out.write_all(&entry.port.to_le_bytes())?;
        out.write_all(&entry.last.to_le_bytes())?;
    }
    Ok(())
}
