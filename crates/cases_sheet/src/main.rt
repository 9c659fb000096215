//! Answers cases of the monthly sheet, for tests/sheet.
//!
//! All are numbers of eight bytes, low byte first. A row: port, delivered, repeated, late, missing, total, heard, last. A case: how many rows the
//! sheet has, 16 rows, the first and the last port that count, how many packets the recording has, port and sequence number of each, whether it ends
//! well. An answer: what becomes of the recording: 0 it counts, 1 it is wrong, 65,536 and the number of a refusal; how many rows the sheet then has;
//! and for each of 16 places its row, and its line with its length before it, or 65,536 and the number of a refusal.
#![tactic(auto)]

use cases::Serve;
use ports_spec::Range;
use sheet::{Draft, Sheet, Uncounted};
use sheet_spec::{Row, Tally};
use std::io;
use std::io::{Read, Write};

#[derive(Drop)]
struct Sheets;

fn main(rt: HostRuntime) -> io::Result<()> {
    cases::serve_all(&rt, &mut Sheets)
}

impl Serve for Sheets {
    fn serve(&mut self, input: &mut impl Read, told: &mut impl Write) -> io::Result<bool> {
        let mut head = [0u8; 8];
        if !cases::read_full(input, &mut head)? {
            return Ok(false);
        }
        let ports = cases::number_at(&head, 0) as usize;
        let rows = rows(input)?;
        let sheet = Sheet { ports, rows };
        let range = range(input)?;
        let n = next(input)?;
        let draft = note_all(input, range, sheet.begin(), n)?;
        let closed = draft.close(next(input)? != 0);
        cases::print(told, code(closed.counted))?;
        tell_sheet(told, closed.sheet)?;
        Ok(true)
    }
}

fn rows(input: &mut impl Read) -> io::Result<[Row; 16]> {
    let first = row(input)?;
    let mut rows = [first; 16];
    for place in &mut rows[1..] {
        *place = row(input)?;
    }
    Ok(rows)
}

fn row(input: &mut impl Read) -> io::Result<Row> {
    let port = short(input)?;
    let tally = Tally {
        delivered: next(input)?,
        repeated: next(input)?,
        late: next(input)?,
        missing: next(input)?,
        total: next(input)?,
    };
    Ok(Row {
        port,
        tally,
        heard: next(input)? != 0,
        last: short(input)?,
    })
}

// The ports that count.
fn range(input: &mut impl Read) -> io::Result<Range> {
    let first = short(input)?;
    Ok(Range {
        first,
        last: short(input)?,
    })
}

// The recording's packets, n of them.
fn note_all(input: &mut impl Read, range: Range, begun: Draft, n: u64) -> io::Result<Draft> {
    let mut draft = begun;
    for _ in 0..n {
        let port = short(input)?;
        draft = draft.note(range, port, short(input)?);
    }
    Ok(draft)
}

fn short(input: &mut impl Read) -> io::Result<u16> {
    Ok(cases::half(next(input)?))
}

// The next number of the input.
fn next(input: &mut impl Read) -> io::Result<u64> {
    let mut bytes = [0u8; 8];
    cases::read_full(input, &mut bytes)?;
    Ok(cases::number_at(&bytes, 0))
}

fn code(counted: Result<(), Uncounted>) -> u64 {
    match counted {
        Ok(()) => 0,
        Err(Uncounted::Wrong) => 1,
        Err(Uncounted::Refused(refusal)) => cases::refused(refusal as u8),
    }
}

fn tell_sheet(told: &mut impl Write, sheet: Sheet) -> io::Result<()> {
    cases::print(told, sheet.ports as u64)?;
    for (i, row) in sheet.rows.iter().enumerate() {
        tell_row(told, *row)?;
        tell_line(told, sheet, i)?;
    }
    Ok(())
}

fn tell_row(told: &mut impl Write, row: Row) -> io::Result<()> {
    let tally = row.tally;
    cases::print(told, u64::from(row.port))?;
    cases::print(told, tally.delivered)?;
    cases::print(told, tally.repeated)?;
    cases::print(told, tally.late)?;
    cases::print(told, tally.missing)?;
    cases::print(told, tally.total)?;
    cases::print(told, u64::from(row.heard))?;
    cases::print(told, u64::from(row.last))
}

fn tell_line(told: &mut impl Write, sheet: Sheet, i: usize) -> io::Result<()> {
    let mut text = [0u8; Sheet::LINE];
    match sheet.print(i, &mut text) {
        Ok(n) => cases::show(told, n, &text),
        Err(refusal) => cases::print(told, cases::refused(refusal as u8)),
    }
}
