//! The monthly reception sheet (request W13): a line for each port, counted from the delivered packets of many recordings.
#![tactic(auto)]

ghost use Rattle.std.specs.Prelude.{◌≡◌, ◌≤◌, length};
ghost use Rattle.base.specs.Written.{as_written, outcome};
ghost use Rattle.sheet.specs.Call.{rows_of, sheet_of, fresh_sheet, tidied, beginning, adding, noting, closing, printing};
ghost use Rattle.sheet.specs.Counted.{as_counted, as_closed};
ghost use Rattle.sheet_spec.specs.Places.{put_in, PutsIn};
ghost use Rattle.sheet.specs.Private.{counted_of};

use base::{Refusal, Written};
use line::print_row;
use ports_spec::Range;
use rows::{alone, find, row_at};
use sheet_spec::Row;
use tally::{blank, clear, heard_row};

mod line;
mod rows;
mod tally;

/// The sheet: the first so many rows, a port each, in rising order.
// An array and a count, since a library has no heap; callers hand in counts above 16 too, which are refused (10).
#[derive(Clone, Copy)]
pub struct Sheet {
    pub ports: usize,
    pub rows: [Row; 16],
}

/// The sheet while a recording is counted.
#[derive(Clone, Copy)]
pub struct Draft {
    /// As it was.
    pub before: Sheet,
    /// With the packets of this recording.
    pub after: Sheet,
    // Two flags and no `Option<Refusal>`: both may be met, in either order, and callers hand in any (`drafted`, `ruling`).
    /// A seventeenth port was met.
    pub full: bool,
    /// A number would have passed 64 bits.
    pub wide: bool,
}

/// Why a recording does not count.
#[derive(Clone, Copy)]
pub enum Uncounted {
    /// It does not end as a recording.
    Wrong,
    Refused(Refusal),
}

/// What becomes of a recording, and the sheet then.
#[derive(Clone, Copy)]
pub struct Closed {
    pub counted: Result<(), Uncounted>,
    pub sheet: Sheet,
}

impl Sheet {
    /// At most so many ports.
    pub const PORTS: usize = 16;
    /// No line is longer.
    pub const LINE: usize = 147;

    /// A sheet of no recording.
    pub fn fresh() -> Sheet
        ensures { result ≡ fresh_sheet }
    {
        Sheet {
            ports: 0,
            rows: [blank(0); 16],
        }
    }

    // The last recording forgotten.
    fn tidied(self) -> Sheet
        ensures { result ≡ tidied self }
    {
        let ports = self.ports.min(Sheet::PORTS);
        Sheet {
            ports,
            rows: alone(self.rows.map(clear), ports),
        }
    }

    // With a packet's row where it was found: in a row's stead, or between.
    fn with(self, found: Result<usize, usize>, row: Row) -> Sheet
        requires few { self.ports ≤ 16 }
        requires fits { PutsIn found (rows_of self) }
        ensures { result ≡ sheet_of (put_in found row (rows_of self)) }
    {
        let n = self.ports;
        let mut rows = alone(self.rows, n);
        match found {
            Ok(at) => {
                rows[at] = row;
                Sheet { ports: n, rows }
            }
            Err(at) => {
                rows[at..=n].rotate_right(1);
                rows[at] = row;
                Sheet { ports: n + 1, rows }
            }
        }
    }

    /// The next recording begins.
    pub fn begin(self) -> Draft
        ensures { result ≡ beginning self }
    {
        Draft {
            before: self,
            after: self.tidied(),
            full: false,
            wide: false,
        }
    }

    /// Writes row i's line; nothing behind the last row.
    pub fn print(self, i: usize, out: &mut [u8]) -> Written
        ensures { outcome (as_written result) out.new ≡ printing self i out.old }
    {
        if self.ports > Sheet::PORTS {
            return Err(Refusal::State);
        }
        if i < self.ports {
            return print_row(self.rows[i], out);
        }
        Ok(0)
    }
}

impl Draft {
    /// A delivered packet; one of a port outside the range does not count.
    pub fn note(self, range: Range, port: u16, sequence: u16) -> Draft
        ensures { result ≡ noting range self port sequence }
    {
        if range.has(port) {
            self.add(port, sequence)
        } else {
            self
        }
    }

    // A packet that counts.
    fn add(self, port: u16, sequence: u16) -> Draft
        ensures { result ≡ adding self port sequence }
    {
        let n = self.after.ports;
        if n > Sheet::PORTS {
            return self;
        }
        let rows = self.after.rows;
        let found = find(&rows[..n], port);
        if found.is_err() && n == Sheet::PORTS {
            return Draft { full: true, ..self };
        }
        match heard_row(row_at(&rows[..n], found, port), sequence) {
            Some(row) => Draft {
                after: self.after.with(found, row),
                ..self
            },
            None => Draft { wide: true, ..self },
        }
    }

    /// The recording's end; `well`: it may end so.
    // A flag, as a recording's `may_end` answers it and the definition takes it (`closing`).
    pub fn close(self, well: bool) -> Closed
        ensures { as_closed result ≡ closing self well }
    {
        match self.counted(well) {
            Ok(()) => Closed {
                counted: Ok(()),
                sheet: self.after.tidied(),
            },
            Err(why) => Closed {
                counted: Err(why),
                sheet: self.before,
            },
        }
    }

    // Whether the recording counts.
    fn counted(self, well: bool) -> Result<(), Uncounted>
        ensures { as_counted result ≡ counted_of self well }
    {
        if self.before.ports > Sheet::PORTS || self.after.ports > Sheet::PORTS {
            Err(Uncounted::Refused(Refusal::State))
        } else if !well {
            Err(Uncounted::Wrong)
        } else if self.full {
            Err(Uncounted::Refused(Refusal::Full))
        } else if self.wide {
            Err(Uncounted::Refused(Refusal::Wide))
        } else {
            Ok(())
        }
    }
}
