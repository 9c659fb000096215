//! The rows of a sheet, the first of 16 places.
ghost use Rattle.std.specs.Prelude.{◌≡◌, ◌<◌, ◌≤◌, leb, length, position, take};
ghost use Rattle.std.specs.Result.{ForOk};
ghost use Rattle.sheet_spec.specs.Rows.{row_for, padded};
ghost use Rattle.sheet_spec.specs.Places.{place_in};

use crate::tally::blank;
use sheet_spec::Row;

// The first row of a port that is not smaller.
// No binary search: callers hand in sheets whose rows are in no order, and of those too it is the first one (`note_in`).
fn place(rows: &[Row], port: u16) -> Option<usize>
    ensures { result ≡ position (λ row. leb port row.port) rows.now }
{
    rows.iter().position(|row| row.port >= port)
}

/// Where the row of a port stands, or else where it is to stand: before the first of a greater one.
pub(crate) fn find(rows: &[Row], port: u16) -> Result<usize, usize>
    ensures { result ≡ place_in port rows.now }
{
    match place(rows, port) {
        Some(at) if rows[at].port == port => Ok(at),
        Some(at) => Err(at),
        None => Err(rows.len()),
    }
}

/// The row that a packet of a port finds.
pub(crate) fn row_at(rows: &[Row], found: Result<usize, usize>, port: u16) -> Row
    requires found { found ≡ place_in port rows.now }
    requires bound { ForOk found (λ at. at < length rows.now) }
    ensures { result ≡ row_for port rows.now }
{
    match found {
        Ok(at) => rows[at],
        Err(_) => blank(port),
    }
}

/// The first n rows, and blank ones behind them.
pub(crate) fn alone(rows: [Row; 16], n: usize) -> [Row; 16]
    requires { n ≤ 16 }
    ensures { result ≡ padded (take n rows) }
{
    let mut alone = rows;
    alone[n..].fill(blank(0));
    alone
}
