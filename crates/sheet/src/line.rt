//! The line of a port on the monthly sheet, written.
ghost use Rattle.std.specs.Prelude.{◌≡◌};
ghost use Rattle.base.specs.Written.{as_written, outcome, write};
ghost use Rattle.sheet.specs.Call.{line_of};

use crate::Sheet;
use base::Written;
use sheet_spec::Row;
use text::{deliver, put_item};

// The missing stand twice, the second time as the loss's first number.
pub(crate) fn print_row(row: Row, out: &mut [u8]) -> Written
    ensures { outcome (as_written result) out.new ≡ write (line_of row) out.old }
{
    let tally = row.tally;
    let mut text = [0; Sheet::LINE];
    let a = put_item(&mut text, 0, u64::from(row.port), b' ');
    let b = put_item(&mut text, a, tally.delivered, b' ');
    let c = put_item(&mut text, b, tally.repeated, b' ');
    let d = put_item(&mut text, c, tally.late, b' ');
    let e = put_item(&mut text, d, tally.missing, b' ');
    let f = put_item(&mut text, e, tally.missing, b' ');
    let n = put_item(&mut text, f, tally.total, b'\n');
    deliver(&text, n, out)
}
