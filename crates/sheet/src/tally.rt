//! A row behind a packet, by request W1's rule.
ghost use Rattle.std.specs.Prelude.{◌≡◌, ◌+◌, ◌≤◌};
ghost use Rattle.sheet_spec.specs.Tally.{plus, one};
ghost use Rattle.sheet_spec.specs.Rows.{blank, cleared, verdict, heard_row};
ghost use Rattle.sheet_spec.specs.Places.{last_by};
ghost use Rattle.sheet.specs.Private.{narrow, narrow_row};

use ports::Noted;
use sheet_spec::{Row, Tally};

/// A port's row before its first packet.
pub(crate) fn blank(port: u16) -> Row
    ensures { result ≡ blank port }
{
    Row {
        port,
        tally: Tally {
            delivered: 0,
            repeated: 0,
            late: 0,
            missing: 0,
            total: 0,
        },
        heard: false,
        last: 0,
    }
}

/// The recording forgotten.
pub(crate) fn clear(row: Row) -> Row
    ensures { result ≡ cleared row }
{
    Row {
        heard: false,
        last: 0,
        ..row
    }
}

// What a packet is to its port.
fn verdict(row: Row, sequence: u16) -> Noted
    ensures { result ≡ verdict row sequence }
{
    if row.heard {
        ports::rule(row.last, sequence)
    } else {
        Noted::First
    }
}

// One packet's numbers: so many missing before it, and 1 where it is in order, first or after a gap.
fn counts(repeated: u64, late: u64, missing: u16, timely: u64) -> Tally
    requires { timely ≤ 1 }
    ensures { result ≡ record { delivered = 1; repeated = repeated; late = late; missing = missing; total = missing + timely } }
{
    let missing = u64::from(missing);
    Tally {
        delivered: 1,
        repeated,
        late,
        missing,
        total: missing + timely,
    }
}

// The numbers of a packet.
fn one(noted: Noted) -> Tally
    ensures { result ≡ one noted }
{
    match noted {
        Noted::First | Noted::InOrder => counts(0, 0, 0, 1),
        Noted::Repeated => counts(1, 0, 0, 0),
        Noted::Missing(n) => counts(0, 0, n, 1),
        Noted::Late => counts(0, 1, 0, 0),
        Noted::Refused(_) => counts(0, 0, 0, 0),
    }
}

// The numbers together, if each stays within 64 bits.
fn sum(a: Tally, b: Tally) -> Option<Tally>
    ensures { result ≡ narrow (plus a b) }
{
    Some(Tally {
        delivered: a.delivered.checked_add(b.delivered)?,
        repeated: a.repeated.checked_add(b.repeated)?,
        late: a.late.checked_add(b.late)?,
        missing: a.missing.checked_add(b.missing)?,
        total: a.total.checked_add(b.total)?,
    })
}

// The last number then: a late packet leaves it.
fn last_by(noted: Noted, last: u16, sequence: u16) -> u16
    ensures { result ≡ last_by noted last sequence }
{
    match noted {
        Noted::Late => last,
        _ => sequence,
    }
}

/// The row behind a packet, if its numbers stay within 64 bits.
pub(crate) fn heard_row(row: Row, sequence: u16) -> Option<Row>
    ensures { result ≡ narrow_row (heard_row row sequence) }
{
    let noted = verdict(row, sequence);
    let tally = sum(row.tally, one(noted))?;
    Some(Row {
        tally,
        heard: true,
        last: last_by(noted, row.last, sequence),
        ..row
    })
}
