//! Where things stand in a table of ports.
ghost use Rattle.std.specs.Prelude.{◌≡◌, not, position};
ghost use Rattle.ports_spec.specs.Ports.{holds, twice, unfit};

use crate::{Entry, Ports};

/// Where a port is held.
pub(crate) fn place_of(table: &[Entry], port: u16) -> Option<usize>
    ensures { result ≡ position (holds port) table.now }
{
    table.iter().position(|e| e.held && e.port == port)
}

/// The first free place.
pub(crate) fn free_place(table: &[Entry]) -> Option<usize>
    ensures { result ≡ position (λ e. not e.held) table.now }
{
    table.iter().position(|e| !e.held)
}

// Whether one port is held twice.
fn is_twice(table: &[Entry]) -> bool
    ensures { result ≡ twice table.now }
{
    let mut rest = table;
    // What stands behind each place is looked at, so that the loop takes the first off what is left: no iterator hands out the rest.
    while let Some((e, behind)) = rest.split_first() {
        if e.held && place_of(behind, e.port).is_some() {
            return true;
        }
        rest = behind;
    }
    false
}

/// Whether a table has too many places, or one port is held twice.
pub(crate) fn is_unfit(table: &[Entry]) -> bool
    ensures { result ≡ unfit table.now }
{
    table.len() > Ports::PLACES || is_twice(table)
}
