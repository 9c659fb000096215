//! Which bids did we miss (request W1): a small table of ports, each with its last sequence number.
#![tactic(auto)]

ghost use Rattle.std.specs.Prelude.{◌≡◌, List};
ghost use Rattle.ports_spec.specs.Ports.{noting, forgetting};
ghost use Rattle.ports_spec.specs.declared.Entry.{Entry};
ghost use Rattle.ports_spec.specs.declared.Noted.{Noted};
ghost use Rattle.ports_spec.specs.Forgot.{Forgot, as_forgot};

use base::Refusal;
use distance::last_behind;
use places::{free_place, is_unfit, place_of};

mod by_value;
mod distance;
mod places;

pub use by_value::{ForgotIn, NotedIn, Ports};
pub use distance::rule;
pub use ports_spec::{Entry, Noted};

/// A delivered packet: what it is to its port. 43: more than 16 places, or a port held twice. 40: a new port, and no place is free. A refusal changes nothing.
pub fn note(table: &mut [Entry], port: u16, sequence: u16) -> Noted
    ensures { ◌≡◌ {A = Noted × List Entry} (result, table.new) (noting table.old port sequence) }
{
    if is_unfit(table) {
        return Noted::Refused(Refusal::Table as u8);
    }
    if let Some(place) = place_of(table, port) {
        let last = table[place].last;
        table[place] = Entry {
            held: true,
            port,
            last: last_behind(last, sequence),
        };
        return rule(last, sequence);
    }
    if let Some(place) = free_place(table) {
        table[place] = Entry {
            held: true,
            port,
            last: sequence,
        };
        return Noted::First;
    }
    Noted::Refused(Refusal::Full as u8)
}

/// A port forgotten. 43: more than 16 places, or a port held twice. 41: the port is not held. A refusal changes nothing.
pub fn forget(table: &mut [Entry], port: u16) -> Result<(), Refusal>
    ensures { ◌≡◌ {A = Forgot × List Entry} (as_forgot result, table.new) (forgetting table.old port) }
{
    if is_unfit(table) {
        return Err(Refusal::Table);
    }
    let Some(place) = place_of(table, port) else {
        return Err(Refusal::Unheld);
    };
    table[place].held = false;
    Ok(())
}
