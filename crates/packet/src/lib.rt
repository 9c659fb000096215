//! Packets: one closed frame judged, one packet written, and the classes of ports.
#![tactic(auto)]

mod escape;
mod frame;
mod port;
mod search;
mod sender;

pub use escape::wrong_behind;
pub use frame::{Packet, judge, pair, payload_at};
pub use packet_spec::{Class, Delivery, Judged};
pub use port::class_of;
pub use search::up_to;
pub use sender::{write, write_as};
