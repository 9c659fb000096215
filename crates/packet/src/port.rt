//! Ports and their classes.
ghost use Rattle.std.specs.Prelude.{◌≡◌};
ghost use Rattle.packet_spec.specs.Port.{class, barred};

use packet_spec::Class;

/// The class of a port.
// Row after row, as the table has them: joined by class the rows would stand out of order.
pub fn class_of(port: u16) -> Class
    ensures { result ≡ class port }
{
    match port {
        0..=0x0400 => Class::System,
        0x0401..=0x50FF => Class::Applications,
        0x5100 => Class::M,
        0x5101..=0x5200 => Class::System,
        0x5201..=0x5207 => Class::D,
        0x5208..=0x52FF => Class::System,
        0x5300..=0x7CFF => Class::Future,
        0x7D00..=0x7EFF => Class::Barred,
        0x7F00..=0xFEFF => Class::Future,
        0xFF00..=0xFFFF => Class::System,
    }
}

// Whether a port may not be used.
pub fn barred(port: u16) -> bool
    ensures { result ≡ barred port }
{
    matches!(port, 0x7D00..=0x7EFF)
}
