//! What is counted of answers, for the last line.
ghost use Rattle.std.specs.Prelude.{◌≡◌};
ghost use Rattle.listing_spec.specs.Lines.{total_of};
ghost use Rattle.listing_lines.specs.Counts.{no_totals, counting};

use channel_spec::{Answer, Condition};
use listing_spec::Total;
use packet::Judged;

/// Totals; none passes 2^64 - 1.
#[derive(Clone, Copy)]
pub struct Totals {
    pub packets: u64,
    pub refused: u64,
    pub damaged: u64,
    pub lost: u64,
}

// The total that an answer counts in.
fn total_of(answer: Answer) -> Total
    ensures { result ≡ total_of answer }
{
    match answer {
        Answer::Said(Judged::Packet(_)) => Total::Packets,
        Answer::Said(Judged::Refused(_) | Judged::Broken(_)) => Total::Refusals,
        Answer::Block(Condition::Beyond) => Total::Damaged,
        Answer::LockLost => Total::Lost,
        Answer::More | Answer::Block(Condition::Clean | Condition::Repaired(_)) => Total::Nothing,
    }
}

impl Totals {
    /// Nothing counted yet.
    pub fn none() -> Self
        ensures { result ≡ no_totals }
    {
        Totals {
            packets: 0,
            refused: 0,
            damaged: 0,
            lost: 0,
        }
    }

    /// An answer is counted in its total, if it has one; the greatest number stays.
    pub fn count(self, answer: Answer) -> Self
        ensures { result ≡ counting self answer }
    {
        match total_of(answer) {
            Total::Packets => Totals {
                packets: self.packets.saturating_add(1),
                ..self
            },
            Total::Refusals => Totals {
                refused: self.refused.saturating_add(1),
                ..self
            },
            Total::Damaged => Totals {
                damaged: self.damaged.saturating_add(1),
                ..self
            },
            Total::Lost => Totals {
                lost: self.lost.saturating_add(1),
                ..self
            },
            Total::Nothing => self,
        }
    }
}
