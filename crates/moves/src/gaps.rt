// What a frame above the expected number, a reset and every step make of a gap.
ghost use Rattle.std.specs.Prelude.{◌≡◌};
ghost use Rattle.moves.specs.Held.{session_of};
ghost use Rattle.moves.specs.code.Plan.{missed_by, misses, resets, settled_plan};

use crate::plan::{Letter, Plan, staying};
use crate::record::Record;
use gap::Gap;

// A frame above the expected number, by whether it asks: a Resend Request or nothing, and the gap behind it.
pub fn asks_or_not(r: Record, n: u64, time: u64) -> Plan
    ensures { result ≡ missed_by (session_of r) n time }
{
    if !r.gap.asks(r.expected, time) {
        return missing(r, None, r.gap.seen(n));
    }
    let ask = Letter::Ask { from: r.expected };
    missing(r, Some(ask), r.gap.asked_for(r.expected, n, time))
}

// A frame above the expected number: a message or none, and the gap behind it.
pub fn missing(r: Record, first: Option<Letter>, gap: Gap) -> Plan
    ensures { result ≡ misses (session_of r) first gap }
{
    Plan {
        first,
        gap,
        ..staying(r)
    }
}

// A Sequence Reset that is taken: E becomes e, and no gap is open.
pub fn resetting(r: Record, e: u64) -> Plan
    ensures { result ≡ resets (session_of r) e }
{
    Plan {
        expected: e,
        gap: Gap::none(),
        ..staying(r)
    }
}

impl Plan {
    // A plan as a step makes it: a gap that E is past is closed.
    pub fn settled(self) -> Plan
        ensures { result ≡ settled_plan self }
    {
        Plan {
            gap: self.gap.unless_past(self.expected),
            ..self
        }
    }
}
