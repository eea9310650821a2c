// A number below E, and the two times of a duplicate.
ghost use Rattle.std.specs.Prelude.{◌≡◌, Some, None};
ghost use Rattle.moves.specs.Moves.{too_low};
ghost use Rattle.moves.specs.Held.{session_of};
ghost use Rattle.moves.specs.code.Plan.{planned, summed, says};

use calendar::is_later;
use moves::{Letter, NoTime, Plan, Record, closing, holds, saying, staying, time_in};

// A Reject of a duplicate; E stays.
fn rejecting(r: Record, reason: u64, tag: u64) -> Plan
    ensures { result ≡ says (session_of r) (Some (Letter.Reject reason tag)) None }
{
    saying(r, Some(Letter::Reject { reason, tag }), None)
}

// Rule 5: N < E. With 43=Y it is a duplicate: it says when it was sent first (122), which is not later than when it was sent again (52). E stays. (One
// test after the other: in one match over both times the arms that share a pattern leave goals by branch.)
pub fn rule_5(r: Record, body: &[u8]) -> Plan
    ensures { planned body.now (session_of r) result ≡ summed (session_of r) (too_low (session_of r) body.now) }
{
    if !holds(body, 43, b"Y") {
        return closing(r, Some(Letter::Logout { why: 101 }), None, r.expected);
    }
    let original = time_in(body, 122);
    if original == Err(NoTime::Missing) {
        return rejecting(r, 1, 122);
    }
    let again = match time_in(body, 52) {
        Ok(again) => again,
        Err(NoTime::Missing) => return rejecting(r, 1, 52),
        Err(NoTime::Bad) => return rejecting(r, 6, 52),
    };
    let Ok(first) = original else {
        return rejecting(r, 6, 122);
    };
    if is_later(first, again) {
        return rejecting(r, 10, 122);
    }
    staying(r)
}
