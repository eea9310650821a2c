// "Serving 7=b, 16=e, with L one below the next out": why a Resend Request is not served, or the replay that serves it.
ghost use Rattle.std.specs.Prelude.{◌≡◌};
ghost use Rattle.dictionary.specs.Verdict.{msg_type};
ghost use Rattle.moves.specs.Words.{◌otherwise◌};
ghost use Rattle.moves.specs.Moves.{counted, unserved, served};
ghost use Rattle.moves.specs.Held.{session_of};
ghost use Rattle.moves.specs.code.Plan.{planned, summed, served_by, served_early, Ready};
ghost use Rattle.moves.specs.code.Reads.{told};

use dictionary::verdict_on;
use moves::{Letter, Plan, Record, Replay, counting, number, serving};
use table::MsgType;

// The replay that serves a Resend Request, or the tag for which it is not served.
fn served_by(r: Record, body: &[u8]) -> Result<Replay, u64>
    requires { Ready r }
    ensures { result ≡ served_by (session_of r) body.now }
{
    let last = r.next - 1;
    let begin = number(body, 7);
    if last < begin {
        return Err(7);
    }
    let end = number(body, 16);
    if end == 0 {
        return Ok(Replay {
            at: begin,
            to: last,
        });
    }
    if end < begin {
        return Err(16);
    }
    Ok(Replay {
        at: begin,
        to: end.min(last),
    })
}

// The replay that serves what came above E, if that is a Resend Request that can be served.
pub fn served_early(r: Record, kind: Option<MsgType>, body: &[u8]) -> Option<Replay>
    requires { Ready r × (kind ≡ told (msg_type body.now)) }
    ensures { result ≡ served_early (session_of r) body.now }
{
    if kind != Some(MsgType::ResendRequest) {
        return None;
    }
    if verdict_on(body).is_err() {
        return None;
    }
    served_by(r, body).ok()
}

// A Resend Request in turn: served, or rejected; E + 1.
pub fn serve(r: Record, body: &[u8]) -> Plan
    requires { Ready r }
    ensures { planned body.now (session_of r) result ≡ summed (session_of r) (counted (session_of r) body.now (unserved (session_of r) body.now otherwise served (session_of r) body.now)) }
{
    match served_by(r, body) {
        Ok(replay) => serving(r, None, r.expected + 1, replay, r.gap),
        Err(tag) => counting(r, Some(Letter::Reject { reason: 5, tag })),
    }
}
