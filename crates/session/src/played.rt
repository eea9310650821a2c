// A plan, played: its messages put into the buffer, the record changed, the answer given.
ghost use Rattle.std.specs.Prelude.{◌≡◌, cond, [], ◌∷◌, ◌≤◌, ◌<◌, length};
ghost use Rattle.calendar.specs.Time.{limit};
ghost use Rattle.message.specs.Message.{absent};
ghost use Rattle.moves.specs.Moves.{Heartbeat, Write};
ghost use Rattle.gap.specs.Held.{gap_of};
ghost use Rattle.moves.specs.Held.{session_of, replay_of, with};
ghost use Rattle.moves.specs.code.Plan.{changed, planned, Ready};
ghost use Rattle.letters.specs.code.Put.{AllPut};
ghost use Rattle.session.specs.Answer.{Delivered, Done};
ghost use Rattle.session.specs.Calls.{making};
ghost use Rattle.session.specs.Held.{Leaves};
ghost use Rattle.session.specs.code.Played.{outcome_of, Spoken};

use crate::{Answer, Answered, Success};
use letters::{beat, stamped};
use moves::{Plan, Record, next_after};

pub fn unchanged(r: Record, answer: Answer) -> Answered
    ensures { result ≡ record { answer = answer; after = r; len = 0 } }
{
    Answered {
        answer,
        after: r,
        len: 0,
    }
}

fn answer_of(delivered: bool) -> Answer
    ensures { result ≡ cond delivered Delivered Done }
{
    if delivered {
        return Ok(Success::Delivered);
    }
    Ok(Success::Done)
}

// The record as a plan leaves it.
fn left(r: Record, p: Plan, next: u64, sent: u64) -> Record
    ensures { result ≡ with r (changed (session_of r) p.status p.expected next p.heartbeat sent (replay_of p.replay) (gap_of p.gap)) }
{
    Record {
        status: p.status,
        expected: p.expected,
        next,
        heartbeat: p.heartbeat,
        sent,
        replay: p.replay,
        gap: p.gap,
        ..r
    }
}

// A plan with a message, carried out: what it says is put, and the record changed.
pub fn say(r: Record, p: Plan, body: &[u8], time: u64, buf: &mut [u8]) -> Answered
    requires ready { Ready r }
    requires in_bounds { (512 ≤ length buf.old) × (time < limit) × AllPut (planned body.now (session_of r) p).letters × Spoken (planned body.now (session_of r) p).letters }
    ensures { Leaves r (outcome_of time (session_of r) (planned body.now (session_of r) p) buf.old) result buf.new }
{
    let next = next_after(p.second, next_after(p.first, r.next));
    let len = stamped(r, p.first, p.second, body, time, buf);
    Answered {
        answer: answer_of(p.delivered),
        after: left(r, p, next, time),
        len,
    }
}

// Any plan, carried out. One that writes nothing needs no time in words.
pub fn play(r: Record, p: Plan, body: &[u8], time: u64, buf: &mut [u8]) -> Answered
    requires ready { Ready r }
    requires in_bounds { (512 ≤ length buf.old) × (time < limit) × AllPut (planned body.now (session_of r) p).letters }
    ensures { Leaves r (outcome_of time (session_of r) (planned body.now (session_of r) p) buf.old) result buf.new }
{
    if p.is_quiet() {
        return unchanged(left(r, p, r.next, r.sent), answer_of(p.delivered));
    }
    say(r, p, body, time, buf)
}

// The Heartbeat of a tick: it is put, and has our next number.
pub fn beating(r: Record, time: u64, buf: &mut [u8]) -> Answered
    requires { Ready r × (512 ≤ length buf.old) × (time < limit) }
    ensures { Leaves r (making time (session_of r) (Write (Heartbeat absent) ∷ []) buf.old) result buf.new }
{
    let len = beat(r, time, buf);
    Answered {
        answer: Ok(Success::Done),
        after: Record {
            next: r.next + 1,
            sent: time,
            ..r
        },
        len,
    }
}
