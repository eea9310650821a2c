// The session: what it does with a frame, at a tick, for a message of the venue's own, when it is new and when it reconnects.
#![tactic(auto)]

mod begin;
mod gates;
mod played;

ghost use Rattle.std.specs.Prelude.{◌≡◌, [], true, false, ◌≤◌, ◌<◌, length};
ghost use Rattle.std.proofs.Math.Option.{none};
ghost use Rattle.calendar.specs.Time.{limit};
ghost use Rattle.moves.specs.Words.{first, ◌when◌};
ghost use Rattle.session.specs.Answer.{Refused};
ghost use Rattle.session.specs.Refusals.{No};
ghost use Rattle.session.specs.code.Played.{Shuts};
ghost use Rattle.moves.specs.Session.{◌equals◌, in_range};
ghost use Rattle.session.specs.Calls.{refusing, turned_away, moves_on, step, store_by, store_after, tick, logout, test_request, new, reconnect};
ghost use Rattle.moves.specs.Held.{session_of};
ghost use Rattle.session.specs.Held.{Leaves, LeavesStore, answered_by, answered_new};
ghost use Rattle.moves.specs.code.Plan.{Ready};

use begin::begun;
use frame::body_of;
pub use gates::{LEAST_ROOM, LIMIT, is_spent};
use gates::{logon_gate, own_gate, step_gate, test_gate, tick_gate};
use moves::{Letter, Record, Status, closing, holds, is_comp_id, saying};
use places::{is_store, zero_store};
pub use played::unchanged;
use played::{beating, play, say};
use rulebook::{active, waiting};

// Why a call changed nothing, or closed the session, by the document's numbers.
#[derive(Clone, Copy, PartialEq, Eq, Debug)]
pub enum Refusal {
    SessionClosed = 2,
    NotLogon = 3,
    BadLogon = 4,
    NumbersSpent = 5,
    BufferShort = 6,
    TimePast = 7,
    BadValue = 8,
    NoRoom = 9,
    NotOneFrame = 10,
    BadRecord = 11,
    ReportTooLong = 12,
    Replaying = 13,
    BadStore = 14,
}

impl Refusal {
    // The refusal, where its test holds: a list of the document's is a chain of these.
    pub fn when(self, test: bool) -> Result<(), Refusal>
        ensures { Shuts result (Refused self when test) }
    {
        if test {
            return Err(self);
        }
        Ok(())
    }
}

// The document's number of a refusal.
impl From<Refusal> for u32 {
    ghost from_gives = { λ k n. n ≡ No k };

    fn from(k: Refusal) -> u32 {
        k as u32
    }
}

// What a call that is not refused did.
#[derive(Clone, Copy, PartialEq, Eq, Debug)]
pub enum Success {
    Done,
    // The frame is to be given to the application.
    Delivered,
    // Nothing is due: no Heartbeat, no message of a replay.
    NothingDue,
}

pub type Answer = Result<Success, Refusal>;

// What a call leaves: its answer, the record, and how many bytes of the buffer are the reply. No Result of its own: a refusal leaves a record too.
#[derive(Clone, Copy)]
pub struct Answered {
    pub answer: Answer,
    pub after: Record,
    pub len: usize,
}

// A refusal: the session is Closed under 3, 4 and 5, and unchanged under the others.
pub fn refused(r: Record, k: Refusal) -> Answered
    ensures { result ≡ answered_by r (refusing k (session_of r) []) }
{
    if matches!(
        k,
        Refusal::NotLogon | Refusal::BadLogon | Refusal::NumbersSpent
    ) {
        return unchanged(r.turned(Status::Closed), Err(k));
    }
    unchanged(r, Err(k))
}

// A logon that was not refused; if it is accepted with 141=Y the store is zeroed.
fn logging_on(r: Record, body: &[u8], time: u64, buf: &mut [u8], store: &mut [u8]) -> Answered
    requires ready { Ready r × (in_range (session_of r) ≡ true) × (r.status ≡ Status.Waiting) × (first (turned_away (session_of r) body.now) ≡ none) }
    requires in_bounds { (600 ≤ length buf.old) × (time < limit) }
    ensures moved { Leaves r (moves_on (session_of r) body.now time buf.old) result buf.new }
    ensures stored { store.new ≡ store_by (session_of r) body.now (moves_on (session_of r) body.now time buf.old) store.old }
{
    let p = waiting(r, body, time).settled();
    let left = say(r, p, body, time, buf);
    if left.after.status != Status::Active {
        return left;
    }
    if !holds(body, 141, b"Y") {
        return left;
    }
    zero_store(store);
    left
}

// A step that no refusal before the moves stopped.
fn moving(r: Record, body: &[u8], time: u64, buf: &mut [u8], store: &mut [u8]) -> Answered
    requires ready { Ready r × (in_range (session_of r) ≡ true) × ((r.status equals Status.Closed) ≡ false) }
    requires in_bounds { (600 ≤ length buf.old) × (time < limit) }
    ensures moved { Leaves r (moves_on (session_of r) body.now time buf.old) result buf.new }
    ensures stored { store.new ≡ store_by (session_of r) body.now (moves_on (session_of r) body.now time buf.old) store.old }
{
    match r.status {
        Status::Waiting => match logon_gate(r, body) {
            Err(k) => refused(r, k),
            Ok(()) => logging_on(r, body, time, buf, store),
        },
        Status::Active => {
            let p = active(r, body, time).settled();
            play(r, p, body, time, buf)
        }
        // It was refused before.
        Status::Closed => unchanged(r, Ok(Success::Done)),
    }
}

// A step: what the session does with a frame at a time. The reply stands at the front of the buffer; the store is zeroed by a logon with 141=Y.
pub fn step(r: Record, frame: &[u8], time: u64, buf: &mut [u8], store: &mut [u8]) -> Answered
    ensures { LeavesStore r (step (session_of r) frame.now time buf.old store.old) (store_after (session_of r) frame.now time buf.old store.old) result buf.new store.new }
{
    let body = body_of(frame);
    match step_gate(r, is_store(store), body.is_some(), time, buf.len()) {
        Err(k) => refused(r, k),
        Ok(()) => moving(r, body.unwrap(), time, buf, store),
    }
}

// A reconnect sets Waiting and keeps the numbers.
pub fn reconnect(r: Record) -> Answered
    ensures { result ≡ answered_by r (reconnect (session_of r)) }
{
    if !r.in_range() {
        return refused(r, Refusal::BadRecord);
    }
    unchanged(r.turned(Status::Waiting), Ok(Success::Done))
}

// A tick: a Heartbeat if one is due.
pub fn tick(r: Record, time: u64, buf: &mut [u8]) -> Answered
    ensures { Leaves r (tick (session_of r) time buf.old) result buf.new }
{
    match tick_gate(r, time, buf.len()) {
        Err(k) => refused(r, k),
        Ok(false) => unchanged(r, Ok(Success::NothingDue)),
        Ok(true) => beating(r, time, buf),
    }
}

// The venue logs the member out: our Logout, and the session is Closed.
pub fn logout(r: Record, time: u64, buf: &mut [u8]) -> Answered
    ensures { Leaves r (logout (session_of r) time buf.old) result buf.new }
{
    match own_gate(r, time, buf.len()) {
        Err(k) => refused(r, k),
        Ok(()) => {
            let p = closing(r, Some(Letter::Logout { why: 101 }), None, r.expected);
            say(r, p, b"", time, buf)
        }
    }
}

// The venue asks whether the peer is there: a Test Request with this 112.
pub fn test_request(r: Record, id: &[u8], time: u64, buf: &mut [u8]) -> Answered
    ensures { Leaves r (test_request (session_of r) id.now time buf.old) result buf.new }
{
    match test_gate(r, id, time, buf.len()) {
        Err(k) => refused(r, k),
        Ok(()) => {
            let p = saying(r, Some(Letter::Test), None);
            say(r, p, id, time, buf)
        }
    }
}

// A new session between two CompIDs.
pub fn new(ours: &[u8], peer: &[u8]) -> Answered
    ensures { result ≡ answered_new (new ours.now peer.now) }
{
    if is_comp_id(ours) && is_comp_id(peer) {
        return unchanged(begun(ours, peer, Status::Waiting), Ok(Success::Done));
    }
    unchanged(begun(b"", b"", Status::Closed), Err(Refusal::BadRecord))
}
