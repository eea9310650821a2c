// The report call of a session: its refusals in their order, the report's body and the frame around it, and the record behind it.
#![tactic(auto)]

ghost use Rattle.std.specs.Prelude.{◌≡◌, true, ◌+◌, ◌≤◌, ◌<◌, length};
ghost use Rattle.calendar.specs.Time.{limit};
ghost use Rattle.message.specs.Message.{row};
ghost use Rattle.message.specs.Wrote.{Wrote};
ghost use Rattle.report.specs.Layout.{values_given};
ghost use Rattle.moves.specs.Words.{first};
ghost use Rattle.moves.specs.Held.{session_of, with};
ghost use Rattle.moves.specs.Session.{sent_at, numbering, in_range};
ghost use Rattle.moves.specs.code.Plan.{Ready};
ghost use Rattle.session.specs.Answer.{Done};
ghost use Rattle.session.specs.Held.{Leaves, LeavesStore};
ghost use Rattle.session.specs.code.Played.{shut};
ghost use Rattle.places.specs.Places.{is_store, put_at};
ghost use Rattle.store.specs.Store.{takes, kept};
ghost use Rattle.reporting.specs.Call.{unless, report, kept_unless, store_after};
ghost use Rattle.reporting.specs.code.Sending.{of_session, of_values, head_of, PutBody, answered_as};

use calendar::utc;
use kept::CompIds;
use message::{frame_length, put_field, put_frame};
use moves::{Record, Status};
use places::{is_store, put_place};
use report::{Given, put_own};
use session::{Answered, LIMIT, Refusal, Success, is_spent, refused};
use store::Reports;

// 35, 49, 56, 34 and 52, at the front of a body.
fn put_head(body: &mut [u8], ours: &[u8], peers: &[u8], n: u64, stamp: &[u8]) -> usize
    requires { (length ours.now ≤ 11) × (length peers.now ≤ 11) × (n < 1_000_000_000) × (length stamp.now ≤ 24) × (length body.old ≡ 768) }
    ensures bytes { Wrote body.old body.new 0 result (row (head_of ours.now peers.now n stamp.now)) }
    ensures room { result ≤ 92 }
{
    let a = put_field(body, 0, 35, &b"AE"[..]);
    let b = put_field(body, a, 49, ours);
    let c = put_field(body, b, 56, peers);
    let d = put_field(body, c, 34, n);
    put_field(body, d, 52, stamp)
}

// The body of a report between the CompIDs of a record, with its next number out; none where a value is unfit.
fn put_body(body: &mut [u8], r: Record, given: Given<'_>, time: u64) -> Option<usize>
    requires { Ready r × (time < limit) × (length body.old ≡ 768) }
    ensures { PutBody (session_of r) (values_given given.entry.words.now given.entry.text.now) time body.old body.new result }
{
    let us = &r.ours[..r.oursLen];
    let them = &r.peer[..r.peerLen];
    let stamp = utc(time);
    let a = put_head(body, us, them, r.next, &stamp);
    put_own(body, a, given)
}

// The record behind a report: it used the next number, and was sent at this time.
fn reported(r: Record, len: usize, time: u64) -> Answered
    requires { Ready r }
    ensures { result ≡ record { answer = Done; after = with r (sent_at time (numbering (r.next + 1) (session_of r))); len = len } }
{
    Answered {
        answer: Ok(Success::Done),
        after: Record {
            next: r.next + 1,
            sent: time,
            ..r
        },
        len,
    }
}

// 8, 12, 9, or the report at the front of the buffer and in the store: its length.
fn send(
    r: Record,
    given: Given<'_>,
    time: u64,
    buf: &mut [u8],
    store: &mut [u8],
) -> Result<usize, Refusal>
    requires { Ready r × (in_range (session_of r) ≡ true) × (is_store store.old ≡ true) × (time < limit) }
    ensures sent { Leaves r (unless (session_of r) (values_given given.entry.words.now given.entry.text.now) time (first (of_values (session_of r) (values_given given.entry.words.now given.entry.text.now) time (length buf.old))) buf.old) (answered_as r time result) buf.new }
    ensures kept { store.new ≡ kept_unless (session_of r) (values_given given.entry.words.now given.entry.text.now) time (first (of_values (session_of r) (values_given given.entry.words.now given.entry.text.now) time (length buf.old))) store.old }
{
    let mut body = [0u8; 768];
    let Some(k) = put_body(&mut body, r, given, time) else {
        return Err(Refusal::BadValue);
    };
    let n = frame_length(k);
    if 512 < n {
        return Err(Refusal::ReportTooLong);
    }
    if buf.len() < n {
        return Err(Refusal::NoRoom);
    }
    let len = put_frame(buf, 0, &body[..k]);
    keep_report(r, store, &buf[..len]);
    Ok(len)
}

// A report that went out is kept: in the first empty place, else in the lowest number's.
fn keep_report(r: Record, store: &mut [u8], m: &[u8])
    requires { Ready r × (in_range (session_of r) ≡ true) × (is_store store.old ≡ true) × (length m.now ≤ 512) }
    ensures { store.new ≡ put_at (takes (kept (session_of r).ours (session_of r).peers store.old)) m.now store.old }
{
    let ids = CompIds {
        us: &r.ours[..r.oursLen],
        them: &r.peer[..r.peerLen],
    };
    let i = Reports { store, ids }.free_place();
    put_place(store, i, m)
}

// 11, 13, 14, 7, 2 outside Active and 5, which closes: what stands before what is asked of the values.
#[tactic(auto, using(session::proofs::Gating::ladder), unfolding(crate::specs::code::Sending::of_session))]
fn report_gate(r: Record, stored: bool, time: u64) -> Result<(), Refusal>
    ensures { shut result ≡ first (of_session (session_of r) stored time) }
{
    Refusal::BadRecord.when(!r.in_range())?;
    Refusal::Replaying.when(r.replay.at != 0)?;
    Refusal::BadStore.when(!stored)?;
    Refusal::TimePast.when(LIMIT <= time)?;
    Refusal::SessionClosed.when(r.status != Status::Active)?;
    Refusal::NumbersSpent.when(is_spent(r))
}

// A report of the host's: one Trade Capture Report with the next number out, at the front of the buffer, and kept in the store.
pub fn report(r: Record, given: Given<'_>, time: u64, buf: &mut [u8], store: &mut [u8]) -> Answered
    ensures { LeavesStore r (report (session_of r) (values_given given.entry.words.now given.entry.text.now) time buf.old store.old) (store_after (session_of r) (values_given given.entry.words.now given.entry.text.now) time buf.old store.old) result buf.new store.new }
{
    if let Err(k) = report_gate(r, is_store(store), time) {
        return refused(r, k);
    }
    match send(r, given, time, buf, store) {
        Err(k) => refused(r, k),
        Ok(len) => reported(r, len, time),
    }
}
