// The replay call of a session: a kept report again, or a gap fill over the numbers up to the next one; and the place moves on.
#![tactic(auto)]

ghost use Rattle.std.specs.Prelude.{◌≡◌, true, ◌≤◌, ◌<◌, length};
ghost use Rattle.calendar.specs.Time.{limit};
ghost use Rattle.places.specs.Places.{is_store};
ghost use Rattle.store.specs.Plan.{Fill};
ghost use Rattle.moves.specs.Session.{running, replaying, sent_at, in_range};
ghost use Rattle.moves.specs.Held.{session_of, with};
ghost use Rattle.session.specs.Held.{Leaves};
ghost use Rattle.session.specs.Answer.{Done};
ghost use Rattle.session.specs.code.Played.{stilled};
ghost use Rattle.moves.specs.Words.{first};
ghost use Rattle.replaying.specs.Call.{its_item, behind, playing, refusals, replay};

use calendar::utc;
use kept::CompIds;
use moves::{Record, Replay};
use places::is_store;
use possdup::put_again;
use replies::{Heading, Reply, put_reply};
use session::{Answered, LEAST_ROOM, LIMIT, Refusal, Success, refused, unchanged};
use store::Reports;

// A message of so many bytes went out that covers the numbers up to e: the place behind it.
fn moved_on(r: Record, e: u64, len: usize, time: u64) -> Answered
    requires { e < 1_000_000_000 }
    ensures { result ≡ record { answer = Done; after = with r (replaying (behind (session_of r) (Fill r.replay.at e)) (sent_at time (session_of r))); len = len } }
{
    let replay = if e < r.replay.to {
        Replay {
            at: e + 1,
            ..r.replay
        }
    } else {
        Replay::none()
    };
    Answered {
        answer: Ok(Success::Done),
        after: Record {
            sent: time,
            replay,
            ..r
        },
        len,
    }
}

// The next message of a replay that is running.
fn play_next(r: Record, time: u64, buf: &mut [u8], store: &[u8]) -> Answered
    requires { (in_range (session_of r) ≡ true) × (running (session_of r).replay ≡ true) × (is_store store.now ≡ true) × (time < limit) × (600 ≤ length buf.old) }
    ensures { Leaves r (playing (session_of r) time (its_item (session_of r) store.now) buf.old) result buf.new }
{
    let ids = CompIds {
        us: &r.ours[..r.oursLen],
        them: &r.peer[..r.peerLen],
    };
    let reports = Reports { store, ids };
    let at = r.replay.at;
    let numbers = reports.peeked();
    if let Some(i) = reports.place_of(&numbers, at) {
        let len = put_again(buf, reports.place(i), &ids, at, time);
        return moved_on(r, at, len, time);
    }
    let e = reports.run_to(&numbers, at, r.replay.to);
    let stamp = utc(time);
    let head = Heading {
        ours: ids.us,
        peers: ids.them,
        number: at,
        time: &stamp,
    };
    let len = put_reply(buf, 0, &head, Reply::GapFill { next: e + 1 }).unwrap();
    moved_on(r, e, len, time)
}

// 11, 14, 7, 6; and whether one is running.
#[tactic(auto, using(session::proofs::Gating::ladder), unfolding(crate::specs::Call::refusals))]
fn replay_gate(r: Record, stored: bool, time: u64, room: usize) -> Result<bool, Refusal>
    ensures { stilled result ≡ first (refusals (session_of r) time stored room) }
{
    Refusal::BadRecord.when(!r.in_range())?;
    Refusal::BadStore.when(!stored)?;
    Refusal::TimePast.when(LIMIT <= time)?;
    Refusal::BufferShort.when(room < LEAST_ROOM)?;
    Ok(r.replay.at != 0)
}

// A replay call: the next message of the replay stands at the front of the buffer, if one is running.
pub fn replay(r: Record, time: u64, buf: &mut [u8], store: &[u8]) -> Answered
    ensures { Leaves r (replay (session_of r) time buf.old store.now) result buf.new }
{
    match replay_gate(r, is_store(store), time, buf.len()) {
        Err(k) => refused(r, k),
        Ok(false) => unchanged(r, Ok(Success::NothingDue)),
        Ok(true) => play_next(r, time, buf, store),
    }
}
