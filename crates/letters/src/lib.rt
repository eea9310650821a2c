// The messages of a plan, put into the buffer one behind the other.
#![tactic(auto)]

mod repeats;

ghost use Rattle.std.specs.Prelude.{◌≡◌, [], ◌∷◌, ◌++◌, ◌+◌, ◌≤◌, ◌<◌, length, take, Some};
ghost use Rattle.frame.specs.Stream.{joined};
ghost use Rattle.calendar.specs.Time.{utc, limit};
ghost use Rattle.replies.specs.Replied.{reply_room};
ghost use Rattle.message.specs.Wrote.{Wrote};
ghost use Rattle.message.specs.Message.{absent};
ghost use Rattle.moves.specs.Moves.{Heartbeat};
ghost use Rattle.letters.specs.code.Put.{bytes_of, AllPut, Sending};
ghost use Rattle.moves.specs.code.Plan.{letters_of, behind, Ready};

use calendar::utc;
use moves::{Letter, Record, next_after};
use repeats::{number_of, reply_of};
use replies::{Heading, Reply, put_reply};

// The message or none, as the heading's number if it uses one.
fn put(letter: Option<Letter>, buf: &mut [u8], at: usize, h: &Heading<'_>, body: &[u8]) -> usize
    requires sending { Sending h.now.ours.now h.now.peers.now h.now.number at h.now.time.now buf.old }
    requires all_put { AllPut (letters_of body.now h.now.number letter) }
    ensures bytes { Wrote buf.old buf.new at result (joined (bytes_of h.now.ours.now h.now.peers.now h.now.time.now (letters_of body.now h.now.number letter))) }
    ensures room { result ≤ at + reply_room }
{
    let Some(l) = letter else {
        return at;
    };
    let number = number_of(l, h.number);
    put_reply(buf, at, &Heading { number, ..*h }, reply_of(l, body)).unwrap()
}

// From and to the CompIDs of a record, as its next number, at a time in words.
fn heading<'a>(r: &'a Record, time: &'a [u8]) -> Heading<'a>
    requires { Ready r.now }
    ensures ours { result.ours.now ≡ take r.now.oursLen r.now.ours }
    ensures peers { result.peers.now ≡ take r.now.peerLen r.now.peer }
    ensures number { result.number ≡ r.now.next }
    ensures time { result.time.now ≡ time.now }
{
    Heading {
        ours: &r.ours[..r.oursLen],
        peers: &r.peer[..r.peerLen],
        number: r.next,
        time,
    }
}

// Two messages at a time, one behind the other, between the CompIDs of a record and from its next number out on.
pub fn stamped(
    r: Record,
    first: Option<Letter>,
    second: Option<Letter>,
    body: &[u8],
    time: u64,
    buf: &mut [u8],
) -> usize
    requires ready { Ready r }
    requires in_bounds { (512 ≤ length buf.old) × (time < limit) × AllPut (letters_of body.now r.next first ++ letters_of body.now (behind r.next first) second) }
    ensures bytes { Wrote buf.old buf.new 0 result (joined (bytes_of (take r.oursLen r.ours) (take r.peerLen r.peer) (utc time) (letters_of body.now r.next first ++ letters_of body.now (behind r.next first) second))) }
    ensures room { result ≤ 512 }
{
    let stamp = utc(time);
    let h = heading(&r, &stamp);
    let a = put(first, buf, 0, &h, body);
    let number = next_after(first, r.next);
    put(second, buf, a, &Heading { number, ..h }, body)
}

// The Heartbeat of a tick, at a time and from a record as above.
pub fn beat(r: Record, time: u64, buf: &mut [u8]) -> usize
    requires { Ready r × (512 ≤ length buf.old) × (time < limit) }
    ensures bytes { Wrote buf.old buf.new 0 result (joined (bytes_of (take r.oursLen r.ours) (take r.peerLen r.peer) (utc time) ((r.next, Heartbeat absent) ∷ []))) }
    ensures room { result ≤ 512 }
{
    let stamp = utc(time);
    let h = heading(&r, &stamp);
    put_reply(buf, 0, &h, Reply::Heartbeat { id: None }).unwrap()
}
