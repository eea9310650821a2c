// The record of a session, its ranges and its changes.
ghost use Rattle.std.specs.Prelude.{◌≡◌};
ghost use Rattle.moves.specs.Session.{no_replay, turned, placed, in_range};
ghost use Rattle.message.specs.Unfit.{string_to, comp_id};
ghost use Rattle.moves.specs.Held.{session_of, held, held_replay, with};

use gap::{Gap, is_numbered};
use octets::has;

// Waiting for a logon, active, or closed.
#[derive(Clone, Copy, PartialEq, Eq, Debug)]
pub enum Status {
    Waiting,
    Active,
    Closed,
}

// The place of a replay: its next number and the last one asked for; 0 and 0 if none is running.
// Two numbers and no Option: a record's place is what the host's words say, read unchecked, and `is_placed` judges both (refusal 11).
#[derive(Clone, Copy, PartialEq, Eq, Debug)]
pub struct Replay {
    pub at: u64,
    pub to: u64,
}

impl Replay {
    pub fn none() -> Replay
        ensures { result ≡ held_replay no_replay }
    {
        Replay { at: 0, to: 0 }
    }
}

// The record of a session. Each CompID is the first bytes of an array, as many as its length says.
// A number for a length and no slice: the host's words say it, unchecked, and one over 11 is refused (refusal 11).
// What the moves need of a record (`Ready` in specs/code/Plan.antt) is required where it is used and not held by a type of its own: a tick, a refusal, a
// report and half of the plans take a record as the host gave it, so that most bodies would only unpack it, and their contracts say no less.
#[derive(Clone, Copy, PartialEq, Eq, Debug)]
pub struct Record {
    pub ours: [u8; 11],
    pub oursLen: usize,
    pub peer: [u8; 11],
    pub peerLen: usize,
    pub status: Status,
    // The number that the peer's next message should have.
    pub expected: u64,
    // The number that our next message will have.
    pub next: u64,
    // The heartbeat's seconds.
    pub heartbeat: u64,
    // When the last message was sent, in microseconds since 1970.
    pub sent: u64,
    pub replay: Replay,
    // What is missing between the expected number and the highest that was seen.
    pub gap: Gap,
}

impl Record {
    // Whether a record keeps its ranges: the CompIDs, the numbers 1 to 999,999,999, the heartbeat 1 to 60, the place of a replay, the gap.
    #[tactic(auto, unfolding(crate::specs::Session::in_range))]
    pub fn in_range(self) -> bool
        ensures { result ≡ in_range (session_of self) }
    {
        holds_comp_id(self.ours, self.oursLen)
            && holds_comp_id(self.peer, self.peerLen)
            && is_numbered(self.expected)
            && is_numbered(self.next)
            && matches!(self.heartbeat, 1..=60)
            && self.is_placed()
            && self.gap.is_bounded()
    }

    // Whether the place of a replay is within 1 to one below the next number out while Active, or there is none.
    fn is_placed(self) -> bool
        ensures { result ≡ placed (session_of self) (session_of self).replay }
    {
        if self.replay.at == 0 {
            return self.replay.to == 0;
        }
        self.status == Status::Active
            && self.replay.at <= self.replay.to
            && self.replay.to < self.next
    }

    // Another status; an unfinished replay is dropped, a gap stays.
    pub fn turned(self, status: Status) -> Record
        ensures { result ≡ with self (turned status (session_of self)) }
    {
        Record {
            status,
            replay: Replay::none(),
            ..self
        }
    }
}

// Whether bytes are a string: 1 to so many, none of them `|`.
pub fn is_string(s: &[u8], most: usize) -> bool
    ensures { result ≡ string_to most s.now }
{
    1 <= s.len() && s.len() <= most && !has(s, 1)
}

#[tactic(auto, unfolding(message::specs::Unfit::comp_id))]
pub fn is_comp_id(c: &[u8]) -> bool
    ensures { result ≡ comp_id c.now }
{
    is_string(c, 11)
}

// Whether the first n of eleven bytes are a CompID.
#[tactic(auto, unfolding(message::specs::Unfit::comp_id))]
fn holds_comp_id(c: [u8; 11], n: usize) -> bool
    ensures { result ≡ comp_id (held n c) }
{
    n <= 11 && is_comp_id(&c[..n])
}
