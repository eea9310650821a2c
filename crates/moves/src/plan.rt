// A plan: what a move says and what becomes of the record; and what it leaves of the numbers.
ghost use Rattle.std.specs.Prelude.{◌≡◌, ◌&&◌, ◌+◌, ◌≤◌, is_none, None};
ghost use Rattle.moves.specs.Held.{session_of};
ghost use Rattle.moves.specs.code.Plan.{behind, says, counts, expects, closes, delivers, accepts, serves, Ready};

use crate::record::{Record, Replay, Status};
use gap::Gap;

// A message of ours, in numbers.
#[derive(Clone, Copy, PartialEq, Eq, Debug)]
pub enum Letter {
    // A Heartbeat with the 112 of a Test Request.
    Echo,
    // Our Logon; anew with 141=Y and as number 1.
    Logon { anew: bool },
    // A Resend Request.
    Ask { from: u64 },
    // A Reject of the message that came.
    Reject { reason: u64, tag: u64 },
    // A Reject of a type that no member may send: 11, tag 35, without 372.
    RejectType,
    Logout { why: u64 },
    // A Test Request; the bytes lent are its 112.
    Test,
}

// A move: at most two messages, one behind the other, and what becomes of the record.
#[derive(Clone, Copy, PartialEq, Eq, Debug)]
pub struct Plan {
    pub delivered: bool,
    pub first: Option<Letter>,
    pub second: Option<Letter>,
    pub status: Status,
    pub expected: u64,
    pub heartbeat: u64,
    pub replay: Replay,
    pub gap: Gap,
}

impl Plan {
    // Whether nothing is written.
    pub fn is_quiet(self) -> bool
        ensures { result ≡ (is_none self.first && is_none self.second) }
    {
        self.first.is_none() && self.second.is_none()
    }
}

// No message, and all as it was.
pub fn staying(r: Record) -> Plan
    ensures { result ≡ says (session_of r) None None }
{
    Plan {
        delivered: false,
        first: None,
        second: None,
        status: r.status,
        expected: r.expected,
        heartbeat: r.heartbeat,
        replay: r.replay,
        gap: r.gap,
    }
}

// Messages that change nothing but our numbers.
pub fn saying(r: Record, first: Option<Letter>, second: Option<Letter>) -> Plan
    ensures { result ≡ says (session_of r) first second }
{
    Plan {
        first,
        second,
        ..staying(r)
    }
}

// A message or none, and E + 1.
pub fn counting(r: Record, first: Option<Letter>) -> Plan
    requires { Ready r }
    ensures { result ≡ counts (session_of r) first }
{
    let count = r.expected + 1;
    Plan {
        expected: count,
        ..saying(r, first, None)
    }
}

// No message; E becomes e.
pub fn expecting(r: Record, e: u64) -> Plan
    ensures { result ≡ expects (session_of r) e }
{
    Plan {
        expected: e,
        ..staying(r)
    }
}

// Messages of which the last is our Logout, and the session is Closed; E becomes e.
pub fn closing(r: Record, first: Option<Letter>, second: Option<Letter>, e: u64) -> Plan
    ensures { result ≡ closes (session_of r) first second e }
{
    Plan {
        status: Status::Closed,
        expected: e,
        replay: Replay::none(),
        ..saying(r, first, second)
    }
}

// The frame is delivered; E + 1.
pub fn delivering(r: Record) -> Plan
    requires { Ready r }
    ensures { result ≡ delivers (session_of r) }
{
    Plan {
        delivered: true,
        expected: r.expected + 1,
        ..staying(r)
    }
}

// Our Logon, and perhaps a Resend Request behind it; the session is Active.
pub fn accepting(anew: bool, second: Option<Letter>, e: u64, seconds: u64, gap: Gap) -> Plan
    ensures { result ≡ accepts anew second e seconds gap }
{
    Plan {
        delivered: false,
        first: Some(Letter::Logon { anew }),
        second,
        status: Status::Active,
        expected: e,
        heartbeat: seconds,
        replay: Replay::none(),
        gap,
    }
}

// A replay starts; a message may go out with it, and E becomes e.
pub fn serving(r: Record, first: Option<Letter>, e: u64, replay: Replay, gap: Gap) -> Plan
    ensures { result ≡ serves (session_of r) first e replay gap }
{
    Plan {
        first,
        expected: e,
        replay,
        gap,
        ..staying(r)
    }
}

// The next number out behind a message, or behind none.
pub fn next_after(l: Option<Letter>, n: u64) -> u64
    requires { n ≤ 999_999_998 }
    ensures is { result ≡ behind n l }
    ensures small { result ≤ n + 2 }
{
    match l {
        None => n,
        Some(Letter::Logon { anew: true }) => 2,
        Some(_) => n + 1,
    }
}
