// The replies of a session, each put behind a place of the reply buffer.
#![tactic(auto)]

mod head;
mod own;

ghost use Rattle.replies.specs.Replied.{fits, message_of, Replied};

use head::{is_sendable, put_head};
use message::put_frame;
use own::{is_fit, put_own};

// What the messages of a session have in common: from whom and to whom they are, the number, the time.
#[derive(Clone, Copy)]
pub struct Heading<'a> {
    pub ours: &'a [u8],
    pub peers: &'a [u8],
    pub number: u64,
    pub time: &'a [u8],
}

// A message of a session, with the values of its own.
#[derive(Clone, Copy)]
pub enum Reply<'a> {
    // That of a tick, or the answer to a Test Request, with its 112.
    Heartbeat {
        id: Option<&'a [u8]>,
    },
    TestRequest {
        id: &'a [u8],
    },
    // With 141=Y after a reset.
    Logon {
        seconds: u64,
        reset: bool,
    },
    ResendRequest {
        expected: u64,
    },
    // Of the message with the number `refused`.
    Reject {
        refused: u64,
        tag: u64,
        kind: Option<&'a [u8]>,
        why: u64,
    },
    GapFill {
        next: u64,
    },
    Logout {
        status: u64,
    },
}

// How many bytes the longest body has.
const BODY: usize = 162;

// The place behind the reply. One whose values do not fit is not put.
#[inline(always)]
pub fn put_reply(buf: &mut [u8], at: usize, h: &Heading<'_>, reply: Reply<'_>) -> Option<usize>
    ensures { Replied h.now.ours.now h.now.peers.now h.now.number h.now.time.now (fits reply.entry) buf.old buf.new at result (message_of h.now.ours.now h.now.peers.now h.now.number h.now.time.now reply.entry) }
{
    if !is_sendable(h, at, buf.len()) || !is_fit(reply) {
        return None;
    }
    let mut body = [0u8; BODY];
    let a = put_head(&mut body, h, reply);
    let k = put_own(&mut body, a, h.time, reply);
    Some(put_frame(buf, at, &body[..k]))
}
