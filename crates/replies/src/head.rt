// What the replies have in common: the test that their values fit, and their first fields.
ghost use Rattle.std.specs.Prelude.{[], ◌∷◌, ◌≡◌, ◌≤◌, length};
ghost use Rattle.octets.specs.Bytes.{fix};
ghost use Rattle.message.specs.Message.{shown, row};
ghost use Rattle.message.specs.code.Given.{given_text};
ghost use Rattle.replies.specs.Reply.{optional};
ghost use Rattle.message.specs.Wrote.{Wrote};
ghost use Rattle.replies.specs.Replied.{sendable};
ghost use Rattle.replies.specs.code.Ranges.{Ranged, headed, code_byte, is_duplicate, longest_head};

use crate::{Heading, Reply};
use message::{put_field, put_optional};

// How many bytes every reply asks for behind its place.
const REPLY_ROOM: usize = 187;

// Whether every reply takes these values, and a buffer of `len` bytes has room for one behind the place.
#[tactic(auto, using(crate::proofs::Replied::room_behind), unfolding(crate::specs::Replied::sendable))]
pub fn is_sendable(h: &Heading<'_>, at: usize, len: usize) -> bool
    ensures { result ≡ sendable h.now.ours.now h.now.peers.now h.now.number h.now.time.now at len }
{
    h.ours.len() <= 11
        && h.peers.len() <= 11
        && h.number <= 999_999_999
        && h.time.len() <= 24
        && REPLY_ROOM <= len
        && at <= len - REPLY_ROOM
}

// What stands behind `35=`, and behind `43=` where that is there.
#[inline(always)]
fn begins(reply: Reply<'_>) -> (u8, Option<u8>)
    ensures code { result.0 ≡ code_byte reply.entry }
    ensures duplicate { given_text (λ b. b ∷ []) result.1 ≡ shown (optional (is_duplicate reply.entry) (fix "Y")) }
{
    match reply {
        Reply::Heartbeat { .. } => (b'0', None),
        Reply::TestRequest { .. } => (b'1', None),
        Reply::ResendRequest { .. } => (b'2', None),
        Reply::Reject { .. } => (b'3', None),
        Reply::GapFill { .. } => (b'4', Some(b'Y')),
        Reply::Logout { .. } => (b'5', None),
        Reply::Logon { .. } => (b'A', None),
    }
}

// 35, 49, 56, 34, 43 and 52, at the front of a body. A gap fill alone has a 43.
#[inline(always)]
pub fn put_head(body: &mut [u8], h: &Heading<'_>, reply: Reply<'_>) -> usize
    requires ranged { Ranged h.now.ours.now h.now.peers.now h.now.number }
    requires time_len_bound { (length h.now.time.now ≤ 24) × (99 ≤ length body.old) }
    ensures bytes { Wrote body.old body.new 0 result (row (headed (code_byte reply.entry) h.now.ours.now h.now.peers.now h.now.number (is_duplicate reply.entry) h.now.time.now)) }
    ensures room { result ≤ longest_head reply.entry }
{
    let (code, duplicate) = begins(reply);
    let a = put_field(body, 0, 35, code);
    let b = put_field(body, a, 49, h.ours);
    let c = put_field(body, b, 56, h.peers);
    let d = put_field(body, c, 34, h.number);
    let e = put_optional(body, d, 43, duplicate);
    put_field(body, e, 52, h.time)
}
