// The own values of the replies: whether they fit, and their fields behind the first ones.
ghost use Rattle.std.specs.Prelude.{◌≡◌, true, ◌+◌, ◌≤◌, length};
ghost use Rattle.message.specs.Message.{row};
ghost use Rattle.message.specs.Wrote.{Wrote};
ghost use Rattle.replies.specs.Reply.{held};
ghost use Rattle.replies.specs.Replied.{at_most, fits};
ghost use Rattle.replies.specs.code.Ranges.{own_of, longest_head};

use crate::Reply;
use message::{put_field, put_optional};

// The greatest number of nine digits.
const MOST: u64 = 999_999_999;

fn is_at_most(v: Option<&[u8]>, most: usize) -> bool
    ensures { result ≡ at_most most (held v.entry) }
{
    v.is_none_or(|v| v.len() <= most)
}

// Whether a reply takes the values of its own.
#[inline(always)]
pub fn is_fit(reply: Reply<'_>) -> bool
    ensures { result ≡ fits reply.entry }
{
    match reply {
        Reply::Heartbeat { id } => is_at_most(id, 64),
        Reply::TestRequest { id } => id.len() <= 64,
        Reply::Logon { seconds, .. } => seconds <= MOST,
        Reply::ResendRequest { expected } => expected <= MOST,
        Reply::Reject {
            refused,
            tag,
            kind,
            why,
        } => refused <= MOST && tag <= MOST && is_at_most(kind, 2) && why <= MOST,
        Reply::GapFill { next } => next <= MOST,
        Reply::Logout { status } => status <= MOST,
    }
}

// The fields of the values of its own, behind a head.
#[inline(always)]
pub fn put_own(body: &mut [u8], at: usize, time: &[u8], reply: Reply<'_>) -> usize
    requires fit { fits reply ≡ true }
    requires room { (length time.now ≤ 24) × (at ≤ longest_head reply) × (162 ≤ length body.old) }
    ensures bytes { Wrote body.old body.new at result (row (own_of time.now reply.entry)) }
    ensures room { result ≤ 162 }
{
    match reply {
        Reply::Heartbeat { id } => put_optional(body, at, 112, id),
        Reply::TestRequest { id } => put_field(body, at, 112, id),
        Reply::Logon { seconds, reset } => {
            let a = put_field(body, at, 98, b'0');
            let b = put_field(body, a, 108, seconds);
            let c = put_field(body, b, 1137, b'9');
            put_optional(body, c, 141, reset.then_some(b'Y'))
        }
        Reply::ResendRequest { expected } => {
            let a = put_field(body, at, 7, expected);
            put_field(body, a, 16, 0u64)
        }
        Reply::Reject {
            refused,
            tag,
            kind,
            why,
        } => {
            let a = put_field(body, at, 45, refused);
            let b = put_optional(body, a, 371, (tag != 0).then_some(tag));
            let c = put_optional(body, b, 372, kind);
            put_field(body, c, 373, why)
        }
        Reply::GapFill { next } => {
            let a = put_field(body, at, 122, time);
            let b = put_field(body, a, 123, b'Y');
            put_field(body, b, 36, next)
        }
        Reply::Logout { status } => put_field(body, at, 1409, status),
    }
}
