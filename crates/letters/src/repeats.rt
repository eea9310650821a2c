// The reply that a letter is, by what it repeats of the body that came.
ghost use Rattle.std.specs.Prelude.{ℕ, ◌≡◌, true};
ghost use Rattle.octets.specs.Bytes.{within};
ghost use Rattle.fields.specs.Field.{first_field};
ghost use Rattle.dictionary.specs.Verdict.{msg_type};
ghost use Rattle.replies.specs.Reply.{held};
ghost use Rattle.moves.specs.Seen.{code_of};
ghost use Rattle.letters.specs.code.Put.{numbered, IsReply};

use fields::{Span, first_field};
use moves::{Letter, number, number_in, type_in};
use replies::Reply;

fn value_of(body: &[u8], tag: u32) -> Option<&[u8]>
    requires { within 1 99_999 tag ≡ true }
    ensures { held result ≡ first_field tag body.now }
{
    let Span { start, end } = first_field(body, tag)?;
    Some(&body[start..end])
}

// The code of the body's type, if it is one that a Reject can repeat.
fn code_in(body: &[u8]) -> Option<&'static [u8]>
    ensures { held result ≡ code_of (msg_type body.now) }
{
    let m = type_in(body)?;
    Some(m.code())
}

// Our Logon with 141=Y is number 1.
#[inline(always)]
pub fn number_of(letter: Letter, next: u64) -> u64
    ensures { result ≡ numbered letter next }
{
    match letter {
        Letter::Logon { anew: true } => 1,
        Letter::Logon { anew: false }
        | Letter::Echo
        | Letter::Ask { .. }
        | Letter::Reject { .. }
        | Letter::RejectType
        | Letter::Logout { .. }
        | Letter::Test => next,
    }
}

#[inline(always)]
pub fn reply_of(letter: Letter, body: &[u8]) -> Reply<'_>
    ensures { (n : ℕ) → IsReply body.now n letter result }
{
    match letter {
        Letter::Echo => Reply::Heartbeat {
            id: value_of(body, 112),
        },
        Letter::Logon { anew } => Reply::Logon {
            seconds: number(body, 108),
            reset: anew,
        },
        Letter::Ask { from } => Reply::ResendRequest { expected: from },
        Letter::Reject { reason, tag } => Reply::Reject {
            refused: number_in(body, 34, 1).unwrap_or(0),
            tag,
            kind: code_in(body),
            why: reason,
        },
        Letter::RejectType => Reply::Reject {
            refused: number_in(body, 34, 1).unwrap_or(0),
            tag: 35,
            kind: None,
            why: 11,
        },
        Letter::Logout { why } => Reply::Logout { status: why },
        Letter::Test => Reply::TestRequest { id: body },
    }
}
