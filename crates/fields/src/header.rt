// The three fields that every step looks for, 34, 49 and 56, in one pass.
ghost use Rattle.std.specs.Prelude.{◌≡◌};
ghost use Rattle.fields.specs.First.{Heading};
ghost use Rattle.fields.specs.code.Header.{complete, Noted};

use crate::part::bar;
use crate::{Heads, Span};

// What was met, and the value of a part, if its tag is 34, 49 or 56 and was not met before.
fn noted(h: Heads, part: &[u8], value: Span) -> Heads
    ensures { Noted h part.now value result }
{
    match part {
        [b'3', b'4', b'=', ..] => Heads {
            number: h.number.or(Some(value)),
            ..h
        },
        [b'4', b'9', b'=', ..] => Heads {
            sender: h.sender.or(Some(value)),
            ..h
        },
        [b'5', b'6', b'=', ..] => Heads {
            target: h.target.or(Some(value)),
            ..h
        },
        _ => h,
    }
}

// Whether all three were met. 56 is the last of them as a rule, and so the one that is asked for first.
fn is_complete(h: Heads) -> bool
    ensures { result ≡ complete h }
{
    h.target.is_some() && h.sender.is_some() && h.number.is_some()
}

// One pass, up to the last of the three.
pub fn heads_of(body: &[u8]) -> Heads
    ensures { Heading body.now result }
{
    let mut h = Heads {
        number: None,
        sender: None,
        target: None,
    };
    let mut at = 0;
    while at < body.len() {
        let end = bar(body, at);
        let start = at + 3;
        h = noted(h, &body[at..], Span { start, end });
        if is_complete(h) {
            return h;
        }
        at = end + 1;
    }
    h
}
