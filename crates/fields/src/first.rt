// The first field of a tag.
ghost use Rattle.std.specs.Prelude.{◌≡◌, ◌≤◌, get_or};
ghost use Rattle.octets.specs.Bytes.{decimal};
ghost use Rattle.fields.specs.First.{First};

use crate::part::{bar, begins_with_type, item_at};
use crate::{Item, Span};
use octets::byte_from;

// The first digit of a tag.
fn lead_of(tag: u32) -> u8
    ensures { result ≡ get_or (decimal tag) 0 0 }
{
    let mut n = tag;
    while 10 <= n {
        n /= 10;
    }
    b'0' + n as u8
}

// Where the first field of a tag lies, from 1 to 99,999. A part that begins with another digit is passed without a look at its tag.
fn first_of(body: &[u8], tag: u32) -> Option<Span>
    requires { (1 ≤ tag) × (tag ≤ 99_999) }
    ensures { First tag body.now result }
{
    let lead = lead_of(tag);
    let mut at = 0;
    while at < body.len() {
        if body[at] != lead {
            at = byte_from(body, at, body.len(), 1) + 1;
            continue;
        }
        match item_at(body, at) {
            Item::Field {
                tag: t,
                start,
                end,
                next,
            } => {
                if t == tag {
                    return Some(Span { start, end });
                }
                at = next;
            }
            Item::Malformed { next, .. } => at = next,
            Item::End | Item::NoBody => return None,
        }
    }
    None
}

// The same of any number: no field has another one for its tag.
#[tactic(auto, using(crate::proofs::Firsts::first_low, crate::proofs::Firsts::first_high))]
pub fn first_field(body: &[u8], tag: u32) -> Option<Span>
    ensures { First tag body.now result }
{
    match tag {
        1..=99_999 => first_of(body, tag),
        _ => None,
    }
}

// Where the first field 35 lies: in a body no part is looked at but the first.
pub fn type_field(body: &[u8]) -> Option<Span>
    ensures { First 35 body.now result }
{
    if !begins_with_type(body) {
        return first_field(body, 35);
    }
    let end = bar(body, 3);
    Some(Span { start: 3, end })
}
