// The calls on a body: the fields in it, and the verdict on it.
ghost use Rattle.std.specs.Prelude.{◌≡◌, ◌∷◌};
ghost use Rattle.readback.specs.Back.{numbers};
ghost use Rattle.border.specs.Numbers.{refusal_of, any_of, in_words};
ghost use Rattle.gateway.specs.Border.{FieldOut, FirstOut, VerdictOut};

use border::refuse;
use dictionary::{Finding, Unclean, Verdict};
use fields::{Item, Span};
use session::Refusal;

// The field that stands at a place of a body; refusal 10 for bytes that are none.
#[unsafe(no_mangle)]
pub extern "C" fn fixgw_field(body: &[u8], at: usize, out: &mut [u64; 5]) -> u32
    ensures { FieldOut body.now at result out.new }
{
    match fields::field_at(body, at) {
        Item::Field {
            tag,
            start,
            end,
            next,
        } => {
            *out = [0, tag as u64, start as u64, end as u64, next as u64];
            0
        }
        Item::Malformed { start, end, next } => {
            *out = [1, 0, start as u64, end as u64, next as u64];
            0
        }
        Item::End => {
            *out = [2, 0, 0, 0, 0];
            0
        }
        Item::NoBody => refuse(out, Refusal::NotOneFrame),
    }
}

// Where the first field of a tag lies in a body; refusal 10 for bytes that are none.
#[unsafe(no_mangle)]
pub extern "C" fn fixgw_first_field(body: &[u8], tag: u32, out: &mut [u64; 3]) -> u32
    ensures { FirstOut body.now tag result out.new }
{
    if !fields::is_body(body) {
        return refuse(out, Refusal::NotOneFrame);
    }
    match fields::first_field(body, tag) {
        Some(Span { start, end }) => {
            *out = [1, start as u64, end as u64];
            0
        }
        None => {
            *out = [0, 0, 0];
            0
        }
    }
}

// A verdict in words: nothing found, or a reason and a tag; refusal 10 for bytes that are no body.
pub fn judged(v: Verdict, out: &mut [u64; 3]) -> u32
    ensures { (result ≡ refusal_of (numbers v)) × (out.new ≡ any_of (numbers v) ∷ in_words 2 (numbers v)) }
{
    match v {
        Ok(()) => {
            *out = [0, 0, 0];
            0
        }
        Err(Unclean::Found(Finding { reason, tag })) => {
            *out = [1, reason as u64, tag as u64];
            0
        }
        Err(Unclean::NoBody) => refuse(out, Refusal::NotOneFrame),
    }
}

// The verdict on a body.
#[unsafe(no_mangle)]
pub extern "C" fn fixgw_verdict(body: &[u8], out: &mut [u64; 3]) -> u32
    ensures { VerdictOut body.now result out.new }
{
    judged(dictionary::verdict_on(body), out)
}
