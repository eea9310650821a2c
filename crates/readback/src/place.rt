// Which words a field's value has, and what they say of it.
ghost use Rattle.std.specs.Prelude.{◌≡◌, ◌≤◌, ◌<◌, length, IfSome};
ghost use Rattle.readback.specs.code.Pass.{slot_in, slot_of, pair_of, pair_in};

use decimals::{Decimal, read_decimal};
use fields::Span;

// The place of a tag among the eleven, if it is one of theirs.
#[tactic(auto, unfolding(crate::specs::code::Pass::slot_of))]
pub fn slot_of(tag: u32) -> Option<usize>
    ensures is { result ≡ slot_in (slot_of tag) }
    ensures few { IfSome result (λ k. k < 11) }
{
    match tag {
        571 => Some(0),
        828 => Some(1),
        60 => Some(2),
        32 => Some(3),
        31 => Some(4),
        64 => Some(5),
        574 => Some(6),
        48 => Some(7),
        22 => Some(8),
        54 => Some(9),
        1427 => Some(10),
        _ => None,
    }
}

// An amount: its whole number and its places; 0 and 0 for bytes that are no decimal.
fn amount_of(v: &[u8]) -> (u64, u64)
    ensures { result ≡ pair_of v.now }
{
    match read_decimal(v) {
        Ok(Decimal { whole, places }) => (whole, places as u64),
        Err(_) => (0, 0),
    }
}

// What is noted of the k-th value, the two words behind `given`: of 32 and 31 the amount, of another where it lies.
pub fn pair_of(body: &[u8], k: usize, value: Span) -> (u64, u64)
    requires { (value.start ≤ value.end) × (value.end ≤ length body.now) }
    ensures { result ≡ pair_in body.now k value.start value.end }
{
    match k {
        3 | 4 => amount_of(&body[value.start..value.end]),
        _ => (value.start as u64, value.end as u64),
    }
}
