// The kinds of values: form and value of one field's bytes.
#![tactic(auto)]

ghost use Rattle.std.specs.Prelude.{◌≡◌, [], ◌∷◌, true};
ghost use Rattle.octets.specs.Bytes.{same};
ghost use Rattle.dates.specs.Date.{found};
ghost use Rattle.fault.specs.Fault.{Tells};
ghost use Rattle.kinds.specs.Kind.{text, number◌to◌, Y/N, decimal, among};
ghost use Rattle.kinds.specs.Judged.{choices, meaning, judged, number_of};

use dates::{judge_day, judge_time};
use decimals::read_decimal;
use fault::Fault;
use octets::digits;

// A kind as the dictionary's table holds it; specs/Judged.antt says which words each case stands for.
#[derive(Clone, Copy, PartialEq, Eq, Debug)]
pub enum Kind {
    Text { most: usize },
    Number { least: u32, most: u32 },
    Flag,
    Time,
    Day,
    Decimal,
    OneOf(Choice),
}

// The lists of values that the documents have.
#[derive(Clone, Copy, PartialEq, Eq, Debug)]
pub enum Choice {
    Zero,
    Eight,
    Nine,
    D,
    OneOrTwo,
    ZeroOr54,
    ZeroOr54Or99,
    Matches,
    Roles,
}

// The number that the bytes write: 1 to 12 digits, zeros in front among them.
pub fn read_number(v: &[u8]) -> Option<u64>
    ensures { result ≡ number_of v.now }
{
    let n = v.len();
    if n == 0 {
        return None;
    }
    let d = digits(v, 0, 12);
    if d.count != n {
        return None;
    }
    Some(d.value as u64)
}

// The finding on a value of a kind: its form, then its value.
#[inline(always)]
pub fn judge(kind: Kind, v: &[u8]) -> Result<(), Fault>
    ensures { Tells result (judged (meaning kind) v.now) }
{
    match kind {
        Kind::Text { most } => judge_text(v, most),
        Kind::Number { least, most } => judge_number(v, least, most),
        Kind::Flag => judge_flag(v),
        Kind::Time => judge_time(v),
        Kind::Day => judge_day(v),
        Kind::Decimal => judge_decimal(v),
        Kind::OneOf(list) => judge_choice(v, list),
    }
}

#[tactic(auto, unfolding(crate::specs::Judged::judged, crate::specs::Kind::formed, crate::specs::Kind::allowed))]
pub fn judge_text(v: &[u8], most: usize) -> Result<(), Fault>
    ensures { Tells result (judged (text most) v.now) }
{
    let n = v.len();
    if 1 <= n && n <= most {
        Ok(())
    } else {
        Err(Fault::Value)
    }
}

pub fn judge_number(v: &[u8], least: u32, most: u32) -> Result<(), Fault>
    ensures { Tells result (judged (number least to most) v.now) }
{
    let Some(n) = read_number(v) else {
        return Err(Fault::Form);
    };
    if u64::from(least) <= n && n <= u64::from(most) {
        Ok(())
    } else {
        Err(Fault::Value)
    }
}

#[tactic(auto, unfolding(crate::specs::Judged::judged, crate::specs::Kind::formed, crate::specs::Kind::allowed))]
pub fn judge_flag(v: &[u8]) -> Result<(), Fault>
    ensures { Tells result (judged Y/N v.now) }
{
    if is_one(v, b'Y') || is_one(v, b'N') {
        Ok(())
    } else {
        Err(Fault::Form)
    }
}

// A decimal: its form, then its range.
pub fn judge_decimal(v: &[u8]) -> Result<(), Fault>
    ensures { Tells result (judged decimal v.now) }
{
    read_decimal(v)?;
    Ok(())
}

// The value is one of a list; any other is 5. (The lists stand as the document gives them. They are compared by one byte or two, so that no list is laid out and no length is looked at twice.)
#[tactic(auto, unfolding(crate::specs::Judged::judged, crate::specs::Kind::formed, crate::specs::Kind::allowed))]
#[inline(always)]
pub fn judge_choice(v: &[u8], list: Choice) -> Result<(), Fault>
    ensures { Tells result (judged (among (choices list)) v.now) }
{
    match list {
        Choice::Zero => judge_one(v, b'0'),
        Choice::Eight => judge_one(v, b'8'),
        Choice::Nine => judge_one(v, b'9'),
        Choice::D => judge_one(v, b'D'),
        Choice::OneOrTwo => judge_listed(is_one(v, b'1') || is_one(v, b'2')),
        Choice::ZeroOr54 => judge_listed(is_one(v, b'0') || is_two(v, b'5', b'4')),
        Choice::ZeroOr54Or99 => {
            judge_listed(is_one(v, b'0') || is_two(v, b'5', b'4') || is_two(v, b'9', b'9'))
        }
        Choice::Matches => judge_listed(
            is_one(v, b'2') || is_one(v, b'4') || is_one(v, b'7') || is_two(v, b'2', b'2'),
        ),
        Choice::Roles => judge_listed(
            is_one(v, b'1')
                || is_one(v, b'3')
                || is_two(v, b'1', b'2')
                || is_two(v, b'1', b'7')
                || is_two(v, b'7', b'6'),
        ),
    }
}

// The same of a list of one value, which is one byte.
#[tactic(auto, unfolding(crate::specs::Judged::judged, crate::specs::Kind::formed, crate::specs::Kind::allowed))]
#[inline(always)]
pub fn judge_one(v: &[u8], x: u8) -> Result<(), Fault>
    ensures { Tells result (judged (among ((x ∷ []) ∷ [])) v.now) }
{
    judge_listed(is_one(v, x))
}

// The finding by whether the value is in its list.
#[inline(always)]
fn judge_listed(is_in: bool) -> Result<(), Fault>
    ensures { Tells result (found true is_in) }
{
    if is_in { Ok(()) } else { Err(Fault::Value) }
}

// The value is one byte, or two.
#[tactic(auto, using(crate::proofs::Values::row))]
fn is_one(v: &[u8], x: u8) -> bool
    ensures { result ≡ same v.now (x ∷ []) }
{
    v.len() == 1 && v[0] == x
}

#[tactic(auto, using(crate::proofs::Values::row))]
fn is_two(v: &[u8], x: u8, y: u8) -> bool
    ensures { result ≡ same v.now (x ∷ y ∷ []) }
{
    v.len() == 2 && v[0] == x && v[1] == y
}
