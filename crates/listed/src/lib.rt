// Whether bytes are a report's fields from 571 on, as our call writes them: each label in its turn, each value of its kind.
#![tactic(auto)]

mod steps;

ghost use Rattle.octets.specs.Bytes.{fix};
ghost use Rattle.report.specs.Values.{group, own};
ghost use Rattle.listed.specs.code.Listed.{Listed};
ghost use Rattle.listed.specs.code.Taken.{left, Took, anything, without, end, Fields, trade, figures, instrument, side, party, Parties};

use kinds::{Choice, Kind};
use steps::{take_field, take_label, take_optional};

// 571, 828, 60. (These five name the labels and kinds as they are listed; one function for all would be handed the same names, in rows.)
fn take_trade(s: &[u8]) -> Option<&[u8]>
    ensures { Took (Fields trade) anything s.now (left result) }
{
    let s = take_field(s, b"571=", Kind::Text { most: 32 })?;
    let s = take_field(s, b"828=", Kind::OneOf(Choice::ZeroOr54Or99))?;
    take_field(s, b"60=", Kind::Time)
}

// 32, 31, 64.
fn take_figures(s: &[u8]) -> Option<&[u8]>
    ensures { Took (Fields figures) (without (fix "64=")) s.now (left result) }
{
    let s = take_field(s, b"32=", Kind::Decimal)?;
    let s = take_field(s, b"31=", Kind::Decimal)?;
    take_optional(s, b"64=", Kind::Day)
}

// 574, 48, 22.
fn take_instrument(s: &[u8]) -> Option<&[u8]>
    ensures { Took (Fields instrument) anything s.now (left result) }
{
    let s = take_field(s, b"574=", Kind::OneOf(Choice::Matches))?;
    let s = take_field(s, b"48=", Kind::Text { most: 32 })?;
    take_field(s, b"22=", Kind::OneOf(Choice::Eight))
}

// 552, 54, 1427.
fn take_side(s: &[u8]) -> Option<&[u8]>
    ensures { Took (Fields side) (without (fix "1427=")) s.now (left result) }
{
    let s = take_field(s, b"552=1\x0154=", Kind::OneOf(Choice::OneOrTwo))?;
    take_optional(s, b"1427=", Kind::Text { most: 32 })
}

// 448, 447, 452.
fn take_party(s: &[u8]) -> Option<&[u8]>
    ensures { Took (Fields party) anything s.now (left result) }
{
    let s = take_field(s, b"448=", Kind::Text { most: 32 })?;
    let s = take_field(s, b"447=", Kind::OneOf(Choice::D))?;
    take_field(s, b"452=", Kind::OneOf(Choice::Roles))
}

// n parties.
fn take_members(s: &[u8], n: u8) -> Option<&[u8]>
    ensures { Took (Parties n) anything s.now (left result) }
{
    let mut left = s;
    for i in 0..n {
        left = take_party(left)?;
    }
    Some(left)
}

// 453 with 1 to 8 parties, or nothing, to the end.
fn take_parties(s: &[u8]) -> Option<&[u8]>
    ensures { Took (Fields group) end s.now (left result) }
{
    if s.is_empty() {
        return Some(s);
    }
    let [n, behind @ ..] = take_label(s, b"453=")? else {
        return None;
    };
    if *n < b'1' {
        return None;
    }
    if b'8' < *n {
        return None;
    }
    take_members(take_label(behind, b"\x01")?, *n - b'0')
}

// All of them.
fn take_own(s: &[u8]) -> Option<&[u8]>
    ensures { Took (Fields own) end s.now (left result) }
{
    let s = take_trade(s)?;
    let s = take_figures(s)?;
    let s = take_instrument(s)?;
    let s = take_side(s)?;
    take_parties(s)
}

// Whether the bytes are a report's own fields and nothing else.
pub fn is_listed(fields: &[u8]) -> bool
    ensures { Listed fields.now result }
{
    let Some(behind) = take_own(fields) else {
        return false;
    };
    behind.is_empty()
}
