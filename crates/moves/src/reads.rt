// What a move reads of a body: the first fields of its tags.
ghost use Rattle.std.specs.Prelude.{◌≡◌, true};
ghost use Rattle.octets.specs.Bytes.{within};
ghost use Rattle.fields.specs.Field.{first_field};
ghost use Rattle.fields.specs.First.{First};
ghost use Rattle.dictionary.specs.Verdict.{msg_type};
ghost use Rattle.moves.specs.Seen.{is_it};
ghost use Rattle.moves.specs.code.Reads.{NumberIn, ReadIn, told};

use fields::{Span, first_field, type_field};
use kinds::read_number;
use table::MsgType;

// Whether the first field of a tag, which lies at a place, has this value.
#[tactic(auto, using(kinds::proofs::Values::same_by))]
pub fn holds_at(body: &[u8], tag: u32, place: Option<Span>, v: &[u8]) -> bool
    requires { (within 1 99_999 tag ≡ true) × First tag body.now place }
    ensures { result ≡ is_it v.now (first_field tag body.now) }
{
    let Some(Span { start, end }) = place else {
        return false;
    };
    &body[start..end] == v
}

// Whether a field is there with this value.
pub fn holds(body: &[u8], tag: u32, v: &[u8]) -> bool
    requires { within 1 99_999 tag ≡ true }
    ensures { result ≡ is_it v.now (first_field tag body.now) }
{
    let place = first_field(body, tag);
    holds_at(body, tag, place, v)
}

// The number of the first field of a tag, which lies at a place, from least on.
#[tactic(auto, using(crate::proofs::Readings::told_small), unfolding(kinds::specs::Judged::number_of))]
pub fn number_at(body: &[u8], tag: u32, place: Option<Span>, least: u32) -> Option<u64>
    requires { (within 1 99_999 tag ≡ true) × First tag body.now place }
    ensures { ReadIn least tag body.now result }
{
    let Span { start, end } = place?;
    let n = read_number(&body[start..end])?;
    (u64::from(least) <= n && n <= 999_999_999).then_some(n)
}

// The number of a field from least on.
pub fn number_in(body: &[u8], tag: u32, least: u32) -> Option<u64>
    requires { within 1 99_999 tag ≡ true }
    ensures { ReadIn least tag body.now result }
{
    let place = first_field(body, tag);
    number_at(body, tag, place, least)
}

// The number of a field, 0 where there is none: read behind a clean verdict, so that it is one.
pub fn number(body: &[u8], tag: u32) -> u64
    requires { within 1 99_999 tag ≡ true }
    ensures { NumberIn 0 tag body.now result }
{
    number_in(body, tag, 0).unwrap_or(0)
}

// The type that the first field 35 names.
pub fn type_in(body: &[u8]) -> Option<MsgType>
    ensures { result ≡ told (msg_type body.now) }
{
    let Span { start, end } = type_field(body)?;
    MsgType::of(&body[start..end])
}
