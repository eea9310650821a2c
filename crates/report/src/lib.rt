// The fields of a Trade Capture Report from 571 on, put into a body from the values that the host gives.
#![tactic(auto)]

mod parties;
mod pieces;

ghost use Rattle.std.specs.Prelude.{◌≡◌, [], ◌∷◌, ◌+◌, ◌≤◌, length};
ghost use Rattle.message.specs.Message.{number, bytes, ◌is◌};
ghost use Rattle.amounts.specs.Amount.{amount_text};
ghost use Rattle.report.specs.Values.{optional};
ghost use Rattle.report.specs.Layout.{needed, may_be, amount_at, values_given};
ghost use Rattle.report.specs.code.Puts.{Puts, Within, PutOwn};

use kinds::{Choice, Kind};
use message::put_field;
use parties::put_parties;
use pieces::{put_figure, put_needed, put_optional};

// The values of a report as the host gives them: 82 words, and the text that the bytes lie in.
#[derive(Clone, Copy)]
pub struct Given<'a> {
    pub words: &'a [u64; 82],
    pub text: &'a [u8],
}

// 571, 828, 60. (One function for the four rows would be handed the same tags, places and kinds.)
fn put_trade(body: &mut [u8], at: usize, given: Given) -> Option<usize>
    requires { at + 75 ≤ length body.old }
    ensures bytes { Puts body.old body.new at result (571 is bytes (needed given.entry.words.now given.entry.text.now 0) ∷ 828 is bytes (needed given.entry.words.now given.entry.text.now 1) ∷ 60 is bytes (needed given.entry.words.now given.entry.text.now 2) ∷ []) }
    ensures room { Within result (at + 72) }
{
    let a = put_needed(body, at, 571, given, 0, Kind::Text { most: 32 })?;
    let b = put_needed(body, a, 828, given, 1, Kind::OneOf(Choice::ZeroOr54Or99))?;
    put_needed(body, b, 60, given, 2, Kind::Time)
}

// 32, 31, 64.
fn put_figures(body: &mut [u8], at: usize, given: Given) -> Option<usize>
    requires { at + 72 ≤ length body.old }
    ensures bytes { Puts body.old body.new at result (32 is bytes (amount_text (amount_at given.entry.words.now given.entry.text.now 3)) ∷ 31 is bytes (amount_text (amount_at given.entry.words.now given.entry.text.now 4)) ∷ 64 is optional (may_be given.entry.words.now given.entry.text.now 5) ∷ []) }
    ensures room { Within result (at + 68) }
{
    let a = put_figure(body, at, 32, given, 3)?;
    let b = put_figure(body, a, 31, given, 4)?;
    put_optional(body, b, 64, given, 5, Kind::Day)
}

// 574, 48, 22.
fn put_instrument(body: &mut [u8], at: usize, given: Given) -> Option<usize>
    requires { at + 51 ≤ length body.old }
    ensures bytes { Puts body.old body.new at result (574 is bytes (needed given.entry.words.now given.entry.text.now 6) ∷ 48 is bytes (needed given.entry.words.now given.entry.text.now 7) ∷ 22 is bytes (needed given.entry.words.now given.entry.text.now 8) ∷ []) }
    ensures room { Within result (at + 48) }
{
    let a = put_needed(body, at, 574, given, 6, Kind::OneOf(Choice::Matches))?;
    let b = put_needed(body, a, 48, given, 7, Kind::Text { most: 32 })?;
    put_needed(body, b, 22, given, 8, Kind::OneOf(Choice::Eight))
}

// 552, 54, 1427.
fn put_side(body: &mut [u8], at: usize, given: Given) -> Option<usize>
    requires { at + 62 ≤ length body.old }
    ensures bytes { Puts body.old body.new at result (552 is number 1 ∷ 54 is bytes (needed given.entry.words.now given.entry.text.now 9) ∷ 1427 is optional (may_be given.entry.words.now given.entry.text.now 10) ∷ []) }
    ensures room { Within result (at + 60) }
{
    let a = put_field(body, at, 552, 1u64);
    let b = put_needed(body, a, 54, given, 9, Kind::OneOf(Choice::OneOrTwo))?;
    put_optional(body, b, 1427, given, 10, Kind::Text { most: 32 })
}

// All fields from 571 on, behind a header of at most 100 bytes; none where a value is unfit.
pub fn put_own(body: &mut [u8], at: usize, given: Given) -> Option<usize>
    requires { (1 ≤ at) × (at ≤ 100) × (length body.old ≡ 768) }
    ensures { PutOwn (values_given given.entry.words.now given.entry.text.now) body.old body.new at result }
{
    let a = put_trade(body, at, given)?;
    let b = put_figures(body, a, given)?;
    let c = put_instrument(body, b, given)?;
    let d = put_side(body, c, given)?;
    put_parties(body, d, given)
}
