// The fields of a report, put into a body one behind the other. Each function answers the place behind what it wrote, or none where a value is unfit.
ghost use Rattle.std.specs.Prelude.{◌≡◌, [], ◌∷◌, ◌+◌, ◌≤◌, ◌<◌, length};
ghost use Rattle.kinds.specs.Kind as Words;
ghost use Rattle.kinds.specs.Judged.{meaning};
ghost use Rattle.message.specs.Message.{bytes, ◌is◌, part};
ghost use Rattle.message.specs.code.Writable.{most, as_read};
ghost use Rattle.amounts.specs.Amount.{amount_text};
ghost use Rattle.report.specs.Values.{optional};
ghost use Rattle.report.specs.Layout.{word, needed, may_be, amount_at};
ghost use Rattle.report.specs.code.Puts.{Has, Optional, label_room, Puts, Within};

use crate::Given;
use amounts::put_amount;
use kinds::Kind;
use message::{is_fit, put_byte, put_field, put_tag};

// The field whose value lies in the text from the word w to the next one.
pub fn put_value(
    body: &mut [u8],
    at: usize,
    tag: u64,
    given: Given,
    w: usize,
    kind: Kind,
) -> Option<usize>
    requires { (tag < 100_000) × (w ≤ 80) × (at + most as_read (meaning kind) + 7 ≤ length body.old) }
    ensures bytes { Has tag (meaning kind) → Puts body.old body.new at result (tag is bytes (part given.entry.text.now (word given.entry.words.now given.entry.text.now w) (word given.entry.words.now given.entry.text.now (w + 1))) ∷ []) }
    ensures room { Within result (at + label_room tag + most as_read (meaning kind) + 1) }
{
    let start = given.words[w] as usize;
    let end = given.words[w + 1] as usize;
    let v = given.text.get(start..end)?;
    if !is_fit(kind, v) {
        return None;
    }
    Some(put_field(body, at, tag, v))
}

// The field of the k-th value, which must be given.
pub fn put_needed(
    body: &mut [u8],
    at: usize,
    tag: u64,
    given: Given,
    k: usize,
    kind: Kind,
) -> Option<usize>
    requires { (tag < 100_000) × (k ≤ 10) × (at + most as_read (meaning kind) + 7 ≤ length body.old) }
    ensures bytes { Has tag (meaning kind) → Puts body.old body.new at result (tag is bytes (needed given.entry.words.now given.entry.text.now k) ∷ []) }
    ensures room { Within result (at + label_room tag + most as_read (meaning kind) + 1) }
{
    if given.words[3 * k] == 0 {
        return None;
    }
    put_value(body, at, tag, given, 3 * k + 1, kind)
}

// The field of the k-th value, or nothing if it is not given.
pub fn put_optional(
    body: &mut [u8],
    at: usize,
    tag: u64,
    given: Given,
    k: usize,
    kind: Kind,
) -> Option<usize>
    requires { (tag < 100_000) × (k ≤ 10) × (at + most as_read (meaning kind) + 7 ≤ length body.old) }
    ensures bytes { Optional tag (meaning kind) → Puts body.old body.new at result (tag is optional (may_be given.entry.words.now given.entry.text.now k) ∷ []) }
    ensures room { Within result (at + label_room tag + most as_read (meaning kind) + 1) }
{
    if given.words[3 * k] == 0 {
        return Some(at);
    }
    put_value(body, at, tag, given, 3 * k + 1, kind)
}

// The field of the k-th value, which is an amount.
pub fn put_figure(body: &mut [u8], at: usize, tag: u64, given: Given, k: usize) -> Option<usize>
    requires { (tag < 100_000) × (k ≤ 10) × (at + 31 ≤ length body.old) }
    ensures bytes { Has tag Words.decimal → Puts body.old body.new at result (tag is bytes (amount_text (amount_at given.entry.words.now [] k)) ∷ []) }
    ensures room { Within result (at + label_room tag + 25) }
{
    let w = 3 * k;
    if given.words[w] == 0 {
        return None;
    }
    let whole = given.words[w + 1];
    let places = given.words[w + 2];
    if 999_999_999_999_999 < whole {
        return None;
    }
    if 8 < places {
        return None;
    }
    let a = put_tag(body, at, tag);
    let b = put_amount(body, a, whole, places);
    Some(put_byte(body, b, 1))
}
