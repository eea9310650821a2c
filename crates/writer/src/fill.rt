// The values of a message: whether each is fit, and their fields one behind the other.
ghost use Rattle.std.specs.Prelude.{◌≡◌, true, ◌+◌, ◌≤◌, ◌<◌, length};
ghost use Rattle.octets.specs.Bytes.{decimal};
ghost use Rattle.kinds.specs.Judged.{meaning};
ghost use Rattle.table.specs.Dictionary.{administrative, type_is};
ghost use Rattle.message.specs.code.Writable.{most, as_read};
ghost use Rattle.writer.specs.Tags.{is_numeric};
ghost use Rattle.writer.specs.Call.{admin, value_in};
ghost use Rattle.writer.specs.code.Held.{Holds, value_of, nine_digits, PutText, PutOne, PutAll};

use crate::slots::{SLOTS, bit, marks_of};
use crate::types::Entry;
use crate::{Given, Values};
use kinds::Kind;
use message::{is_fit, put_decimal, put_field};
use table::MsgType;

// One of the seven administrative messages.
#[tactic(auto, unfolding(table::specs::Dictionary::administrative, table::specs::Dictionary::code35))]
fn is_administrative(m: MsgType) -> bool
    ensures { result ≡ administrative m }
{
    match m {
        MsgType::OrderCancelRequest
        | MsgType::TradeCaptureReportRequest
        | MsgType::TradeCaptureReport => false,
        MsgType::Heartbeat
        | MsgType::TestRequest
        | MsgType::ResendRequest
        | MsgType::Reject
        | MsgType::SequenceReset
        | MsgType::Logout
        | MsgType::Logon => true,
    }
}

// The administrative message that a type names.
pub fn admin_of(v: &[u8]) -> Option<MsgType>
    ensures { type_is result ≡ admin v.now }
{
    let m = MsgType::of(v)?;
    is_administrative(m).then_some(m)
}

// Whether values of a kind are given as numbers.
fn is_number(kind: Kind) -> bool
    ensures { result ≡ is_numeric (meaning kind) }
{
    matches!(kind, Kind::Number { .. })
}

// The field of a value given as bytes, if it is fit.
fn put_bytes_value(buf: &mut [u8], at: usize, tag: u64, kind: Kind, v: &[u8]) -> Option<usize>
    requires { (tag < 100_000) × (most as_read (meaning kind) ≤ 256) × (at + 263 ≤ length buf.old) }
    ensures { PutText (meaning kind) tag v.now buf.old buf.new at result }
{
    if !is_fit(kind, v) {
        return None;
    }
    Some(put_field(buf, at, tag, v))
}

// The field of a value given as a number, if it is fit.
fn put_number_value(buf: &mut [u8], at: usize, tag: u64, kind: Kind, n: u64) -> Option<usize>
    requires { (tag < 100_000) × (most as_read (meaning kind) ≤ 256) × (is_numeric (meaning kind) ≡ true) × (nine_digits (meaning kind) ≡ true) × (at + 263 ≤ length buf.old) }
    ensures { PutText (meaning kind) tag (decimal n) buf.old buf.new at result }
{
    if 999_999_999 < n {
        return None;
    }
    let mut digits = [0u8; 9];
    let k = put_decimal(&mut digits, 0, n);
    put_bytes_value(buf, at, tag, kind, &digits[..k])
}

// The field of a value that is given, if it is fit.
fn put_given(buf: &mut [u8], at: usize, e: Entry, given: Given, text: &[u8]) -> Option<usize>
    requires tag_bound { (e.tag < 100_000) × (most as_read (meaning e.kind) ≤ 256) × (at + 263 ≤ length buf.old) }
    requires given_value { (e.value ≡ Some given) × (e.own ≡ true) × (nine_digits (meaning e.kind) ≡ true) }
    ensures { (m : MsgType) → Holds m e → PutOne m e.tag (value_of e text.now) buf.old buf.new at result }
{
    if is_number(e.kind) {
        return put_number_value(buf, at, e.tag, e.kind, given.a);
    }
    let start = given.a as usize;
    let end = given.b as usize;
    if end < start {
        return None;
    }
    if text.len() < end {
        return None;
    }
    put_bytes_value(buf, at, e.tag, e.kind, &text[start..end])
}

// The field of a value, nothing where it may be absent and is.
fn put_entry(buf: &mut [u8], at: usize, e: Entry, text: &[u8]) -> Option<usize>
    requires tag_bound { (e.tag < 100_000) × (most as_read (meaning e.kind) ≤ 256) × (at + 263 ≤ length buf.old) }
    requires kind_value { nine_digits (meaning e.kind) ≡ true }
    ensures { (m : MsgType) → Holds m e → PutOne m e.tag (value_of e text.now) buf.old buf.new at result }
{
    let Some(given) = e.value else {
        if e.needed {
            return None;
        }
        return Some(at);
    };
    if !e.own {
        return None;
    }
    put_given(buf, at, e, given, text)
}

// The fields of all values, in order.
pub fn put_values(
    buf: &mut [u8],
    at: usize,
    m: MsgType,
    values: &Values,
    text: &[u8],
) -> Option<usize>
    requires { (administrative m ≡ true) × (at + 760 ≤ length buf.old) }
    ensures { PutAll m (value_in values.now text.now) buf.old buf.new at result }
{
    let marks = marks_of(m);
    let mut to = at;
    for (k, slot) in SLOTS.iter().enumerate() {
        let e = Entry {
            tag: slot.0,
            kind: slot.1,
            own: bit(marks.own, k),
            needed: bit(marks.needed, k),
            value: values[k],
        };
        to = put_entry(buf, to, e, text)?;
    }
    Some(to)
}
