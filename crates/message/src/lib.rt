// The bytes of a message, put into a buffer from a place on: bytes, digits, fields, the frame around a body. Each function answers the place behind what it wrote.
// The buffer and the place stay two parameters: with a struct that holds both, each function would have to promise besides that the buffer in it is still the
// same one and as long as before, which a `&mut` parameter says by itself.
#![tactic(auto)]

mod fit;
mod given;

ghost use Rattle.std.proofs.Math.Option.{some};
ghost use Rattle.std.specs.Prelude.{IfSome, MatchOption, ◌≡◌, [], ◌∷◌, ◌++◌, ◌+◌, ◌/◌, ◌^◌, ◌≤◌, ◌<◌, cond, eqb, length, take};
ghost use Rattle.octets.specs.Bytes.{fix, decimal, padded};
ghost use Rattle.frame.specs.Frame.{fixt, front};
ghost use Rattle.message.specs.Message.{tagged, framed};
ghost use Rattle.message.specs.code.Given.{given_text};
ghost use Rattle.message.specs.Wrote.{Wrote};

pub use fit::is_fit;
use frame::trailer;
pub use given::FieldValue;
use octets::checksum;

pub fn put_byte(buf: &mut [u8], at: usize, b: u8) -> usize
    requires { at < length buf.old }
    ensures { Wrote buf.old buf.new at result (b ∷ []) }
{
    buf[at] = b;
    at + 1
}

// (Byte by byte: `copy_from_slice`, of a length that isn't known, would ask C's library for memmove.)
pub fn put_bytes(buf: &mut [u8], at: usize, s: &[u8]) -> usize
    requires { at + length s.now ≤ length buf.old }
    ensures { Wrote buf.old buf.new at result s.now }
{
    for i in 0..s.len() {
        buf[at + i] = s[i];
    }
    at + s.len()
}

// How many digits a number has. (Tags, lengths and counts have one or two mostly: a test each is less than a logarithm.)
pub fn width(n: u64) -> usize
    ensures { result ≡ length (decimal n) }
{
    if n < 10 {
        return 1;
    }
    if n < 100 {
        return 2;
    }
    1 + n.max(1).ilog10() as usize
}

// The last k digits of a number, the last one first; and the number without them.
#[inline(always)]
pub fn put_digits(buf: &mut [u8], at: usize, k: usize, n: u64) -> u64
    requires { at + k ≤ length buf.old }
    ensures bytes { Wrote buf.old buf.new at (at + k) (padded k n) }
    ensures rest { result ≡ n / 10 ^ k }
{
    let mut rest = n;
    for i in (0..k).rev() {
        buf[at + i] = (48 + rest % 10) as u8;
        rest /= 10;
    }
    rest
}

#[inline(always)]
pub fn put_decimal(buf: &mut [u8], at: usize, n: u64) -> usize
    requires { at + length (decimal n) ≤ length buf.old }
    ensures { Wrote buf.old buf.new at result (decimal n) }
{
    let k = width(n);
    put_digits(buf, at, k, n);
    at + k
}

// `tag=`
#[inline(always)]
pub fn put_tag(buf: &mut [u8], at: usize, tag: u64) -> usize
    requires { (tag < 100_000) × (at + 6 ≤ length buf.old) }
    ensures bytes { Wrote buf.old buf.new at result (decimal tag ++ fix "=") }
    ensures room { result ≤ at + 6 }
{
    let a = put_decimal(buf, at, tag);
    put_byte(buf, a, b'=')
}

// `tag=value|`.
pub fn put_field<V: FieldValue>(buf: &mut [u8], at: usize, tag: u64, v: V) -> usize
    requires { (tag < 100_000) × V.fits v × (at + V.room v + 7 ≤ length buf.old) }
    ensures bytes { Wrote buf.old buf.new at result (tagged tag (some (V.text v))) }
    ensures room { result ≤ at + V.room v + 7 }
{
    let a = put_tag(buf, at, tag);
    let b = v.put(buf, a);
    put_byte(buf, b, 1)
}

// The same, or nothing.
pub fn put_optional<V: FieldValue>(buf: &mut [u8], at: usize, tag: u64, v: Option<V>) -> usize
    requires { (tag < 100_000) × IfSome v (λ w. V.fits w × (at + V.room w + 7 ≤ length buf.old)) }
    ensures bytes { Wrote buf.old buf.new at result (tagged tag (given_text V.text v)) }
    ensures room { MatchOption v (result ≡ at) (λ w. result ≤ at + V.room w + 7) }
{
    match v {
        None => at,
        Some(w) => put_field(buf, at, tag, w),
    }
}

// The start mark, the body length, `|`, the body.
fn put_front(buf: &mut [u8], at: usize, body: &[u8]) -> usize
    requires { (length body.now ≤ 2048) × (at + length body.now + length (decimal (length body.now)) + 14 ≤ length buf.old) }
    ensures bytes { Wrote buf.old buf.new at result (front fixt (decimal (length body.now)) body.now) }
    ensures room { result ≡ at + length body.now + length (decimal (length body.now)) + 14 }
{
    let a = put_bytes(buf, at, b"8=FIXT.1.1\x019=");
    let b = put_decimal(buf, a, body.len() as u64);
    let c = put_byte(buf, b, 1);
    put_bytes(buf, c, body)
}

// How long the frame around a body of n bytes is.
pub fn frame_length(n: usize) -> usize
    requires { n ≤ 2048 }
    ensures { result ≡ n + length (decimal n) + 21 }
{
    n + width(n as u64) + 21
}

// The frame around a body.
pub fn put_frame(buf: &mut [u8], at: usize, body: &[u8]) -> usize
    requires { (length body.now ≤ 2048) × (at + length body.now + length (decimal (length body.now)) + 21 ≤ length buf.old) }
    ensures { Wrote buf.old buf.new at result (framed body.now) }
{
    let a = put_front(buf, at, body);
    let sum = checksum(&buf[at..a]);
    put_bytes(buf, a, &trailer(sum))
}
