// The parts of a candidate: the mark, the body length, the body, the trailer, each looked at by a function of its own.
ghost use Rattle.std.specs.Prelude.{◌≡◌, ◌∷◌, ◌≤◌, length};
ghost use Rattle.octets.specs.code.Leaf.{word_at};
ghost use Rattle.frame.specs.Frame.{rule_of, trailer};
ghost use Rattle.frame.specs.Mark.{MarkOk};
ghost use Rattle.frame.specs.code.Walk.{MarkSeen, SizeSeen, BodySeen, Stepped, Told};

use octets::{checksum, holds, matched, number, stands, word};

// Why a candidate is left.
#[derive(Clone, Copy, PartialEq, Eq, Debug)]
pub enum Stop {
    // The bytes run out: the position is live.
    Short,
    // No good frame begins at this position, whatever follows, nor at any before this one.
    Wrong(usize),
}

// What stands behind the body length: the place, and what the length is worth.
#[derive(Clone, Copy)]
struct Size {
    at: usize,
    worth: usize,
}

// "the start mark". The mark goes by as a slice, with what is asked of it in each contract: as a struct with a ghost field it keeps the compiler from
// knowing its bytes in the search, and a reading is some 7 in 100 dearer.
fn step_mark(s: &[u8], p: usize, mark: &[u8]) -> Result<usize, Stop>
    requires mark_ok { MarkOk mark.now }
    requires p_in_bounds { p ≤ length s.now }
    ensures { Stepped (rule_of mark.now) s.now p (MarkSeen (rule_of mark.now) s.now p) result }
{
    let n = mark.len();
    if n <= s.len() - p {
        if stands(s, p, mark) {
            return Ok(p + n);
        }
        return Err(Stop::Wrong(p + 1));
    }
    let rest = s.len() - p;
    if matched(s, p, &mark[..rest]) == rest {
        return Err(Stop::Short);
    }
    Err(Stop::Wrong(p + 1))
}

// "the body length up to 6 digits with the value still 5 to 2,048", then `|`. Where the bytes end with the digits, or before the first, a further digit can
// still make them worth 5 or more, as long as one may follow.
fn step_size(s: &[u8], p: usize, a: usize, mark: &[u8]) -> Result<Size, Stop>
    requires mark_ok { MarkOk mark.now }
    requires mark_seen { MarkSeen (rule_of mark.now) s.now p a }
    ensures { Stepped (rule_of mark.now) s.now p (λ z. SizeSeen (rule_of mark.now) s.now p z.at z.worth) result }
{
    let n = number(s, a, 6);
    let count = n.count;
    let value = n.value;
    let e = a + count;
    if e == s.len() {
        if value <= 2048 {
            if count < 6 {
                return Err(Stop::Short);
            }
            if 5 <= value {
                return Err(Stop::Short);
            }
        }
        return Err(Stop::Wrong(a));
    }
    if s[e] != 1 {
        return Err(Stop::Wrong(a));
    }
    if value < 5 {
        return Err(Stop::Wrong(a));
    }
    if 2048 < value {
        return Err(Stop::Wrong(a));
    }
    Ok(Size {
        at: e + 1,
        worth: value,
    })
}

// "a body of that many bytes that begins `35=` and ends with `|`", with no second mark in it. None begins with the `3`, since no mark's second byte is a digit.
fn step_fields(s: &[u8], p: usize, a: usize, n: usize, mark: &[u8]) -> Result<usize, Stop>
    requires mark_ok { MarkOk mark.now }
    requires size_seen { SizeSeen (rule_of mark.now) s.now p a n }
    ensures { Stepped (rule_of mark.now) s.now p (BodySeen (rule_of mark.now) s.now p) result }
{
    let m = matched(s, a, b"35=");
    let end = s.len();
    if m < 3 {
        if a + m == end {
            return Err(Stop::Short);
        }
        return Err(Stop::Wrong(a));
    }
    if end - a < n {
        let q = holds(s, a + 1, end, mark);
        if q < end {
            return Err(Stop::Wrong(q));
        }
        return Err(Stop::Short);
    }
    let e = a + n;
    if s[e - 1] != 1 {
        return Err(Stop::Wrong(a));
    }
    let q = holds(s, a + 1, e, mark);
    if q < e {
        return Err(Stop::Wrong(q));
    }
    Ok(e)
}

// "`10=`, three digits, `|`" of a sum.
pub fn trailer(sum: u8) -> [u8; 7]
    ensures { result ≡ trailer sum }
{
    [
        b'1',
        b'0',
        b'=',
        b'0' + sum / 100,
        b'0' + sum / 10 % 10,
        b'0' + sum % 10,
        1,
    ]
}

// `|` and the trailer, as one number.
fn trailer_word(v: u8) -> u64
    ensures { result ≡ word_at (1 ∷ trailer v) 0 }
{
    85621376663171329
        + u64::from(v / 100) * 4294967296
        + u64::from(v / 10 % 10) * 1099511627776
        + u64::from(v % 10) * 281474976710656
}

// "then `10=`, three digits, `|`. The three digits are the sum of all bytes before `10=`, modulo 256."
fn step_tail(s: &[u8], p: usize, a: usize, mark: &[u8]) -> Result<usize, Stop>
    requires mark_ok { MarkOk mark.now }
    requires body_seen { BodySeen (rule_of mark.now) s.now p a }
    ensures { Told (rule_of mark.now) s.now p result }
{
    let v = checksum(&s[p..a]);
    if 7 <= s.len() - a {
        if word(s, a - 1) == trailer_word(v) {
            return Ok(a + 7);
        }
        return Err(Stop::Wrong(a + 1 - mark.len()));
    }
    let m = matched(s, a, &trailer(v));
    if a + m == s.len() {
        return Err(Stop::Short);
    }
    Err(Stop::Wrong(a + 1 - mark.len()))
}

// The parts of a candidate at p, one behind the other.
pub fn look(s: &[u8], p: usize, mark: &[u8]) -> Result<usize, Stop>
    requires mark_ok { MarkOk mark.now }
    requires p_in_bounds { p ≤ length s.now }
    ensures { Told (rule_of mark.now) s.now p result }
{
    let a = step_mark(s, p, mark)?;
    let size = step_size(s, p, a, mark)?;
    let e = step_fields(s, p, size.at, size.worth, mark)?;
    step_tail(s, p, e, mark)
}
