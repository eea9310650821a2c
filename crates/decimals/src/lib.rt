// A decimal as a whole number and a number of places: 12.50 is 1250 with 2 places.
#![tactic(auto)]

ghost use Rattle.std.specs.Prelude.{◌≡◌, ◌≤◌, ◌<◌, length};
ghost use Rattle.decimals.specs.Decimal.{decimal_of, ranged_of};
ghost use Rattle.decimals.specs.code.Scan.{Ran, More, Leads, Placed};

use fault::Fault;

// The least whole number that is out of range.
const LIMIT: u64 = 1_000_000_000_000_000;

#[derive(Clone, Copy, PartialEq, Eq, Debug)]
pub struct Decimal {
    pub whole: u64,
    pub places: usize,
}

// Digits that stand in a row: where they end, and the number that they write.
#[derive(Clone, Copy)]
struct Run {
    pub end: usize,
    pub value: u64,
}

// One digit more behind a number; a number that is out of range stays.
fn more(w: u64, c: u8) -> u64
    requires { (w < 10_000_000_000_000_000) × ((48 ≤ c) × (c ≤ 57)) }
    ensures { More w c result }
{
    if w < LIMIT {
        return w * 10 + u64::from(c - b'0');
    }
    w
}

// The digits of v from a place on, behind the number that is written before them. (By the place, which is what is asked for: a `for` would count it beside.)
fn row_of(v: &[u8], from: usize, before: u64) -> Run
    requires { (from ≤ length v.now) × (before < 10_000_000_000_000_000) }
    ensures { Ran v.now from before result }
{
    let mut i = from;
    let mut w = before;
    while i < v.len() {
        if !v[i].is_ascii_digit() {
            return Run { end: i, value: w };
        }
        w = more(w, v[i]);
        i += 1;
    }
    Run { end: i, value: w }
}

// The decimal that the bytes write: digits without leading zero but a lone 0, then a point only if places follow.
#[tactic(auto, using(crate::proofs::Making::zeros))]
pub fn read_decimal(v: &[u8]) -> Result<Decimal, Fault>
    ensures { result ≡ decimal_of v.now }
{
    let a = row_of(v, 0, 0);
    let k = a.end;
    if k == 0 {
        return Err(Fault::Form);
    }
    if v[0] == b'0' && k != 1 {
        return Err(Fault::Form);
    }
    places(v, k, a.value)
}

// What stands behind the digits that a decimal begins with.
fn places(v: &[u8], k: usize, value: u64) -> Result<Decimal, Fault>
    requires { Leads v.now k value }
    ensures { Placed v.now result }
{
    let n = v.len();
    if k == n {
        return ranged(value, 0);
    }
    if v[k] != b'.' {
        return Err(Fault::Form);
    }
    let b = row_of(v, k + 1, value);
    if b.end != n {
        return Err(Fault::Form);
    }
    if b.end == k + 1 {
        return Err(Fault::Form);
    }
    ranged(b.value, b.end - (k + 1))
}

fn ranged(whole: u64, places: usize) -> Result<Decimal, Fault>
    ensures { result ≡ ranged_of whole places }
{
    if LIMIT <= whole || 8 < places {
        return Err(Fault::Value);
    }
    Ok(Decimal { whole, places })
}
