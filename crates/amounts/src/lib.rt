// An amount put into a buffer: its digits, and a point before the last of them where there are places.
#![tactic(auto)]

ghost use Rattle.std.specs.Prelude.{◌+◌, ◌≤◌, length};
ghost use Rattle.message.specs.Wrote.{Wrote};
ghost use Rattle.amounts.specs.Amount.{pointing};

use message::{put_decimal, put_digits, width};

// The text of a whole number with so many places, behind a place of a buffer. What stands behind the point comes first; a lone 0 stands before it if no other
// digit does.
#[tactic(auto, using(crate::proofs::Placing::fifteen))]
pub fn put_amount(buf: &mut [u8], at: usize, whole: u64, places: u64) -> usize
    requires { (whole ≤ 999_999_999_999_999) × (places ≤ 8) × (at + 24 ≤ length buf.old) }
    ensures bytes { Wrote buf.old buf.new at result (pointing whole places) }
    ensures room { result ≤ at + 24 }
{
    if places == 0 {
        return put_decimal(buf, at, whole);
    }
    let p = places as usize;
    let before = width(whole).saturating_sub(p).max(1);
    let point = at + before;
    let behind = point + 1;
    let front = put_digits(buf, behind, p, whole);
    buf[point] = b'.';
    put_digits(buf, at, before, front);
    behind + p
}
