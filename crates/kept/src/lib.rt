// Which report a place of the store holds, by its number; and that number read alone, where it stands.
#![tactic(auto)]

mod ids;

ghost use Rattle.std.specs.Prelude.{◌≡◌, ◌+◌, ◌-◌, ◌%◌, ◌≤◌, length, take, replicate};
ghost use Rattle.octets.specs.Bytes.{sum};
ghost use Rattle.octets.specs.code.Leaf.{Standing};
ghost use Rattle.frame.specs.Frame.{trailer};
ghost use Rattle.kept.specs.Kept.{held, number_of};
ghost use Rattle.kept.specs.code.Peeked.{Peeked};
ghost use Rattle.kept.specs.code.Walk.{Tells, Headed, Ended, Filled};

pub use ids::CompIds;
use listed::is_listed;
use octets::{checksum, row, stands};
use stamps::is_stamp;

// The number that a report in this place has, if it holds one: behind mark, length, 35, 49 and 56, whose CompIDs have so many bytes together.
pub fn peek_number(place: &[u8], ids: usize) -> u64
    requires { (length place.now ≡ 512) × (ids ≤ 22) }
    ensures { Peeked place.now ids result }
{
    let n = row(place, 34 + ids, 9);
    n.value as u64
}

// Whether these bytes stand at a place.
fn stands_at(place: &[u8], at: usize, label: &[u8]) -> bool
    requires { at + length label.now ≤ length place.now }
    ensures { Standing place.now at label.now result }
{
    for (i, b) in label.iter().enumerate() {
        if place[at + i] != *b {
            return false;
        }
    }
    true
}

// Whether a place begins as every report between these CompIDs does: the mark, and behind the length 35, 49, 56 and `34=`.
// (One return for each part, here and in `is_filled`: each part's place is that of the one before with its length.)
#[tactic(auto, using(crate::proofs::Few::short))]
fn is_headed(place: &[u8], ids: &CompIds) -> bool
    requires { length place.now ≡ 512 }
    ensures { Tells (Headed ids.now.us.now ids.now.them.now place.now) result }
{
    if !stands(place, 0, b"8=FIXT.1.1\x019=") {
        return false;
    }
    if !stands(place, 16, b"\x0135=AE\x0149=") {
        return false;
    }
    let us = ids.us;
    let a = 26 + us.len();
    if !stands_at(place, 26, us) {
        return false;
    }
    if !stands_at(place, a, b"\x0156=") {
        return false;
    }
    let them = ids.them;
    let b = a + 4;
    if !stands_at(place, b, them) {
        return false;
    }
    stands_at(place, b + them.len(), b"\x0134=")
}

// The length of the frame that a place begins with, by the three digits of its body's length, if they fit the place. Every report's body has more than 99
// bytes.
fn frame_end(place: &[u8]) -> Option<usize>
    requires { length place.now ≡ 512 }
    ensures { Ended place.now result }
{
    let body = row(place, 13, 3);
    match body.value {
        100..=488 => Some(body.value + 24),
        _ => None,
    }
}

// Whether the last seven bytes before n are the trailer of those before.
fn is_summed(place: &[u8], n: usize) -> bool
    requires { (7 ≤ n) × (n ≤ length place.now) }
    ensures { Standing place.now (n - 7) (trailer (sum (take (n - 7) place.now) % 256)) result }
{
    let at = n - 7;
    let s = checksum(&place[..at]);
    stands_at(place, at, &frame::trailer(s))
}

// Whether all bytes from n on are zero. The loop has no way out, so the compiler looks at sixteen bytes at once.
fn is_zero_from(place: &[u8], n: usize) -> bool
    requires { n ≤ length place.now }
    ensures { Standing place.now n (replicate (length place.now - n) 0) result }
{
    let mut zeros = true;
    for b in &place[n..] {
        zeros &= *b == 0;
    }
    zeros
}

// Whether a place holds from `|52=` on what a report of n bytes does: a time, the report's own fields up to the trailer, and zeros behind.
fn is_filled(place: &[u8], at: usize, n: usize) -> bool
    requires { (length place.now ≡ 512) × (1 ≤ at) × (at ≤ 512) × (n ≤ 512) }
    ensures { Tells (Filled place.now at n) result }
{
    if n < at + 36 {
        return false;
    }
    if !stands_at(place, at, b"\x0152=") {
        return false;
    }
    if !is_stamp(&place[at + 4..at + 28]) {
        return false;
    }
    if place[at + 28] != 1 {
        return false;
    }
    if !is_listed(&place[at + 29..n - 7]) {
        return false;
    }
    if !is_summed(place, n) {
        return false;
    }
    is_zero_from(place, n)
}

// The number of the report that a place holds, if it holds one: the frame, its header and its fields as our call writes them, zeros behind.
pub fn kept_number(place: &[u8], ids: &CompIds) -> Option<u64>
    requires { length place.now ≡ 512 }
    ensures { result ≡ number_of (held ids.now.us.now ids.now.them.now place.now) }
{
    if !is_headed(place, ids) {
        return None;
    }
    let at = 34 + ids.us.len() + ids.them.len();
    let n = row(place, at, 9);
    if n.value == 0 {
        return None;
    }
    if place[at] == b'0' {
        return None;
    }
    if 999_999_990 < n.value {
        return None;
    }
    let end = frame_end(place)?;
    if !is_filled(place, at + n.count, end) {
        return None;
    }
    Some(n.value as u64)
}
