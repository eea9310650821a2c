// Group 453: the number of parties, and the 448, 447 and 452 of each.
ghost use Rattle.std.specs.Prelude.{◌+◌, ◌*◌, ◌≤◌, length};
ghost use Rattle.report.specs.Values.{members, group};
ghost use Rattle.report.specs.Layout.{word, parties_from};
ghost use Rattle.report.specs.code.Puts.{Puts, Within};

use crate::Given;
use crate::pieces::put_value;
use kinds::{Choice, Kind};
use message::put_field;

// The i-th party.
fn put_party(body: &mut [u8], at: usize, given: Given, i: usize) -> Option<usize>
    requires { (i ≤ 7) × (at + 52 ≤ length body.old) }
    ensures bytes { Puts body.old body.new at result (members (parties_from given.entry.words.now given.entry.text.now i 1)) }
    ensures room { Within result (at + 50) }
{
    let w = 34 + 6 * i;
    let a = put_value(body, at, 448, given, w, Kind::Text { most: 32 })?;
    let b = put_value(body, a, 447, given, w + 2, Kind::OneOf(Choice::D))?;
    put_value(body, b, 452, given, w + 4, Kind::OneOf(Choice::Roles))
}

// All parties; nothing with none, and unfit with more than eight, before any is looked at.
pub fn put_parties(body: &mut [u8], at: usize, given: Given) -> Option<usize>
    requires { at + 418 ≤ length body.old }
    ensures bytes { Puts body.old body.new at result (group (parties_from given.entry.words.now given.entry.text.now 0 (word given.entry.words.now given.entry.text.now 33))) }
    ensures room { Within result (at + 416) }
{
    let n = given.words[33];
    if n == 0 {
        return Some(at);
    }
    if 8 < n {
        return None;
    }
    let mut to = put_field(body, at, 453, n);
    for i in 0..n as usize {
        to = put_party(body, to, given, i)?;
    }
    Some(to)
}
