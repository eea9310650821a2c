// Times as they come: the parts of a time, and which of two is the later.
ghost use Rattle.std.specs.Prelude.{◌≡◌, ◌+◌, ◌≤◌, length};
ghost use Rattle.calendar.specs.Later.{decimals, moment_of, read_time, later};
ghost use Rattle.calendar.specs.code.Timed.{digits_at, Timed, NumberAt};

use dates::judge_time;
use octets::row;

// The parts of a time, in the order in which they decide which of two is the later.
#[derive(Clone, Copy, PartialEq, Eq, PartialOrd, Ord, Debug)]
pub struct Moment {
    pub year: u32,
    pub month: u32,
    pub day: u32,
    pub hour: u32,
    pub minute: u32,
    pub second: u32,
    pub micros: u32,
}

// A time that keeps its form and the calendar; none of other bytes.
pub fn read_time(v: &[u8]) -> Option<Moment>
    ensures { result ≡ read_time v.now }
{
    let Ok(()) = judge_time(v) else {
        return None;
    };
    Some(moment_of(v))
}

fn moment_of(v: &[u8]) -> Moment
    requires { Timed v.now }
    ensures { result ≡ moment_of v.now }
{
    Moment {
        year: number_at(v, 0, 4),
        month: number_at(v, 4, 2),
        day: number_at(v, 6, 2),
        hour: number_at(v, 9, 2),
        minute: number_at(v, 12, 2),
        second: number_at(v, 15, 2),
        micros: micros_of(v),
    }
}

// The number that n digits write, from place i on.
fn number_at(v: &[u8], i: usize, n: usize) -> u32
    requires { (i + n ≤ length v.now) × (n ≤ 6) × digits_at i n v.now }
    ensures { NumberAt v.now i n result }
{
    row(v, i, n).value as u32
}

// The decimals as microseconds: six, three, or none.
fn micros_of(v: &[u8]) -> u32
    requires { Timed v.now }
    ensures { result ≡ decimals v.now }
{
    let n = v.len();
    if n == 24 {
        return number_at(v, 18, 6);
    }
    if n == 21 {
        return number_at(v, 18, 3) * 1000;
    }
    0
}

// Whether a is later than b.
pub fn is_later(a: Moment, b: Moment) -> bool
    ensures { result ≡ later a b }
{
    b < a
}
