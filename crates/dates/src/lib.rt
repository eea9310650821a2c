// Days and times: the shape of their bytes (6), and the calendar (5).
#![tactic(auto)]

ghost use Rattle.std.specs.Prelude.{◌≡◌, ◌+◌, ◌≤◌, true, length, take, if◌then◌else◌};
ghost use Rattle.octets.specs.Bytes.{fix};
ghost use Rattle.fault.specs.Fault.{Tells};
ghost use Rattle.dates.specs.Date.{like, days, leap, is_time, good_day, day_found, time_found};
ghost use Rattle.dates.specs.code.Scan.{stands_for, Digits, TwoAt, is_day_of, is_clock_of};

use fault::Fault;

// `YYYYMMDD-HH:MM:SS`, alone or with 3 or 6 decimals.
pub fn judge_time(v: &[u8]) -> Result<(), Fault>
    ensures { Tells result (time_found v.now) }
{
    if v.len() < 17 {
        return Err(Fault::Form);
    }
    if !shaped(&v[..16], b"YYYYMMDD-HH:MM:S") {
        return Err(Fault::Form);
    }
    if !fraction(v) {
        return Err(Fault::Form);
    }
    if !has_day(v) {
        return Err(Fault::Value);
    }
    if !is_clock(two(v, 9), two(v, 12), two(v, 15)) {
        return Err(Fault::Value);
    }
    Ok(())
}

// `YYYYMMDD`.
pub fn judge_day(v: &[u8]) -> Result<(), Fault>
    ensures { Tells result (day_found v.now) }
{
    if v.len() != 8 {
        return Err(Fault::Form);
    }
    if !shaped(v, b"YYYYMMDD") {
        return Err(Fault::Form);
    }
    if !has_day(v) {
        return Err(Fault::Value);
    }
    Ok(())
}

// The rest of a time whose first 16 bytes are known: by its length, the last eight bytes or the last one.
fn fraction(v: &[u8]) -> bool
    requires { (17 ≤ length v.now) × (like (fix "YYYYMMDD-HH:MM:S") (take 16 v.now) ≡ true) }
    ensures { result ≡ is_time v.now }
{
    match v.len() {
        24 => shaped(&v[16..], b"S.ssssss"),
        21 => shaped(&v[13..], b"M:SS.sss"),
        17 => stands_for(b'S', v[16]),
        _ => false,
    }
}

// Bytes compared with a shape of as many. The loop has no early exit, so all of them are compared at once.
fn shaped(v: &[u8], shape: &[u8]) -> bool
    requires { length v.now ≡ length shape.now }
    ensures { result ≡ like shape.now v.now }
{
    let mut fits = true;
    for (s, x) in shape.iter().zip(v) {
        fits &= stands_for(*s, *x);
    }
    fits
}

// A letter of a shape stands for a digit, another byte for itself.
fn stands_for(s: u8, x: u8) -> bool
    ensures { result ≡ stands_for s x }
{
    if b'A' <= s {
        return x.is_ascii_digit();
    }
    x == s
}

// Whether the calendar has the day that the first eight bytes write.
fn has_day(v: &[u8]) -> bool
    requires { (8 ≤ length v.now) × (like (fix "YYYYMMDD") (take 8 v.now) ≡ true) }
    ensures { result ≡ good_day v.now }
{
    is_day(two(v, 0) * 100 + two(v, 2), two(v, 4), two(v, 6))
}

// The number that two digits write.
fn two(v: &[u8], i: usize) -> u32
    requires { (i + 2 ≤ length v.now) × Digits v.now i }
    ensures { TwoAt v.now i result }
{
    u32::from(v[i] - b'0') * 10 + u32::from(v[i + 1] - b'0')
}

// A day of the Gregorian calendar.
fn is_day(y: u32, m: u32, d: u32) -> bool
    requires { y ≤ 9999 }
    ensures { result ≡ is_day_of y m d }
{
    1 <= y && 1 <= m && m <= 12 && 1 <= d && d <= days_in(y, m)
}

fn days_in(y: u32, m: u32) -> u32
    requires { (1 ≤ m) × (m ≤ 12) }
    ensures { result ≡ days y m }
{
    match m {
        2 => february(y),
        4 | 6 | 9 | 11 => 30,
        _ => 31,
    }
}

fn february(y: u32) -> u32
    ensures { result ≡ (if leap y then 29 else 28) }
{
    if is_leap(u64::from(y)) { 29 } else { 28 }
}

pub fn is_leap(y: u64) -> bool
    ensures { result ≡ leap y }
{
    (y % 4 == 0 && y % 100 != 0) || y % 400 == 0
}

// A time of day; second 60 stands in any minute.
fn is_clock(h: u32, m: u32, s: u32) -> bool
    ensures { result ≡ is_clock_of h m s }
{
    h <= 23 && m <= 59 && s <= 60
}
