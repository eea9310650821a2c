// Times in UTC: from microseconds since 1970 to the bytes `YYYYMMDD-HH:MM:SS.ssssss`; and, of times that come, which of two is the later.
#![tactic(auto)]

mod days;
mod moments;

ghost use Rattle.std.specs.Prelude.{◌≡◌, [], ◌∷◌, ◌<◌, ◌≤◌};
ghost use Rattle.calendar.specs.Time.{utc, utc_or_last, limit, text};
ghost use Rattle.octets.specs.Bytes.{padded};

use days::{Date, date_of};
pub use moments::{Moment, is_later, read_time};

// The time of a microsecond since 1970; past the year 9999, that of its last microsecond.
#[tactic(auto, using(crate::proofs::Texts::utc_before, crate::proofs::Texts::utc_past))]
pub fn utc(micros: u64) -> [u8; 24]
    ensures { result ≡ utc_or_last micros }
{
    if micros < 253_402_300_800_000_000 {
        return before_limit(micros);
    }
    before_limit(253_402_300_799_999_999)
}

fn before_limit(t: u64) -> [u8; 24]
    requires { t < limit }
    ensures { result ≡ utc t }
{
    let seconds = t / 1_000_000;
    let date = date_of(seconds / 86_400);
    written(date, seconds % 86_400, t % 1_000_000)
}

// A date, a second of the day and a microsecond of the second. (Two of three belong to no other function, so that they have no struct of their own.)
fn written(date: Date, second: u64, micros: u64) -> [u8; 24]
    requires { (date.year ≤ 9999) × (date.month ≤ 12) × (date.day ≤ 31) × (second < 86_400) × (micros < 1_000_000) }
    ensures { result ≡ text date second micros }
{
    let year = date.year as u32;
    let second = second as u32;
    let micros = micros as u32;
    let c = two(year / 100);
    let y = two(year % 100);
    let m = two(date.month as u32);
    let d = two(date.day as u32);
    let h = two(second / 3600);
    let i = two(second / 60 % 60);
    let s = two(second % 60);
    let p = two(micros / 10_000);
    let q = two(micros / 100 % 100);
    let r = two(micros % 100);
    [
        c.0, c.1, y.0, y.1, m.0, m.1, d.0, d.1, b'-', h.0, h.1, b':', i.0, i.1, b':', s.0, s.1,
        b'.', p.0, p.1, q.0, q.1, r.0, r.1,
    ]
}

// The two digits of n. They are the two bytes of one number, n / 10 below and n % 10 above, so that they are stored at once.
fn two(n: u32) -> (u8, u8)
    requires { n < 100 }
    ensures { result.0 ∷ result.1 ∷ [] ≡ padded 2 n }
{
    let x = 256 * n + 12_336 - 2559 * (n / 10);
    ((x % 256) as u8, (x / 256) as u8)
}
