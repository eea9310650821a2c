// The date of a day, by divisions: no walk over years or months.
ghost use Rattle.std.specs.Prelude.{◌≡◌, ◌*◌, ◌<◌, ◌≤◌};
ghost use Rattle.calendar.specs.Time.{date_of, in_year, year_days};
ghost use Rattle.calendar.specs.code.Walk.{InYear, Split, Evened};

use dates::is_leap;

// A day of the calendar.
#[derive(Clone, Copy)]
pub struct Date {
    pub year: u64,
    pub month: u64,
    pub day: u64,
}

// The date of the day d behind 1 January 1970.
pub fn date_of(d: u64) -> Date
    requires { d < 2_932_897 }
    ensures { result ≡ date_of d }
{
    let y = year_of(d + 719_162);
    month_of(y.year, y.day)
}

// A year, and how many days behind its first.
#[derive(Clone, Copy)]
struct Place {
    year: u64,
    day: u64,
}

// The year of the day d behind 1 January 0001: first by 400 years, then by centuries, by four years and by years.
fn year_of(d: u64) -> Place
    requires { d < 3_652_059 }
    ensures { InYear d result.year result.day }
{
    let a = d / 146_097;
    let b = split(36_524, d % 146_097);
    let c = b.rest / 1461;
    let e = split(365, b.rest % 1461);
    Place {
        year: 400 * a + 100 * b.count + 4 * c + e.count + 1,
        day: e.rest,
    }
}

// Spans of n days each, and the days left over.
#[derive(Clone, Copy)]
struct Spans {
    count: u64,
    rest: u64,
}

// The spans of n days in the day r of four of them, of which the last has one day more. (Each of the four by comparison: a division would give a fifth for that day.)
fn split(n: u64, r: u64) -> Spans
    requires { (n < 100_000) × (r ≤ 4 * n) }
    ensures { Split n r result.count result.rest }
{
    if r < n {
        return Spans { count: 0, rest: r };
    }
    if r < 2 * n {
        return Spans {
            count: 1,
            rest: r - n,
        };
    }
    if r < 3 * n {
        return Spans {
            count: 2,
            rest: r - 2 * n,
        };
    }
    Spans {
        count: 3,
        rest: r - 3 * n,
    }
}

// The date of the year y that lies d days behind its first. With a February of 30 days the months would begin 367/12 days apart, rounded
// down, so that a division finds the month.
fn month_of(y: u64, d: u64) -> Date
    requires { d < year_days y }
    ensures { result ≡ in_year (y, d) }
{
    let e = even(d, is_leap(y));
    let m = (12 * e + 6) / 367;
    Date {
        year: y,
        month: m + 1,
        day: e + 1 - (367 * m + 5) / 12,
    }
}

// The day d of a year as if February had 30 days.
fn even(d: u64, leap: bool) -> u64
    requires { d < 366 }
    ensures { Evened d leap result }
{
    if d < 59 {
        return d;
    }
    if !leap {
        return d + 2;
    }
    if d < 60 {
        return d;
    }
    d + 1
}
