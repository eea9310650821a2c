// The good frame: one reading of a byte string, whether bytes are one good frame, and its body.
#![tactic(auto)]

mod parts;

ghost use Rattle.frame.specs.Frame.{rule_of, fixt, Whether, BodyFound};
ghost use Rattle.frame.specs.Reading.{ReadsAs, Handed};
ghost use Rattle.frame.specs.Mark.{MarkOk};
ghost use Rattle.frame.specs.code.Walk.{FoundAt};

use octets::{next_start, number};
pub use parts::trailer;
use parts::{Stop, look};

// The leftmost good frame of some bytes: how many are skipped before it, and how many it has.
#[derive(Clone, Copy, PartialEq, Eq, Debug)]
pub struct Found {
    pub skip: usize,
    pub len: usize,
}

// The same as that part of the caller's bytes.
#[derive(Clone, Copy)]
pub struct Part<'a> {
    pub skip: usize,
    pub frame: &'a [u8],
}

// Refusal 1, with the bytes to drop.
#[derive(Clone, Copy, PartialEq, Eq, Debug)]
pub struct NoFrame {
    pub drop: usize,
}

// `8=FIXT.1.1|9=`
const FIXT: [u8; 13] = [56, 61, 70, 73, 88, 84, 46, 49, 46, 49, 1, 57, 61];

// The leftmost good frame of s under a mark: its length, with the bytes before it in `at`; or 0, with the bytes to drop in `at`. In this form the answer
// goes by registers: as a `Result` it goes through memory, and a reading is 3 in 100 dearer.
//
// Linear in s, whatever its bytes are: next_start passes each byte once, by the mark's fifth byte, the `X` of FIX, and looks a bounded way ahead for
// each place of it; a candidate that isn't a whole mark is left within the mark's length; and a body is scanned at most up to the next mark, which is
// where the search goes on, so that but for the last bytes of a body, fewer than the mark has, no byte is in more than one body scan.
fn read_with(s: &[u8], mark: &[u8], at: &mut usize) -> usize
    requires { MarkOk mark.now }
    ensures { FoundAt (rule_of mark.now) s.now result at.new }
{
    let n = s.len();
    let x = mark[4];
    let mut p = 0;
    let found = 'positions: loop {
        let q = next_start(s, p, x);
        if n <= q {
            *at = n;
            break 'positions 0;
        }
        match look(s, q, mark) {
            Ok(e) => {
                *at = q;
                break 'positions e - q;
            }
            Err(Stop::Wrong(next)) => p = next,
            Err(Stop::Short) => {
                *at = q;
                break 'positions 0;
            }
        }
    };
    found
}

// One reading: the leftmost good frame of s as that part of s, or refusal 1.
pub fn read<'a>(s: &'a [u8]) -> Result<Part<'a>, NoFrame>
    ensures { Handed fixt s.now result }
{
    let mut at: usize = 0;
    let len = read_with(s, &FIXT, &mut at);
    if len == 0 {
        return Err(NoFrame { drop: at });
    }
    let frame = &s[at..at + len];
    Ok(Part { skip: at, frame })
}

// The same in numbers alone.
pub fn reading_of(s: &[u8]) -> Result<Found, NoFrame>
    ensures { ReadsAs fixt s.now result }
{
    let Part { skip, frame } = read(s)?;
    let len = frame.len();
    Ok(Found { skip, len })
}

// Whether s is exactly one good frame.
pub fn is_frame(s: &[u8]) -> bool
    ensures { Whether fixt s.now result }
{
    match read(s) {
        Ok(Part { skip, frame }) => skip == 0 && frame.len() == s.len(),
        Err(_) => false,
    }
}

// The body of exactly one good frame, as that part of f.
pub fn body_of<'a>(f: &'a [u8]) -> Option<&'a [u8]>
    ensures { BodyFound fixt f.now result }
{
    if !is_frame(f) {
        return None;
    }
    let a = 14 + number(f, 13, 6).count;
    Some(&f[a..f.len() - 7])
}
