// Whether bytes are a time as our messages carry it: from 1970 on, six decimals, no second 60.
#![tactic(auto)]

ghost use Rattle.std.specs.Prelude.{◌≡◌};
ghost use Rattle.stamps.specs.code.Stamp.{is_stamp};

use dates::judge_time;

#[tactic(auto, using(crate::proofs::Judged::tests))]
pub fn is_stamp(v: &[u8]) -> bool
    ensures { result ≡ is_stamp v.now }
{
    if v.len() != 24 {
        return false;
    }
    let Ok(()) = judge_time(v) else {
        return false;
    };
    // No second 60.
    if b'6' <= v[15] {
        return false;
    }
    // The year is 1970 or later: in 19xx the third digit is 7 or more.
    if b'2' <= v[0] {
        return true;
    }
    if v[0] < b'1' {
        return false;
    }
    if v[1] < b'9' {
        return false;
    }
    b'7' <= v[2]
}
