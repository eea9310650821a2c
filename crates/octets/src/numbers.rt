// Decimal digits read.
ghost use Rattle.std.specs.Prelude.{◌≡◌, ◌+◌, ◌≤◌, length};
ghost use Rattle.octets.specs.code.Leaf.{digit_limit, Number, Digits};

// Decimal digits that stand in a row: how many, and what they are worth. (None of them is no `None`: with a count of 0 the value is 0.)
#[derive(Clone, Copy)]
pub struct Num {
    pub value: usize,
    pub count: usize,
}

// The decimal digits of s from at on, at most n of them, where n bytes are left: no end is looked for. A digit is a byte that is at most 9 above `0`.
pub fn row(s: &[u8], at: usize, n: usize) -> Num
    requires { (at + n ≤ length s.now) × (n ≤ digit_limit) }
    ensures { Number s.now at n result.value result.count }
{
    let mut v: usize = 0;
    for c in 0..n {
        let d = s[at + c].wrapping_sub(b'0');
        if 9 < d {
            return Num { value: v, count: c };
        }
        v = v * 10 + usize::from(d);
    }
    Num { value: v, count: n }
}

// The same where fewer bytes may be left.
pub fn number(s: &[u8], at: usize, most: usize) -> Num
    requires { (at ≤ length s.now) × (most ≤ digit_limit) }
    ensures { Number s.now at most result.value result.count }
{
    let left = s.len() - at;
    if left < most {
        return row(s, at, left);
    }
    row(s, at, most)
}

// The same for any place and any limit: no digits behind the end, and none above a limit of 12.
pub fn digits(s: &[u8], at: usize, most: usize) -> Num
    ensures { Digits s.now at most result }
{
    let none = Num { value: 0, count: 0 };
    if s.len() < at {
        return none;
    }
    if 12 < most {
        return none;
    }
    number(s, at, most)
}
