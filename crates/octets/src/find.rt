// A byte and a row of bytes looked for.
ghost use Rattle.std.specs.Prelude.{◌≡◌, ◌+◌, ◌-◌, ◌<◌, ◌≤◌, length};
ghost use Rattle.octets.specs.Bytes.{has};
ghost use Rattle.octets.specs.code.Leaf.{FirstByte, Calm, CalmTo, NextStart, Around, Searched};

use crate::compare::stands;

// Whether a byte stands among others.
pub fn has(s: &[u8], x: u8) -> bool
    ensures { result ≡ has s.now x }
{
    s.contains(&x)
}

// Whether none of the n bytes from i on is x. The loop has no way out, so the compiler compares sixteen bytes at once.
pub fn calm(s: &[u8], i: usize, n: usize, x: u8) -> bool
    requires { i + n ≤ length s.now }
    ensures { Calm s.now i n x result }
{
    let mut none = true;
    for k in 0..n {
        if s[i + k] == x {
            none = false;
        }
    }
    none
}

// The first place from a on at which x stands before e, or e: byte by byte, four to a turn, which no `for` steps by. The end e is the answer where there
// is none, here and below, and no `None`: it is the place from which every caller goes on.
pub fn byte_from(s: &[u8], a: usize, e: usize, x: u8) -> usize
    requires { (a ≤ e) × (e ≤ length s.now) }
    ensures { FirstByte s.now a e x result }
{
    let mut i = a;
    while 4 <= e - i {
        if s[i] == x {
            return i;
        }
        if s[i + 1] == x {
            return i + 1;
        }
        if s[i + 2] == x {
            return i + 2;
        }
        if s[i + 3] == x {
            return i + 3;
        }
        i += 4;
    }
    while i < e {
        if s[i] == x {
            return i;
        }
        i += 1;
    }
    i
}

// Goes on from a by n bytes at a time, as long as so many are left before e and x is not among them. The place is what is answered, so it is counted here
// and by no `for`.
fn calm_to(s: &[u8], a: usize, e: usize, x: u8, n: usize) -> usize
    requires { (0 < n) × ((a ≤ e) × (e ≤ length s.now)) }
    ensures { CalmTo s.now a e x result }
{
    let mut i = a;
    while n <= e - i {
        if !calm(s, i, n, x) {
            return i;
        }
        i += n;
    }
    i
}

// The first place from a on at which x stands before e, or e. Sixteen bytes are looked at first, since x may be near; then blocks, the long ones
// first. Of the last bytes, fewer than sixteen, the last sixteen before e tell whether x is among them. All of s is cut out anew, so that it goes by
// registers, as in `checksum`.
fn find_byte(s: &[u8], a: usize, e: usize, x: u8) -> usize
    requires { (a ≤ e) × (e ≤ length s.now) }
    ensures { FirstByte s.now a e x result }
{
    let s = &s[..];
    if e - a < 16 {
        return byte_from(s, a, e, x);
    }
    if !calm(s, a, 16, x) {
        return byte_from(s, a, e, x);
    }
    let b = calm_to(s, a + 16, e, x, 128);
    let c = calm_to(s, b, e, x, 32);
    let d = calm_to(s, c, e, x, 16);
    if 16 <= e - d {
        return byte_from(s, d, e, x);
    }
    if calm(s, e - 16, 16, x) {
        return e;
    }
    byte_from(s, d, e, x)
}

// The next place from p on at which a row of bytes with the fifth byte x may begin: p itself in the usual case, which is therefore looked at first. The
// last four places are left to the row's own comparison.
pub fn next_start(s: &[u8], p: usize, x: u8) -> usize
    requires { p ≤ length s.now }
    ensures { NextStart s.now p x result }
{
    let n = s.len();
    if n - p <= 4 {
        return p;
    }
    let j = p + 4;
    if s[j] == x {
        return p;
    }
    let k = find_byte(s, j + 1, n, x);
    k - 4
}

// Whether lit stands whole between a and e with its fifth byte at j.
fn stands_around(s: &[u8], a: usize, e: usize, j: usize, lit: &[u8]) -> bool
    requires { ((j < e) × (e ≤ length s.now)) × ((8 ≤ length lit.now) × (length lit.now ≤ 16)) }
    ensures { Around s.now a e j lit.now result }
{
    if j < 4 {
        return false;
    }
    let q = j - 4;
    if q < a {
        return false;
    }
    if e - q < lit.len() {
        return false;
    }
    stands(s, q, lit)
}

// The first place from a on at which lit stands whole before e, or e. Its fifth byte is what is looked for: in a start mark that is the `X` of FIX,
// which is rare in a body. Each byte is passed by find_byte once; for each place of that byte it looks at fewer than 400 bytes beyond those it passes,
// and there is at most one comparison with lit: linear whatever the bytes are. No `for`: each turn goes on behind the byte that was found.
pub fn holds(s: &[u8], a: usize, e: usize, lit: &[u8]) -> usize
    requires { ((a ≤ e) × (e ≤ length s.now)) × ((8 ≤ length lit.now) × (length lit.now ≤ 16)) }
    ensures { Searched s.now a e lit.now result }
{
    let x = lit[4];
    let mut i = a;
    while i < e {
        let j = find_byte(s, i, e, x);
        if j == e {
            return e;
        }
        if stands_around(s, a, e, j, lit) {
            return j - 4;
        }
        i = j + 1;
    }
    e
}
