// Bytes compared: eight of them as one number, a row of bytes that stands at a place, and how many of a row do.
ghost use Rattle.std.specs.Prelude.{◌≡◌, ◌+◌, ◌≤◌, length};
ghost use Rattle.octets.specs.code.Leaf.{word_at, Standing, Matched};

// Eight bytes as one number, the first one least: one load for the compiler.
pub fn word(s: &[u8], i: usize) -> u64
    requires { i + 8 ≤ length s.now }
    ensures { result ≡ word_at s.now i }
{
    u64::from(s[i])
        + u64::from(s[i + 1]) * 256
        + u64::from(s[i + 2]) * 65536
        + u64::from(s[i + 3]) * 16777216
        + u64::from(s[i + 4]) * 4294967296
        + u64::from(s[i + 5]) * 1099511627776
        + u64::from(s[i + 6]) * 281474976710656
        + u64::from(s[i + 7]) * 72057594037927936
}

// Whether lit, 8 to 16 bytes, stands in s at a place: its first eight bytes as one number, and its last eight.
pub fn stands(s: &[u8], at: usize, lit: &[u8]) -> bool
    requires { (at + length lit.now ≤ length s.now) × ((8 ≤ length lit.now) × (length lit.now ≤ 16)) }
    ensures { Standing s.now at lit.now result }
{
    let k = lit.len() - 8;
    if word(s, at) != word(lit, 0) {
        return false;
    }
    word(s, at + k) == word(lit, k)
}

// How many bytes of lit stand in s from at on.
pub fn matched(s: &[u8], at: usize, lit: &[u8]) -> usize
    requires { at ≤ length s.now }
    ensures { Matched s.now at lit.now result }
{
    for i in 0..lit.len() {
        if at + i == s.len() {
            return i;
        }
        if s[at + i] != lit[i] {
            return i;
        }
    }
    lit.len()
}
