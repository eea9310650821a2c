// What the programs share: a line's words, and what they write, which is bytes with `|` for the byte 1.
#![tactic(auto)]

ghost use Rattle.std.specs.Prelude.{◌≡◌, ◌+◌, length, take, drop};

use std::io;

// As bytes, not as text: what was read is written back as it was.
pub fn print_bytes(rt: &impl Print, s: &[u8]) -> io::Result<()> {
    for b in s {
        rt.write_all(&[if *b == 1 { b'|' } else { *b }])?;
    }
    Ok(())
}

// What stands before the first space, and what stands behind it.
pub fn cut_word(s: &[u8]) -> (&[u8], &[u8])
    ensures front { result.0.now ≡ take (length result.0.now) s.now }
    ensures behind { result.1.now ≡ drop (length result.0.now + 1) s.now }
{
    match s.iter().position(|b| *b == b' ') {
        Some(k) => (&s[..k], &s[k + 1..]),
        None => (s, &[]),
    }
}
