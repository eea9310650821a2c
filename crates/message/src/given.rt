// What the value of a field is given as: bytes, one byte, or a number.
ghost use Rattle.std.specs.Prelude.{ℕ, [], ◌∷◌, ◌+◌, ◌≤◌, ◌<◌, length};
ghost use Rattle.octets.specs.Bytes.{Bytes, decimal};
ghost use Rattle.message.specs.Wrote.{Wrote};

use crate::{put_byte, put_bytes, put_decimal};

pub trait FieldValue: Drop {
    // The bytes that it is written as.
    ghost text: { Self → Bytes };
    // What is asked of it, and how many bytes it has at most.
    ghost fits: { Self → Type 0 };

    ghost room: { Self → ℕ };

    fn put(self, buf: &mut [u8], at: usize) -> usize
        requires { fits self × (at + room self ≤ length buf.old) }
        ensures bytes { Wrote buf.old buf.new at result (text self) }
        ensures room { result ≤ at + room self };
}

impl FieldValue for &[u8] {
    ghost text = { λ s. s.now };

    ghost fits = { λ s. Unit {0} };

    ghost room = { λ s. length s.now };

    fn put(self, buf: &mut [u8], at: usize) -> usize {
        put_bytes(buf, at, self)
    }
}

impl FieldValue for u8 {
    ghost text = { λ b. b ∷ [] };

    ghost fits = { λ b. Unit {0} };

    ghost room = { λ b. 1 };

    fn put(self, buf: &mut [u8], at: usize) -> usize {
        put_byte(buf, at, self)
    }
}

impl FieldValue for u64 {
    ghost text = { decimal };

    ghost fits = { λ n. n < 1_000_000_000 };

    ghost room = { λ n. 9 };

    fn put(self, buf: &mut [u8], at: usize) -> usize {
        put_decimal(buf, at, self)
    }
}
