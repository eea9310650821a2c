// An answer of a session's call as numbers.
ghost use Rattle.std.specs.Prelude.{◌≡◌};
ghost use Rattle.session.specs.Refusals.{numbers};
ghost use Rattle.border.specs.Numbers.{refusal_of, value_of};

use session::{Answer, Success};

// The number of an answer: the refusal, or 0.
pub fn number_of(a: Answer) -> u32
    ensures { result ≡ refusal_of (numbers a) }
{
    match a {
        Ok(_) => 0,
        Err(k) => u32::from(k),
    }
}

// Whether it delivers the frame, 1 or 0.
pub fn delivered(a: Answer) -> u64
    ensures { result ≡ value_of (numbers a) }
{
    u64::from(matches!(a, Ok(Success::Delivered)))
}
