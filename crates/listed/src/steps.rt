// One step of a walk over a report's fields: each takes what stands in front and leaves what stands behind it, or none where it does not stand.
ghost use Rattle.std.specs.Prelude.{◌≡◌, ◌==◌};
ghost use Rattle.std.specs.List.{position};
ghost use Rattle.kinds.specs.Judged.{meaning};
ghost use Rattle.listed.specs.code.Taken.{left, Took, anything, without, Just, Value, Labelled, Maybe};

use kinds::{Kind, judge};

// These bytes.
pub fn take_label<'a>(s: &'a [u8], label: &[u8]) -> Option<&'a [u8]>
    ensures { Took (Just label.now) anything s.now (left result) }
{
    s.strip_prefix(label)
}

// Where the first `|` stands.
fn bar(s: &[u8]) -> Option<usize>
    ensures { result ≡ position (λ x. x == 1) s.now }
{
    s.iter().position(|x| *x == 1)
}

// A value of a kind, and `|`.
fn take_value<'a>(s: &'a [u8], kind: Kind) -> Option<&'a [u8]>
    ensures { Took (Value (meaning kind)) anything s.now (left result) }
{
    let n = bar(s)?;
    if n == 0 {
        return None;
    }
    let Ok(()) = judge(kind, &s[..n]) else {
        return None;
    };
    Some(&s[n + 1..])
}

// A label with a value of a kind and `|`.
pub fn take_field<'a>(s: &'a [u8], label: &[u8], kind: Kind) -> Option<&'a [u8]>
    ensures { Took (Labelled label.now (meaning kind)) anything s.now (left result) }
{
    take_value(take_label(s, label)?, kind)
}

// The same if the label stands there, else nothing.
pub fn take_optional<'a>(s: &'a [u8], label: &[u8], kind: Kind) -> Option<&'a [u8]>
    ensures { Took (Maybe label.now (meaning kind)) (without label.now) s.now (left result) }
{
    let Some(value) = take_label(s, label) else {
        return Some(s);
    };
    take_value(value, kind)
}
