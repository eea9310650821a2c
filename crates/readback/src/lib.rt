// Reading a report back: from a body the words of its values, the verdict's finding, or refusal 10.
#![tactic(auto)]

mod noting;
mod place;

ghost use Rattle.std.specs.Prelude.{◌≡◌};
ghost use Rattle.readback.specs.Back.{Reads};
ghost use Rattle.readback.specs.code.Pass.{names_report};

use dictionary::{Finding, Verdict, verdict_on};
use fields::{Span, type_field};
use noting::note_all;

// Whether the first field 35 is AE.
fn is_report(body: &[u8]) -> bool
    ensures { result ≡ names_report body.now }
{
    let Some(Span { start, end }) = type_field(body) else {
        return false;
    };
    &body[start..end] == b"AE".as_slice()
}

// The words of the values that a body's report has. Without them the words are zero, and the answer is the verdict's finding or refusal 10; of a clean body
// of another type it is 11, tag 35.
pub fn report_values(body: &[u8], words: &mut [u64; 82]) -> Verdict
    ensures { Reads body.now result words.new }
{
    *words = [0; 82];
    verdict_on(body)?;
    if !is_report(body) {
        return Err(Finding {
            reason: 11,
            tag: 35,
        }
        .into());
    }
    note_all(body, words);
    Ok(())
}
