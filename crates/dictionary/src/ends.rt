// Where the fields end: the first required tag that is missing, reason 1, and what else the end of the body is checked for. (Both walks call these:
// they are marked to be compiled into each.)
ghost use Rattle.std.specs.Prelude.{◌≡◌};
ghost use Rattle.dictionary.specs.code.Held.{missing_at, Finished, Ended};

use super::groups::{OpenGroup, closing_all};
use super::rules::of_malformed;
use super::{Finding, Says, Unclean, Verdict};
use fields::Item;
use table::{Known, MsgType, lacking_header, lacking_own};

// The finding on a required tag that is missing, if one is.
#[inline(always)]
pub fn missing(lacked: Option<Known>) -> Says
    ensures { result ≡ missing_at lacked }
{
    let Some(k) = lacked else {
        return Ok(());
    };
    Err(Finding {
        reason: 1,
        tag: k.tag(),
    })
}

// At the end of the body: rule 1, then the first missing required tag, header first.
#[inline(always)]
fn finish(m: MsgType, group: Option<OpenGroup>, seen: &[bool; 128], met: &[bool; 128]) -> Says
    ensures { Finished m seen.now met.now group result }
{
    closing_all(group, met)?;
    missing(lacking_header(seen))?;
    missing(lacking_own(seen, m))
}

// What is no field: a malformed part, or the end of the body.
#[inline(always)]
pub fn ended(
    m: MsgType,
    item: Item,
    group: Option<OpenGroup>,
    seen: &[bool; 128],
    met: &[bool; 128],
) -> Verdict
    ensures { Ended m seen.now met.now group item result }
{
    match item {
        Item::Malformed { .. } => Ok(of_malformed(group, met)?),
        Item::End => Ok(finish(m, group, seen, met)?),
        _ => Err(Unclean::NoBody),
    }
}
