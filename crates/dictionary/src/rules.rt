// Rules 2 to 10 at a field, each a function under its number, and the first of all ten that speaks.
ghost use Rattle.std.specs.Prelude.{◌≡◌, true, Option};
ghost use Rattle.dictionary.specs.Verdict.{rule6};
ghost use Rattle.table.specs.Dictionary.{administrative};
ghost use Rattle.table.specs.code.Held.{tag_at};
ghost use Rattle.dictionary.specs.declared.groups.OpenGroup.{OpenGroup};
ghost use Rattle.dictionary.specs.code.Held.{StandsIn, Rule4, Rule5, Rule7, Rule8, Rules9and10, OfMalformed, OfUnknown, Usual, OfTag, OfKnown};

use super::groups::{Inside, OpenGroup, State, closing_all, rule_1, stands_in};
use super::{Finding, Says};
use table::{Known, MsgType};

// Rule 4: empty value.
pub fn rule_4(tag: u32, empty: bool) -> Says
    ensures { Rule4 tag empty result }
{
    if empty {
        return Err(Finding { reason: 4, tag });
    }
    Ok(())
}

// Rule 5: a tag of the frame, or one outside groups seen before.
pub fn rule_5(m: MsgType, k: Known, seen: bool) -> Says
    ensures { Rule5 m (tag_at k.place) seen result }
{
    if k.is_frame() {
        return Err(Finding {
            reason: 13,
            tag: k.tag(),
        });
    }
    if k.is_member(m) {
        return Ok(());
    }
    if seen {
        return Err(Finding {
            reason: 13,
            tag: k.tag(),
        });
    }
    Ok(())
}

// Rule 6: not for this message.
pub fn rule_6(m: MsgType, k: Known) -> Says
    ensures { result ≡ rule6 m (tag_at k.place) }
{
    if k.is_in(m) {
        return Ok(());
    }
    if k.is_member(m) {
        return Ok(());
    }
    Err(Finding {
        reason: 2,
        tag: k.tag(),
    })
}

// Rule 7: a header tag after a non-header tag.
pub fn rule_7(k: Known, over: bool) -> Says
    ensures { Rule7 (tag_at k.place) over result }
{
    if k.is_header() {
        if over {
            return Err(Finding {
                reason: 14,
                tag: k.tag(),
            });
        }
        return Ok(());
    }
    Ok(())
}

// Rule 8: a member outside its group, a first instance that doesn't begin with the first member, or another member twice in one.
pub fn rule_8(m: MsgType, inside: Option<Inside>, k: Known, met: &[bool; 128]) -> Says
    ensures { (group : Option OpenGroup) → StandsIn group (tag_at k.place) inside → Rule8 m met.now group (tag_at k.place) result }
{
    let Some(at) = inside else {
        if k.is_member(m) {
            return Err(Finding {
                reason: 15,
                tag: k.tag(),
            });
        }
        return Ok(());
    };
    if at.first {
        return Ok(());
    }
    if at.group.begun == 0 {
        return Err(Finding {
            reason: 15,
            tag: k.tag(),
        });
    }
    if met[k.place] {
        return Err(Finding {
            reason: 13,
            tag: k.tag(),
        });
    }
    Ok(())
}

// Rules 9 and 10: the form, then the value.
#[inline(always)]
pub fn rules_9_and_10(m: MsgType, k: Known, v: &[u8]) -> Says
    ensures { Rules9and10 m (tag_at k.place) v.now result }
{
    let Err(fault) = k.judge(m, v) else {
        return Ok(());
    };
    Err(Finding {
        reason: fault.number(),
        tag: k.tag(),
    })
}

// The seven types before F, AD and AE. (A call: compiled in, it would have the walk test the type before each field.)
#[inline(never)]
fn is_administrative(m: MsgType) -> bool
    ensures { result ≡ administrative m }
{
    (m as u32) < 7
}

// What is said of a malformed part: rules 1 and 2.
pub fn of_malformed(group: Option<OpenGroup>, met: &[bool; 128]) -> Says
    ensures { OfMalformed met.now group result }
{
    closing_all(group, met)?;
    Err(Finding { reason: 0, tag: 0 })
}

// What is said of a tag that is not in the dictionary: rules 1 and 3.
pub fn of_unknown(m: MsgType, group: Option<OpenGroup>, met: &[bool; 128], tag: u32) -> Says
    ensures { OfUnknown m met.now group tag result }
{
    closing_all(group, met)?;
    if is_administrative(m) {
        return Ok(());
    }
    Err(Finding { reason: 3, tag })
}

// A usual field: its value is not empty, no group is open, the message has its tag outside groups, it was not seen, and it is no header tag behind
// others.
fn is_usual(m: MsgType, st: State, k: Known, again: bool, empty: bool) -> bool
    ensures { result ≡ true → Usual m st (tag_at k.place) again empty }
{
    if empty {
        return false;
    }
    if st.group.is_some() {
        return false;
    }
    if !k.is_in(m) {
        return false;
    }
    if again {
        return false;
    }
    if !st.over {
        return true;
    }
    !k.is_header()
}

// Rules 1 and 4 to 8 at a tag of the dictionary that stands in the open group, or in none.
#[inline(always)]
fn rules_1_to_8(
    m: MsgType,
    st: State,
    inside: Option<Inside>,
    k: Known,
    seen: &[bool; 128],
    met: &[bool; 128],
    empty: bool,
) -> Says
    ensures { StandsIn st.group (tag_at k.place) inside → OfTag m seen.now met.now st (tag_at k.place) empty result }
{
    rule_1(st.group, inside, met)?;
    rule_4(k.tag(), empty)?;
    rule_5(m, k, seen[k.place])?;
    rule_6(m, k)?;
    rule_7(k, st.over)?;
    rule_8(m, inside, k, met)
}

// What is said of a tag of the dictionary where it stands: rules 1 and 4 to 8, which say nothing of a usual field. (They are called at two places, so
// that where the field stands is a branch and no value.)
fn of_tag(
    m: MsgType,
    st: State,
    k: Known,
    seen: &[bool; 128],
    met: &[bool; 128],
    empty: bool,
) -> Says
    ensures { OfTag m seen.now met.now st (tag_at k.place) empty result }
{
    if is_usual(m, st, k, seen[k.place], empty) {
        return Ok(());
    }
    let Some(at) = stands_in(st.group, k) else {
        return rules_1_to_8(m, st, None, k, seen, met, empty);
    };
    rules_1_to_8(m, st, Some(at), k, seen, met, empty)
}

// What is said of a field of the dictionary: by its tag, then by its value, rules 9 and 10. (The rules before are told no more of the value than whether
// it is empty, so that it is not kept through memory.)
pub fn of_known(
    m: MsgType,
    st: State,
    k: Known,
    seen: &[bool; 128],
    met: &[bool; 128],
    v: &[u8],
) -> Says
    ensures { OfKnown m seen.now met.now st (tag_at k.place) v.now result }
{
    of_tag(m, st, k, seen, met, v.len() == 0)?;
    rules_9_and_10(m, k, v)
}
