// A field of a Trade Capture Report, as a member of a group or outside groups, and the first rule that speaks of it.
ghost use Rattle.std.specs.Prelude.{◌≡◌};
ghost use Rattle.table.specs.code.Held.{tag_at};
ghost use Rattle.dictionary.specs.code.Nested.{MemberIn, Rule1Inside, OfMember, OfOwn};

use super::groups::{Inside, OpenGroup, incomplete};
use super::rules::{rule_4, rule_5, rule_6, rule_7, rule_8, rules_9_and_10};
use super::{Finding, Says};
use fields::Item;
use table::{Known, MsgType, look_up};

// A member of a group, and whether it is the group's first: where its value is, and the place behind it.
#[derive(Clone, Copy)]
pub struct Head {
    pub k: Known,
    pub first: bool,
    pub start: usize,
    pub end: usize,
    pub next: usize,
}

// The item as a member of the group with this count tag.
pub fn member_of(item: Item, counter: u32) -> Option<Head>
    ensures { MemberIn item counter result }
{
    let Item::Field {
        tag,
        start,
        end,
        next,
    } = item
    else {
        return None;
    };
    let k = look_up(tag)?;
    let of = k.member()?;
    if of.group != counter {
        return None;
    }
    Some(Head {
        k,
        first: of.first,
        start,
        end,
        next,
    })
}

// Rule 1 at a member: where it begins an instance, one missing from the instance before.
fn rule_1_inside(g: OpenGroup, first: bool, met: &[bool; 128]) -> Says
    ensures { Rule1Inside met.now g first result }
{
    if first {
        return incomplete(g, met);
    }
    Ok(())
}

// What is said of a member of the innermost open group: no member is a tag of the frame or the header, and each is the report's.
pub fn of_member(g: OpenGroup, k: Known, first: bool, met: &[bool; 128], v: &[u8]) -> Says
    ensures { OfMember met.now g (tag_at k.place) first v.now result }
{
    rule_1_inside(g, first, met)?;
    rule_4(k.tag(), v.len() == 0)?;
    let inside = Inside { group: g, first };
    rule_8(MsgType::TradeCaptureReport, Some(inside), k, met)?;
    rules_9_and_10(MsgType::TradeCaptureReport, k, v)
}

// What is said of a tag of the dictionary outside groups.
pub fn of_own(over: bool, k: Known, seen: &[bool; 128], v: &[u8]) -> Says
    ensures { OfOwn seen.now over (tag_at k.place) v.now result }
{
    rule_4(k.tag(), v.len() == 0)?;
    rule_5(MsgType::TradeCaptureReport, k, seen[k.place])?;
    rule_6(MsgType::TradeCaptureReport, k)?;
    rule_7(k, over)?;
    rule_8(MsgType::TradeCaptureReport, None, k, seen)?;
    rules_9_and_10(MsgType::TradeCaptureReport, k, v)
}
