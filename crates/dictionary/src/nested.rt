// The Trade Capture Report, whose groups hold groups: a group walk goes through the instances of a group and an instance walk through the members of
// one; where a member is the count of a group, the instance walk calls the group walk again.
ghost use Rattle.std.specs.Prelude.{◌≡◌, ◌+◌, ◌≤◌, length};
ghost use Rattle.fields.specs.Field.{parts};
ghost use Rattle.table.specs.code.Held.{tag_at};
ghost use Rattle.dictionary.specs.Verdict.{walk, nothing_yet};
ghost use Rattle.dictionary.specs.code.Nested.{GroupWalk, InstanceWalk, Behind};
ghost use Rattle.table.specs.declared.MsgType.TheVariants.{TradeCaptureReport};

use super::ends::ended;
use super::groups::{OpenGroup, begun, closing, opened, over_with};
use super::members::{member_of, of_member, of_own};
use super::{Finding, Unclean, Verdict};
use fields::{Item, item_at};
use table::{Known, MsgType, look_up};

// A part of the body and its place.
#[derive(Clone, Copy)]
pub struct Part {
    pub at: usize,
    pub item: Item,
}

// What a walk came to: the part that ended its group or instance, or a finding.
type Reached = Result<Part, Finding>;

// The instances of a group, from the place behind its count field to the part that ends it.
#[cycle(group_walk_instance_walk)]
fn group_walk(body: &[u8], from: usize, group: OpenGroup) -> Reached
    requires { (length body.now ≤ 2048) × (from ≤ length body.now + 1) × (group.begun ≡ 0) }
    ensures { GroupWalk body.now group from result }
{
    let mut met = [false; 128];
    let mut g = group;
    let mut at = from;
    let mut item = item_at(body, from);
    loop {
        let Some(head) = member_of(item, g.counter) else {
            closing(g, &met)?;
            return Ok(Part { at, item });
        };
        of_member(g, head.k, head.first, &met, &body[head.start..head.end])?;
        met = [false; 128];
        met[head.k.place] = true;
        g = begun(g);
        let ended = instance_walk(body, head.next, g, &mut met)?;
        at = ended.at;
        item = ended.item;
    }
}

// The members of one instance, from the place behind its first one to the part that ends the instance.
#[cycle(group_walk_instance_walk)]
fn instance_walk(body: &[u8], from: usize, g: OpenGroup, met: &mut [bool; 128]) -> Reached
    requires { (length body.now ≤ 2048) × (from ≤ length body.now + 1) × (length met.old ≡ 128) }
    ensures { InstanceWalk body.now met.old g from met.new result }
{
    let mut at = from;
    let mut item = item_at(body, from);
    loop {
        let Some(head) = member_of(item, g.counter) else {
            return Ok(Part { at, item });
        };
        if head.first {
            return Ok(Part { at, item });
        }
        of_member(g, head.k, head.first, met, &body[head.start..head.end])?;
        met[head.k.place] = true;
        let Some(inner) = opened(head.k, &body[head.start..head.end]) else {
            at = head.next;
            item = item_at(body, head.next);
            continue;
        };
        let ended = group_walk(body, head.next, inner)?;
        at = ended.at;
        item = ended.item;
    }
}

// Where the walk goes on behind a field outside groups: behind the group that the field opens, or at the next part. (What the group walk came to is
// taken apart and named again: handed through, it would have every field's next part written to memory and read back.)
fn behind(body: &[u8], k: Known, v: &[u8], next: usize) -> Reached
    requires { (length body.now ≤ 2048) × (next ≤ length body.now + 1) }
    ensures { Behind body.now (tag_at k.place) v.now next result }
{
    let Some(group) = opened(k, v) else {
        return Ok(Part {
            at: next,
            item: item_at(body, next),
        });
    };
    let Part { at, item } = group_walk(body, next, group)?;
    Ok(Part { at, item })
}

// The fields of a Trade Capture Report from the left; the first finding stands. One mark is set at each field outside groups; a group walk goes
// through the fields of a group.
pub fn report_walk(body: &[u8]) -> Verdict
    requires { length body.now ≤ 2048 }
    ensures { result ≡ walk TradeCaptureReport nothing_yet (parts body.now) }
{
    let mut seen = [false; 128];
    let mut over = false;
    let mut at: usize = 0;
    let mut item = item_at(body, 0);
    loop {
        let Item::Field {
            tag,
            start,
            end,
            next,
        } = item
        else {
            return ended(MsgType::TradeCaptureReport, item, None, &seen, &seen);
        };
        let Some(k) = look_up(tag) else {
            return Err(Unclean::Found(Finding { reason: 3, tag }));
        };
        of_own(over, k, &seen, &body[start..end])?;
        seen[k.place] = true;
        over = over_with(over, k);
        let part = behind(body, k, &body[start..end], next)?;
        at = part.at;
        item = part.item;
    }
}
