// The open group: where the walk stands in it, rule 1 where it goes on or ends, and the states behind a field.
ghost use Rattle.std.specs.Prelude.{ℕ, ◌≡◌, ◌<◌, length};
ghost use Rattle.table.specs.code.Held.{tag_at};
ghost use Rattle.dictionary.specs.code.Held.{StandsIn, Incomplete, Closing, ClosingAll, Rule1, Counted, Over, Opened, begun_of, Few, Remembered};

use super::ends::missing;
use super::{Finding, Says};
use table::{Known, lacking_member};

// An open group: its count tag, its count, and the instances begun.
#[derive(Clone, Copy)]
pub struct OpenGroup {
    pub counter: u32,
    pub count: u32,
    pub begun: u32,
}

// What the walk holds beside its marks: a tag outside the header was met; the open group, if there is one.
#[derive(Clone, Copy)]
pub struct State {
    pub over: bool,
    pub group: Option<OpenGroup>,
}

// The open group where a member of it stands, and whether that is its first member.
#[derive(Clone, Copy)]
pub struct Inside {
    pub group: OpenGroup,
    pub first: bool,
}

// The open group, if the field stands in it.
pub fn stands_in(group: Option<OpenGroup>, k: Known) -> Option<Inside>
    ensures { StandsIn group (tag_at k.place) result }
{
    let g = group?;
    let of = k.member()?;
    if g.counter != of.group {
        return None;
    }
    Some(Inside {
        group: g,
        first: of.first,
    })
}

// Rule 1, a required member missing from the last instance, if one began.
#[inline(always)]
pub fn incomplete(g: OpenGroup, met: &[bool; 128]) -> Says
    ensures { Incomplete met.now g result }
{
    if g.begun == 0 {
        return Ok(());
    }
    missing(lacking_member(met, g.counter))
}

// Rule 1, the two checks at the end of a group.
#[inline(always)]
pub fn closing(g: OpenGroup, met: &[bool; 128]) -> Says
    ensures { Closing met.now g result }
{
    incomplete(g, met)?;
    if g.begun == g.count {
        return Ok(());
    }
    Err(Finding {
        reason: 16,
        tag: g.counter,
    })
}

// Rule 1 where no group goes on: the two checks of the open one, if there is one.
#[inline(always)]
pub fn closing_all(group: Option<OpenGroup>, met: &[bool; 128]) -> Says
    ensures { ClosingAll met.now group result }
{
    let Some(g) = group else {
        return Ok(());
    };
    closing(g, met)
}

// Rule 1 at a field of the dictionary, by where it stands.
pub fn rule_1(group: Option<OpenGroup>, inside: Option<Inside>, met: &[bool; 128]) -> Says
    ensures { (t : ℕ) → StandsIn group t inside → Rule1 met.now group t result }
{
    let Some(at) = inside else {
        return closing_all(group, met);
    };
    if at.first {
        return incomplete(at.group, met);
    }
    Ok(())
}

// The number that the value of a count field writes; a larger one than any count may be is none.
pub fn count_of(v: &[u8]) -> u32
    ensures { Counted v.now result }
{
    let Some(n) = kinds::read_number(v) else {
        return 0;
    };
    if 999999999 < n {
        return 0;
    }
    n as u32
}

// A tag outside the header was met, this one included.
pub fn over_with(over: bool, k: Known) -> bool
    ensures { Over over (tag_at k.place) result }
{
    if k.is_header() {
        return over;
    }
    true
}

// The group that a count field opens; another field opens none.
pub fn opened(k: Known, v: &[u8]) -> Option<OpenGroup>
    ensures { Opened (tag_at k.place) v.now result }
{
    if !k.is_count() {
        return None;
    }
    Some(OpenGroup {
        counter: k.tag(),
        count: count_of(v),
        begun: 0,
    })
}

// The group behind a first member, which begins an instance.
pub fn begun(g: OpenGroup) -> OpenGroup
    requires { g.begun < 4096 }
    ensures { result ≡ begun_of g }
{
    OpenGroup {
        begun: g.begun + 1,
        ..g
    }
}

// The state behind a field that no rule spoke of. One mark is set at each field outside groups (seen); the members met in the last instance of the
// open group have marks of their own, at the same places (met).
pub fn remembered(
    st: State,
    k: Known,
    v: &[u8],
    seen: &mut [bool; 128],
    met: &mut [bool; 128],
) -> State
    requires { (length seen.old ≡ 128) × (length met.old ≡ 128) × Few st.group 4095 }
    ensures { Remembered seen.old met.old st (tag_at k.place) v.now seen.new met.new result }
{
    let Some(at) = stands_in(st.group, k) else {
        seen[k.place] = true;
        return State {
            over: over_with(st.over, k),
            group: opened(k, v),
        };
    };
    if at.first {
        *met = [false; 128];
        met[k.place] = true;
        return State {
            group: Some(begun(at.group)),
            ..st
        };
    }
    met[k.place] = true;
    st
}
