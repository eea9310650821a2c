// A tag of the dictionary, and what its line says of it.
ghost use Rattle.std.specs.Prelude.{◌≡◌, true, ◌<◌, ◌++◌, eqb};
ghost use Rattle.table.specs.code.Held.{tag_count, bit_of, choice_in};

use super::MsgType;
use super::lines::{Entry, Member, TABLE};
use fault::Fault;
use kinds::{Choice, Kind, judge, judge_choice};

// A tag that was looked up: the place of its line, which is also that of its mark.
#[derive(Clone, Copy)]
pub struct Known {
    pub place: usize,
    pub ghost within: { place < tag_count },
}

impl Known {
    ghost use Rattle.octets.specs.Bytes.{any};
    ghost use Rattle.fault.specs.Fault.{reason};
    ghost use Rattle.kinds.specs.Judged.{meaning, judged};
    ghost use Rattle.table.specs.Dictionary.{header, fields, groups, listed, member, frame_tag, rows_of, kind_in};
    ghost use Rattle.table.specs.code.Held.{tag_at, entry_at, kind_for, MemberOf};

    fn entry(self) -> Entry
        ensures { result ≡ entry_at self.place }
    {
        TABLE[self.place]
    }

    // A bit of the marks.
    fn bit(self, k: u32) -> bool
        requires { k < 32 }
        ensures { result ≡ bit_of (entry_at self.place).marks k }
    {
        bit(self.entry().marks, k)
    }

    pub fn tag(self) -> u32
        ensures { result ≡ tag_at self.place }
    {
        self.entry().tag
    }

    // The message has the tag outside groups.
    pub fn is_in(self, m: MsgType) -> bool
        ensures { result ≡ listed (header ++ fields m) (tag_at self.place) }
    {
        self.bit(m as u32)
    }

    // A group of the message has it.
    pub fn is_member(self, m: MsgType) -> bool
        ensures { result ≡ member m (tag_at self.place) }
    {
        self.bit(10 + m as u32)
    }

    pub fn is_header(self) -> bool
        ensures { result ≡ listed header (tag_at self.place) }
    {
        self.bit(28)
    }

    pub fn is_frame(self) -> bool
        ensures { result ≡ frame_tag (tag_at self.place) }
    {
        self.bit(29)
    }

    // The count of a group.
    pub fn is_count(self) -> bool
        ensures { result ≡ any (λ g. eqb g.counter (tag_at self.place)) groups }
    {
        self.bit(30)
    }

    // The group that has the tag as a member.
    pub fn member(self) -> Option<Member>
        ensures { MemberOf (tag_at self.place) result }
    {
        self.entry().member
    }

    // The kind of its values in a message.
    #[inline(always)]
    pub fn kind(self, m: MsgType) -> Kind
        ensures { result ≡ kind_for m (entry_at self.place).kind }
    {
        let kind = self.entry().kind;
        match kind {
            Kind::OneOf(list) => Kind::OneOf(choice_in(list, m)),
            _ => kind,
        }
    }

    // The finding on a value: by the tag's line, which has the document's kind where the message has the tag. (Compiled into both walks: a call would cost each field some thirty instructions.)
    #[inline(always)]
    pub fn judge(self, m: MsgType, v: &[u8]) -> Result<(), Fault>
        ensures by_line { reason result ≡ judged (meaning (kind_for m (entry_at self.place).kind)) v.now }
        ensures by_rows { listed (rows_of m) (tag_at self.place) ≡ true → reason result ≡ judged (kind_in (rows_of m) (tag_at self.place)) v.now }
    {
        let kind = self.kind(m);
        match kind {
            Kind::OneOf(list) => judge_choice(v, list),
            _ => judge(kind, v),
        }
    }
}

fn bit(marks: u32, k: u32) -> bool
    requires { k < 32 }
    ensures { result ≡ bit_of marks k }
{
    (marks >> k) % 2 == 1
}

// The list of a tag in a message. (That of 828 has one value more in a Trade Capture Report than in the request for it; the others are the same in all.)
fn choice_in(list: Choice, m: MsgType) -> Choice
    ensures { result ≡ choice_in m list }
{
    if m == MsgType::TradeCaptureReport && list == Choice::ZeroOr54 {
        return Choice::ZeroOr54Or99;
    }
    list
}
