// The dictionary as data: the message types, and the constant table and rows that are held to the document's lists.

#![tactic(auto)]

ghost use Rattle.std.specs.Prelude.{◌≡◌, [], ◌∷◌};

mod known;
mod lines;
mod lookup;
mod rows;

pub use known::Known;
pub use lines::Member;
pub use lookup::look_up;
pub use rows::{lacking_header, lacking_member, lacking_own};

// The ten message types.
#[derive(Clone, Copy, PartialEq, Eq, Debug)]
pub enum MsgType {
    Heartbeat,
    TestRequest,
    ResendRequest,
    Reject,
    SequenceReset,
    Logout,
    Logon,
    OrderCancelRequest,
    TradeCaptureReportRequest,
    TradeCaptureReport,
}

impl MsgType {
    ghost use Rattle.table.specs.Dictionary.{code35, type_of, named};

    // The type that a value of 35 names.
    pub fn of(code: &[u8]) -> Option<MsgType>
        ensures { result ≡ named (type_of code.now) }
    {
        match code {
            [c] => MsgType::of_one(*c),
            [b, c] => MsgType::of_two(*b, *c),
            _ => None,
        }
    }

    // The type that one byte names, ..
    pub fn of_one(c: u8) -> Option<MsgType>
        ensures { result ≡ named (type_of (c ∷ [])) }
    {
        match c {
            b'0' => Some(MsgType::Heartbeat),
            b'1' => Some(MsgType::TestRequest),
            b'2' => Some(MsgType::ResendRequest),
            b'3' => Some(MsgType::Reject),
            b'4' => Some(MsgType::SequenceReset),
            b'5' => Some(MsgType::Logout),
            b'A' => Some(MsgType::Logon),
            b'F' => Some(MsgType::OrderCancelRequest),
            _ => None,
        }
    }

    // .. and the one that two do.
    pub fn of_two(b: u8, c: u8) -> Option<MsgType>
        ensures { result ≡ named (type_of (b ∷ c ∷ [])) }
    {
        match (b, c) {
            (b'A', b'D') => Some(MsgType::TradeCaptureReportRequest),
            (b'A', b'E') => Some(MsgType::TradeCaptureReport),
            _ => None,
        }
    }

    // What stands behind `35=`.
    #[tactic(auto, unfolding(crate::specs::Dictionary::code35))]
    pub fn code(self) -> &'static [u8]
        ensures { result.now ≡ code35 self }
    {
        match self {
            MsgType::Heartbeat => b"0",
            MsgType::TestRequest => b"1",
            MsgType::ResendRequest => b"2",
            MsgType::Reject => b"3",
            MsgType::SequenceReset => b"4",
            MsgType::Logout => b"5",
            MsgType::Logon => b"A",
            MsgType::OrderCancelRequest => b"F",
            MsgType::TradeCaptureReportRequest => b"AD",
            MsgType::TradeCaptureReport => b"AE",
        }
    }
}
