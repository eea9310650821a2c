// The tables of the writer: its tags with their kinds, and for each message the tags that it has and must have.
ghost use Rattle.std.specs.Prelude.{◌≡◌, true, ◌<◌};
ghost use Rattle.table.specs.Dictionary.{administrative};
ghost use Rattle.writer.specs.code.Held.{bit_of, Marked};

use crate::types::{Marks, Slot};
use kinds::{Choice, Kind};
use table::MsgType;

const STRING: Kind = Kind::Text { most: 32 };

const NUMBER: Kind = Kind::Number {
    least: 0,
    most: 999999999,
};

const COUNTED: Kind = Kind::Number {
    least: 1,
    most: 999999999,
};

// The tags in the order in which they are written; the place of a tag is also its place in `Values` and its bit in `Marks`.
pub static SLOTS: [Slot; 21] = [
    Slot(49, STRING),
    Slot(56, STRING),
    Slot(34, COUNTED),
    Slot(43, Kind::Flag),
    Slot(52, Kind::Time),
    Slot(122, Kind::Time),
    Slot(112, Kind::Text { most: 64 }),
    Slot(7, COUNTED),
    Slot(16, NUMBER),
    Slot(45, COUNTED),
    Slot(371, NUMBER),
    Slot(372, STRING),
    Slot(373, NUMBER),
    Slot(1409, NUMBER),
    Slot(58, Kind::Text { most: 256 }),
    Slot(123, Kind::Flag),
    Slot(36, COUNTED),
    Slot(98, Kind::OneOf(Choice::Zero)),
    Slot(108, Kind::Number { least: 1, most: 60 }),
    Slot(1137, Kind::OneOf(Choice::Nine)),
    Slot(141, Kind::Flag),
];

// The tags that each message has and must have, as bits at their places: the header 0 to 5, of which 43 and 122 may be absent; 112 6; 7 and 16
// 7 and 8; 45, 371, 372 and 373 9 to 12; 1409 13; 58 14; 123 and 36 15 and 16; 98, 108, 1137 and 141 17 to 20. Bits and no list of tags for each message:
// a list would be searched at each of the 21 places of every call.
const HEADER: u32 = 63;

const ALWAYS: u32 = 23;

const OF_0: Marks = Marks {
    own: HEADER + 64,
    needed: ALWAYS,
};

const OF_1: Marks = Marks {
    own: HEADER + 64,
    needed: ALWAYS + 64,
};

const OF_2: Marks = Marks {
    own: HEADER + 128 + 256,
    needed: ALWAYS + 128 + 256,
};

const OF_3: Marks = Marks {
    own: HEADER + 512 + 1024 + 2048 + 4096 + 16384,
    needed: ALWAYS + 512,
};

const OF_4: Marks = Marks {
    own: HEADER + 32768 + 65536,
    needed: ALWAYS + 65536,
};

const OF_5: Marks = Marks {
    own: HEADER + 8192 + 16384,
    needed: ALWAYS,
};

const OF_A: Marks = Marks {
    own: HEADER + 131072 + 262144 + 524288 + 1048576,
    needed: ALWAYS + 131072 + 262144 + 524288,
};

const NONE: Marks = Marks { own: 0, needed: 0 };

// The marks of a message.
pub fn marks_of(m: MsgType) -> Marks
    requires { administrative m ≡ true }
    ensures { Marked m result }
{
    match m {
        MsgType::Heartbeat => OF_0,
        MsgType::TestRequest => OF_1,
        MsgType::ResendRequest => OF_2,
        MsgType::Reject => OF_3,
        MsgType::SequenceReset => OF_4,
        MsgType::Logout => OF_5,
        MsgType::Logon => OF_A,
        MsgType::OrderCancelRequest => NONE,
        MsgType::TradeCaptureReportRequest => NONE,
        MsgType::TradeCaptureReport => NONE,
    }
}

// The bit of a place.
pub fn bit(marks: u32, k: usize) -> bool
    requires { k < 21 }
    ensures { result ≡ bit_of marks k }
{
    (marks >> (k as u32)) % 2 == 1
}
