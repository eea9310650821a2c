// The constant table of the dictionary, looked up at each field.
use super::MsgType;
use kinds::{Choice, Kind};

// A tag's line of the dictionary: the kind of its values; where it stands outside groups; and its place in the group that has it as a member.
#[derive(Clone, Copy)]
pub struct Entry {
    pub tag: u32,
    pub kind: Kind,
    pub marks: u32,
    pub member: Option<Member>,
}

// A member's group by its count tag, and whether it is the group's first.
#[derive(Clone, Copy)]
pub struct Member {
    pub group: u32,
    pub first: bool,
}

const STRING: Kind = Kind::Text { most: 32 };

const STRING_64: Kind = Kind::Text { most: 64 };

const STRING_256: Kind = Kind::Text { most: 256 };

const NUMBER: Kind = Kind::Number {
    least: 0,
    most: 999999999,
};

const COUNTED: Kind = Kind::Number {
    least: 1,
    most: 999999999,
};

const UP_TO_60: Kind = Kind::Number { least: 1, most: 60 };

const UP_TO_8: Kind = Kind::Number { least: 1, most: 8 };

const UP_TO_2: Kind = Kind::Number { least: 1, most: 2 };

const ONCE: Kind = Kind::Number { least: 1, most: 1 };

const ZERO: Kind = Kind::OneOf(Choice::Zero);

const EIGHT: Kind = Kind::OneOf(Choice::Eight);

const NINE: Kind = Kind::OneOf(Choice::Nine);

const D: Kind = Kind::OneOf(Choice::D);

const ONE_OR_TWO: Kind = Kind::OneOf(Choice::OneOrTwo);

const ZERO_OR_54: Kind = Kind::OneOf(Choice::ZeroOr54);

const MATCHES: Kind = Kind::OneOf(Choice::Matches);

const ROLES: Kind = Kind::OneOf(Choice::Roles);

// The marks of a line: a bit for each message that has the tag outside groups, by the type's number; ten bits more for those that have it in a group;
// and 28 for the header, 29 for a tag of the frame, 30 for the count of a group.
const IN_0: u32 = 1 << MsgType::Heartbeat as u32;

const IN_1: u32 = 1 << MsgType::TestRequest as u32;

const IN_2: u32 = 1 << MsgType::ResendRequest as u32;

const IN_3: u32 = 1 << MsgType::Reject as u32;

const IN_4: u32 = 1 << MsgType::SequenceReset as u32;

const IN_5: u32 = 1 << MsgType::Logout as u32;

const IN_A: u32 = 1 << MsgType::Logon as u32;

const IN_F: u32 = 1 << MsgType::OrderCancelRequest as u32;

const IN_AD: u32 = 1 << MsgType::TradeCaptureReportRequest as u32;

const IN_AE: u32 = 1 << MsgType::TradeCaptureReport as u32;

const IN_ALL: u32 = 1023;

const HEADER: u32 = IN_ALL + (1 << 28);

const FRAME: u32 = 1 << 29;

const COUNT: u32 = 1 << 30;

const IN_453: u32 = (IN_F + IN_AD + IN_AE) << 10;

const IN_580: u32 = IN_AD << 10;

const IN_552: u32 = IN_AE << 10;

// A member of a group, and the first of one.
macro_rules! member {
    ($group:expr, $first:expr) => {
        Some(Member {
            group: $group,
            first: $first,
        })
    };
}

const FIRST_OF_453: Option<Member> = member!(453, true);

const OF_453: Option<Member> = member!(453, false);

const FIRST_OF_580: Option<Member> = member!(580, true);

const OF_580: Option<Member> = member!(580, false);

const FIRST_OF_552: Option<Member> = member!(552, true);

const OF_552: Option<Member> = member!(552, false);

// A line of the table: tag, kind, marks, and the group if it is a member of one.
macro_rules! entry {
    ($tag:expr, $kind:expr, $marks:expr) => {
        entry!($tag, $kind, $marks, None)
    };
    ($tag:expr, $kind:expr, $marks:expr, $member:expr) => {
        Entry {
            tag: $tag,
            kind: $kind,
            marks: $marks,
            member: $member,
        }
    };
}

// The tags of the frame, then those of the lists below as they come; a line's place is also the place of its tag's mark.
pub static TABLE: [Entry; 51] = [
    entry!(8, STRING, FRAME),
    entry!(9, STRING, FRAME),
    entry!(10, STRING, FRAME),
    entry!(35, STRING, HEADER),
    entry!(49, STRING, HEADER),
    entry!(56, STRING, HEADER),
    entry!(34, COUNTED, HEADER),
    entry!(52, Kind::Time, HEADER),
    entry!(43, Kind::Flag, HEADER),
    entry!(97, Kind::Flag, HEADER),
    entry!(122, Kind::Time, HEADER),
    entry!(1128, NINE, HEADER),
    entry!(112, STRING_64, IN_0 + IN_1),
    entry!(7, COUNTED, IN_2),
    entry!(16, NUMBER, IN_2),
    entry!(45, COUNTED, IN_3),
    entry!(371, NUMBER, IN_3),
    entry!(372, STRING, IN_3),
    entry!(373, NUMBER, IN_3),
    entry!(58, STRING_256, IN_3 + IN_5 + IN_AD),
    entry!(36, COUNTED, IN_4),
    entry!(123, Kind::Flag, IN_4),
    entry!(1409, NUMBER, IN_5),
    entry!(98, ZERO, IN_A),
    entry!(108, UP_TO_60, IN_A),
    entry!(1137, NINE, IN_A),
    entry!(141, Kind::Flag, IN_A),
    entry!(11, STRING, IN_F),
    entry!(41, STRING, IN_F),
    entry!(54, ONE_OR_TWO, IN_F + IN_552, FIRST_OF_552),
    entry!(48, STRING, IN_F + IN_AD + IN_AE),
    entry!(22, EIGHT, IN_F + IN_AD + IN_AE),
    entry!(60, Kind::Time, IN_F + IN_AE + IN_580, OF_580),
    entry!(453, UP_TO_8, IN_F + IN_AD + COUNT + IN_552, OF_552),
    entry!(568, STRING, IN_AD),
    entry!(569, ZERO, IN_AD),
    entry!(263, ZERO, IN_AD),
    entry!(828, ZERO_OR_54, IN_AD + IN_AE),
    entry!(580, UP_TO_2, IN_AD + COUNT),
    entry!(1041, STRING, IN_AD),
    entry!(448, STRING, IN_453, FIRST_OF_453),
    entry!(447, D, IN_453, OF_453),
    entry!(452, ROLES, IN_453, OF_453),
    entry!(75, Kind::Day, IN_580, FIRST_OF_580),
    entry!(571, STRING, IN_AE),
    entry!(32, Kind::Decimal, IN_AE),
    entry!(31, Kind::Decimal, IN_AE),
    entry!(64, Kind::Day, IN_AE),
    entry!(574, MATCHES, IN_AE),
    entry!(552, ONCE, IN_AE + COUNT),
    entry!(1427, STRING, IN_552, OF_552),
];
