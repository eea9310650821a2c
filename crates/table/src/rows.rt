// The rows of the document's lists in their order, and the first required tag of a list that is not marked.
ghost use Rattle.std.specs.Prelude.{◌≡◌, true, List};
ghost use Rattle.table.specs.Dictionary.{Row, header, fields};
ghost use Rattle.table.specs.code.Held.{members_of, placed, right_rows};
ghost use Rattle.table.specs.code.Known.{Lacking};

use super::MsgType;
use super::known::Known;

// A field of a list by the place of its tag, and whether it is required.
#[derive(Clone, Copy)]
pub struct Listed {
    pub place: u8,
    pub required: bool,
}

macro_rules! required {
    ($place:expr) => {
        Listed {
            place: $place,
            required: true,
        }
    };
}

macro_rules! optional {
    ($place:expr) => {
        Listed {
            place: $place,
            required: false,
        }
    };
}

// header: 35, 49, 56, 34, 52, 43, 97, 122, 1128
static HEADER: [Listed; 9] = [
    required!(3),
    required!(4),
    required!(5),
    required!(6),
    required!(7),
    optional!(8),
    optional!(9),
    optional!(10),
    optional!(11),
];

// 0: 112
static OF_0: [Listed; 1] = [optional!(12)];

// 1: 112
static OF_1: [Listed; 1] = [required!(12)];

// 2: 7, 16
static OF_2: [Listed; 2] = [required!(13), required!(14)];

// 3: 45, 371, 372, 373, 58
static OF_3: [Listed; 5] = [
    required!(15),
    optional!(16),
    optional!(17),
    optional!(18),
    optional!(19),
];

// 4: 36, 123
static OF_4: [Listed; 2] = [required!(20), optional!(21)];

// 5: 1409, 58
static OF_5: [Listed; 2] = [optional!(22), optional!(19)];

// A: 98, 108, 1137, 141
static OF_A: [Listed; 4] = [required!(23), required!(24), required!(25), optional!(26)];

// F: 11, 41, 54, 48, 22, 60, 453
static OF_F: [Listed; 7] = [
    required!(27),
    required!(28),
    required!(29),
    required!(30),
    required!(31),
    required!(32),
    optional!(33),
];

// AD: 568, 569, 263, 828, 453, 22, 48, 580, 58, 1041
static OF_AD: [Listed; 10] = [
    required!(34),
    required!(35),
    optional!(36),
    optional!(37),
    optional!(33),
    required!(31),
    required!(30),
    required!(38),
    optional!(19),
    optional!(39),
];

// AE: 571, 828, 60, 32, 31, 64, 574, 48, 22, 552
static OF_AE: [Listed; 10] = [
    required!(44),
    required!(37),
    required!(32),
    required!(45),
    required!(46),
    optional!(47),
    required!(48),
    required!(30),
    required!(31),
    required!(49),
];

// group 453: 448, 447, 452
static OF_453: [Listed; 3] = [required!(40), required!(41), required!(42)];

// group 580: 75, 60
static OF_580: [Listed; 2] = [required!(43), optional!(32)];

// group 552: 54, 1427, 453
static OF_552: [Listed; 3] = [required!(29), optional!(50), optional!(33)];

// The first required tag of some rows that is not marked.
fn lacking(rows: &[Listed], marks: &[bool; 128]) -> Option<Known>
    requires { placed rows.now ≡ true }
    ensures { (lines : List Row) → right_rows rows.now lines ≡ true → Lacking marks.now lines result }
{
    for row in rows {
        let place = row.place as usize;
        if row.required && !marks[place] {
            return Some(Known { place });
        }
    }
    None
}

// The same of the header, ..
pub fn lacking_header(marks: &[bool; 128]) -> Option<Known>
    ensures { Lacking marks.now header result }
{
    lacking(&HEADER, marks)
}

// .. of a message's own fields, ..
pub fn lacking_own(marks: &[bool; 128], m: MsgType) -> Option<Known>
    ensures { Lacking marks.now (fields m) result }
{
    match m {
        MsgType::Heartbeat => lacking(&OF_0, marks),
        MsgType::TestRequest => lacking(&OF_1, marks),
        MsgType::ResendRequest => lacking(&OF_2, marks),
        MsgType::Reject => lacking(&OF_3, marks),
        MsgType::SequenceReset => lacking(&OF_4, marks),
        MsgType::Logout => lacking(&OF_5, marks),
        MsgType::Logon => lacking(&OF_A, marks),
        MsgType::OrderCancelRequest => lacking(&OF_F, marks),
        MsgType::TradeCaptureReportRequest => lacking(&OF_AD, marks),
        MsgType::TradeCaptureReport => lacking(&OF_AE, marks),
    }
}

// .. and of the members of a group, named by its count tag. (Compiled into a walk, its looks at the marks would be made at each field.)
#[inline(never)]
pub fn lacking_member(marks: &[bool; 128], group: u32) -> Option<Known>
    ensures { Lacking marks.now (members_of group) result }
{
    match group {
        453 => lacking(&OF_453, marks),
        580 => lacking(&OF_580, marks),
        _ => lacking(&OF_552, marks),
    }
}
