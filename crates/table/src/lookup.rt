// The place of a tag in the table by its slot: each tag has one of its own, which holds its place.
ghost use Rattle.table.specs.code.Held.{OnlyPlace};
ghost use Rattle.table.specs.code.Known.{LookedUp};

use super::known::Known;
use super::lines::TABLE;

// The slot of a tag is tag * 4673 / 64 % 128: so no two tags have the same. A slot of no tag holds 0. (As bytes, so
// that they stay near each other; the place of a tag is then one load.)
pub static SLOTS: [u8; 128] = [
    34, // 568
    50, // 1427
    0, 36, // 263
    0, 0, 0, 0, 0, 0, 19, // 58
    0, 0, 0, 0, 0, 14, // 16
    1, // 9
    0, 0, 21, // 123
    0, 0, 0, 0, 17, // 372
    0, 0, 32, // 60
    0, 0, 0, 45, // 32
    0, 0, 27, // 11
    0, 0, 0, 0, 37, // 828
    0, 9, // 97
    0, 0, 0, 0, 0, 30, // 48
    28, // 41
    6, // 34
    0, 33, // 453
    0, 48, // 574
    26, // 141
    0, 11, // 1128
    0, 0, 0, 0, 0, 0, 0, 47, // 64
    0, 8, // 43
    20, // 36
    0, 31, // 22
    40, // 448
    0, // 8
    35, // 569
    25, // 1137
    10, // 122
    0, 24, // 108
    0, 0, 16, // 371
    0, 0, 0, 7, // 52
    15, // 45
    0, 46, // 31
    0, 0, 2, // 10
    44, // 571
    0, 0, 0, 22, // 1409
    0, 0, 18, // 373
    0, 43, // 75
    0, 29, // 54
    0, 0, 39, // 1041
    0, 42, // 452
    0, 38, // 580
    0, 0, 49, // 552
    12, // 112
    0, 23, // 98
    0, 0, 0, 0, 5, // 56
    4, // 49
    0, 3, // 35
    0, 41, // 447
    0, 13, // 7
];

// The only place that a tag can have: if the line there has another tag, no line has this one.
fn place_in(tag: u32) -> usize
    ensures { OnlyPlace tag result }
{
    let slot = ((tag as u64) * 4673 / 64 % 128) as usize;
    SLOTS[slot] as usize
}

// The tag of a field, if the dictionary has it.
pub fn look_up(tag: u32) -> Option<Known>
    ensures { LookedUp tag result }
{
    let place = place_in(tag);
    if TABLE[place].tag != tag {
        return None;
    }
    Some(Known { place })
}
