// One pass over a report's fields: the first of each tag is noted, and of 448, 447 and 452 the first eight.
ghost use Rattle.std.specs.Prelude.{◌≡◌, ◌≤◌, ◌<◌, length, replicate};
ghost use Rattle.readback.specs.Back.{words_in};
ghost use Rattle.readback.specs.code.Pass.{value_noted, PartNoted, Noted, Gathered};

use crate::place::{pair_of, slot_of};
use fields::{Item, Span, item_at};

// A field of the eleven: its words, unless an earlier one has them.
fn note_value(body: &[u8], words: &mut [u64; 82], tag: u32, value: Span)
    requires { (value.start ≤ value.end) × (value.end ≤ length body.now) }
    ensures { words.new ≡ value_noted body.now tag value.start value.end words.old }
{
    let Some(k) = slot_of(tag) else {
        return;
    };
    if words[3 * k] != 0 {
        return;
    }
    let (first, second) = pair_of(body, k, value);
    words[3 * k] = 1;
    words[3 * k + 1] = first;
    words[3 * k + 2] = second;
}

// The j-th part of the party with so many before it; a ninth is not noted. Answers how many there are now.
fn note_part(words: &mut [u64; 82], j: usize, count: usize, value: Span) -> usize
    requires { j < 3 }
    ensures { PartNoted words.old j count value.start value.end result words.new }
{
    if 8 <= count {
        return count;
    }
    let at = 34 + 6 * count + 2 * j;
    words[at] = value.start as u64;
    words[at + 1] = value.end as u64;
    count + 1
}

// A field, whichever it is: what it adds to the words, and to the counts of 448, 447 and 452, each up to eight.
fn note(body: &[u8], words: &mut [u64; 82], had: &mut [usize; 3], tag: u32, value: Span)
    requires { (value.start ≤ value.end) × (value.end ≤ length body.now) }
    ensures { Noted body.now tag value.start value.end words.old had.old words.new had.new }
{
    let j = match tag {
        448 => 0,
        447 => 1,
        452 => 2,
        _ => {
            note_value(body, words, tag, value);
            return;
        }
    };
    had[j] = note_part(words, j, had[j], value);
}

// Behind the last field: the number of parties, and zeros behind theirs.
fn finish(body: &[u8], words: &mut [u64; 82], had: &[usize; 3])
    requires { Gathered body.now words.old had.now }
    ensures { words.new ≡ words_in body.now }
{
    let parties = had[0].min(had[1]).min(had[2]);
    words[33] = parties as u64;
    words[34 + 6 * parties..].fill(0);
}

// The fields of a body one by one, from words that are all zero.
pub fn note_all(body: &[u8], words: &mut [u64; 82])
    requires { words.old ≡ replicate 82 0 }
    ensures { words.new ≡ words_in body.now }
{
    let mut had = [0; 3];
    let mut at = 0;
    loop {
        match item_at(body, at) {
            Item::Field {
                tag,
                start,
                end,
                next,
            } => {
                note(body, words, &mut had, tag, Span { start, end });
                at = next;
            }
            Item::Malformed { next, .. } => at = next,
            Item::End | Item::NoBody => {
                finish(body, words, &had);
                return;
            }
        }
    }
}
