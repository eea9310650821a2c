// The session's record as the C side keeps it: 24 bytes for the CompIDs with their lengths, and 24 words.
ghost use Rattle.std.specs.Prelude.{◌≤◌, ◌≡◌, [], ◌∷◌, eqb, length, replicate};
ghost use Rattle.std.proofs.lemmas.List.Edits.{sets};
ghost use Rattle.octets.specs.Bytes.{all};
ghost use Rattle.session.specs.Refusals.{No, numbers};
ghost use Rattle.border.specs.Numbers.{refusal_of, RefusedOut};
ghost use Rattle.border.specs.Record.{eleven, comp_ids_of, gap_words, words_of, saved, status_of, gap_in, record_in};
ghost use Rattle.moves.specs.code.Reads.{told};

use crate::answer::number_of;
use gap::Gap;
use moves::{Record, Replay, Status};
use session::{Answered, Refusal};

// Whether words are zero. The fold has no way out, so the compiler compares several words at once.
fn are_zero(words: &[u64]) -> bool
    ensures { result ≡ all (λ w. eqb w 0) words.now }
{
    words.iter().fold(true, |zero, w| zero & (*w == 0))
}

// The status by its number.
fn status_of(n: u64) -> Option<Status>
    ensures { result ≡ told (status_of n) }
{
    match n {
        0 => Some(Status::Waiting),
        1 => Some(Status::Active),
        2 => Some(Status::Closed),
        _ => None,
    }
}

fn eleven_from(ids: &[u8; 24], at: usize) -> [u8; 11]
    requires { at ≤ 13 }
    ensures { result ≡ eleven at ids.now }
{
    let mut c = [0u8; 11];
    c.copy_from_slice(&ids[at..at + 11]);
    c
}

// The gap that lies in the words.
fn gap_from(words: &[u64]) -> Gap
    requires { length words.now ≡ 24 }
    ensures { result ≡ gap_in words.now }
{
    Gap {
        isOpen: words[8],
        expected: words[9],
        highest: words[10],
        asked: words[11],
    }
}

// The record that lies in the bytes and words, if they are 24 words of this version, with a status, and zeros behind the twelve that are used. The words go by
// the places that the host's header gives them (FIXGW_WORD_ in include/fixgw.h).
pub fn load(ids: &[u8; 24], words: &[u64]) -> Option<Record>
    ensures { result ≡ told (record_in ids.now words.now) }
{
    if words.len() != 24 {
        return None;
    }
    if words[0] != 1 {
        return None;
    }
    let status = status_of(words[1])?;
    if !are_zero(&words[12..]) {
        return None;
    }
    Some(Record {
        ours: eleven_from(ids, 1),
        oursLen: usize::from(ids[0]),
        peer: eleven_from(ids, 13),
        peerLen: usize::from(ids[12]),
        status,
        expected: words[2],
        next: words[3],
        heartbeat: words[4],
        sent: words[5],
        replay: Replay {
            at: words[6],
            to: words[7],
        },
        gap: gap_from(words),
    })
}

// A gap into its words.
fn save_gap(words: &mut [u64], g: Gap)
    requires { length words.old ≡ 24 }
    ensures { words.new ≡ sets words.old 8 (gap_words g) }
{
    words[8] = g.isOpen;
    words[9] = g.expected;
    words[10] = g.highest;
    words[11] = g.asked;
}

// The state of a record into its words; the others stay.
fn save(words: &mut [u64], r: Record)
    requires { length words.old ≡ 24 }
    ensures { words.new ≡ saved words.old r }
{
    words[1] = r.status as u64;
    words[2] = r.expected;
    words[3] = r.next;
    words[4] = r.heartbeat;
    words[5] = r.sent;
    words[6] = r.replay.at;
    words[7] = r.replay.to;
    save_gap(words, r.gap);
}

// What a call on a record leaves: the state into the words, and its number.
pub fn leave(words: &mut [u64], left: Answered) -> u32
    requires { length words.old ≡ 24 }
    ensures { (result ≡ refusal_of (numbers left.answer)) × (words.new ≡ saved words.old left.after) }
{
    save(words, left.after);
    number_of(left.answer)
}

// What a call that writes a reply leaves: how long that is goes out too.
pub fn replied(words: &mut [u64], out: &mut [u64; 1], left: Answered) -> u32
    requires { length words.old ≡ 24 }
    ensures { (result ≡ refusal_of (numbers left.answer)) × (words.new ≡ saved words.old left.after) × (out.new ≡ left.len ∷ []) }
{
    *out = [left.len as u64];
    leave(words, left)
}

// A refusal of a call's: its number, and nothing goes out.
pub fn refuse<const N: usize>(out: &mut [u64; N], k: Refusal) -> u32
    ensures { RefusedOut N k result out.new }
{
    out.fill(0);
    u32::from(k)
}

// A CompID into its half of the bytes, behind its length.
fn save_id(half: &mut [u8], n: usize, c: &[u8; 11])
    requires { (length half.old ≡ 12) × (n ≤ 11) }
    ensures { half.new ≡ n ∷ eleven 0 c.now }
{
    half[0] = n as u8;
    half[1..].copy_from_slice(c);
}

// All bytes and words of a new record.
pub fn save_new(ids: &mut [u8; 24], words: &mut [u64], r: Record)
    requires { (length words.old ≡ 24) × ((r.oursLen ≤ 11) × (r.peerLen ≤ 11)) }
    ensures { (ids.new ≡ comp_ids_of r) × (words.new ≡ words_of r) }
{
    let (us, them) = ids.split_at_mut(12);
    save_id(us, r.oursLen, &r.ours);
    save_id(them, r.peerLen, &r.peer);
    words.fill(0);
    words[0] = 1;
    save(words, r);
}
