// The reports that a store keeps: where a new one goes, where the one of a number stands, and how far a run of other numbers goes.
#![tactic(auto)]

ghost use Rattle.std.specs.Prelude.{◌≡◌, true, ◌+◌, ◌≤◌, ◌<◌, [], length, get_or, nat_lt};
ghost use Rattle.std.specs.List.{IsFirstBest};
ghost use Rattle.places.specs.Places.{is_store, places};
ghost use Rattle.store.specs.Store.{numbers, stands, takes, kept};
ghost use Rattle.store.specs.Plan.{run_to};
ghost use Rattle.store.specs.code.Peeked.{AllPeeked};

use kept::{CompIds, kept_number, peek_number};

// A store, and the CompIDs between which it keeps reports.
#[derive(Clone, Copy)]
pub struct Reports<'s, 'i> {
    pub store: &'s [u8],
    pub ids: CompIds<'i>,
    pub ghost whole: { is_store store.now ≡ true },
}

// The place of the lowest of 64 numbers.
fn lowest_place(numbers: &[u64; 64]) -> usize
    ensures { IsFirstBest nat_lt numbers.now 64 result }
{
    let mut at = 0;
    for i in 1..64 {
        if numbers[i] < numbers[at] {
            at = i;
        }
    }
    at
}

// A place of a store, counted from 0.
fn place_at(store: &[u8], i: usize) -> &[u8]
    requires { (is_store store.now ≡ true) × (i < 64) }
    ensures is { result.now ≡ get_or (places store.now) i [] }
    ensures size { length result.now ≡ 512 }
{
    &store[512 * i..512 * i + 512]
}

// The number that stands in each place of a store, read alone, for CompIDs of so many bytes together.
pub fn peeked(store: &[u8], ids: usize) -> [u64; 64]
    requires { (is_store store.now ≡ true) × (ids ≤ 22) }
    ensures { AllPeeked store.now ids result }
{
    let mut numbers = [0; 64];
    for i in 0..64 {
        numbers[i] = peek_number(place_at(store, i), ids);
    }
    numbers
}

impl<'s, 'i> Reports<'s, 'i> {
    // A place of the store.
    pub fn place(&self, i: usize) -> &'s [u8]
        requires { i < 64 }
        ensures is { result.now ≡ get_or (places self.now.store.now) i [] }
        ensures size { length result.now ≡ 512 }
    {
        place_at(self.store, i)
    }

    // The place that a new report takes: the first empty one, else the lowest number's.
    pub fn free_place(&self) -> usize
        ensures { result ≡ takes (kept self.now.ids.us.now self.now.ids.them.now self.now.store.now) }
    {
        let mut numbers = [0; 64];
        for i in 0..64 {
            let Some(n) = kept_number(self.place(i), &self.ids) else {
                return i;
            };
            if numbers[..i].contains(&n) {
                return i;
            }
            numbers[i] = n;
        }
        lowest_place(&numbers)
    }

    // The same for these CompIDs: once for a whole replay call, so that it is no field.
    pub fn peeked(&self) -> [u64; 64]
        ensures { AllPeeked self.now.store.now (length self.now.ids.us.now + length self.now.ids.them.now) result }
    {
        peeked(self.store, self.ids.len())
    }

    // Where the report of a number stands, if it is kept. Only a place in which that number stands read alone is looked at whole.
    pub fn place_of(&self, alone: &[u64; 64], n: u64) -> Option<usize>
        requires { (1 ≤ n) × AllPeeked self.now.store.now (length self.now.ids.us.now + length self.now.ids.them.now) alone.now }
        ensures { result ≡ stands n (kept self.now.ids.us.now self.now.ids.them.now self.now.store.now) }
    {
        for i in 0..64 {
            if alone[i] == n && kept_number(self.place(i), &self.ids) == Some(n) {
                return Some(i);
            }
        }
        None
    }

    // How far a run of numbers goes that are not kept, from one to another at most. Reports stand mostly in the order of their numbers, so the first
    // places end it soon; and only a place whose number read alone would end it is looked at whole.
    pub fn run_to(&self, alone: &[u64; 64], at: u64, end: u64) -> u64
        requires { AllPeeked self.now.store.now (length self.now.ids.us.now + length self.now.ids.them.now) alone.now }
        ensures { result ≡ run_to at end (numbers (kept self.now.ids.us.now self.now.ids.them.now self.now.store.now)) }
    {
        let mut e = end;
        for i in 0..64 {
            let n = alone[i];
            if at < n && n <= e && kept_number(self.place(i), &self.ids) == Some(n) {
                e = n - 1;
            }
        }
        e
    }
}
