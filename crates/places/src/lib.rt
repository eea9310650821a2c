// The store as the host lends it: 64 places of 512 bytes, zeros behind what stands in one.
#![tactic(auto)]

ghost use Rattle.std.specs.Prelude.{◌≡◌, true, ◌≤◌, ◌<◌, length};
ghost use Rattle.places.specs.Places.{is_store, put_at, zeroed};

// Whether bytes can be a store: 32,768 of them.
pub fn is_store(store: &[u8]) -> bool
    ensures { result ≡ is_store store.now }
{
    store.len() == 32_768
}

pub fn zero_store(store: &mut [u8])
    ensures { store.new ≡ zeroed store.old }
{
    store.fill(0);
}

// Puts a message into a place, counted from 0, with zeros behind it. (Byte by byte: `copy_from_slice`, of a length that isn't known, would ask C's
// library for memmove.)
pub fn put_place(store: &mut [u8], i: usize, m: &[u8])
    requires { (is_store store.old ≡ true) × (i < 64) × (length m.now ≤ 512) }
    ensures { store.new ≡ put_at i m.now store.old }
{
    let at = 512 * i;
    let n = m.len();
    for k in 0..n {
        store[at + k] = m[k];
    }
    store[at + n..at + 512].fill(0);
}
