// The sum of bytes, eights at a time.
ghost use Rattle.std.specs.Prelude.{◌≡◌, ◌+◌, ◌*◌, ◌%◌, ◌<◌, ◌≤◌, length, take, drop};
ghost use Rattle.octets.specs.Bytes.{sum};
ghost use Rattle.octets.specs.code.Leaf.{Summed, SummedBy};

// The sum of the bytes before a place, modulo 2 ^ 64.
#[derive(Clone, Copy)]
struct Sum {
    total: u64,
    at: usize,
}

// The sum of n bytes of s from at on, at most 256 of them. The loop has no way out, so the compiler adds many of them at once.
fn sum_of(s: &[u8], at: usize, n: usize) -> u64
    requires { (at + n ≤ length s.now) × (n ≤ 256) }
    ensures { result ≡ sum (take n (drop at s.now)) }
{
    let mut t: u64 = 0;
    for &x in &s[at..at + n] {
        t += u64::from(x);
    }
    t
}

// n bytes more. The longest slice is more than 64 bits can add up, so the number wraps; 256 divides 2 ^ 64, and nothing is lost.
fn add(s: &[u8], front: Sum, n: usize) -> Sum
    requires { Summed s.now front × ((front.at + n ≤ length s.now) × (n ≤ 256)) }
    ensures { Summed s.now result × (result.at ≡ front.at + n) }
{
    let more = sum_of(s, front.at, n);
    Sum {
        total: front.total.wrapping_add(more),
        at: front.at + n,
    }
}

// All parts of 2 * n bytes are in: n bytes more where the length has that bit, and then all parts of n bytes are.
fn add_part(s: &[u8], front: Sum, n: usize) -> Sum
    requires { SummedBy s.now (2 * n) front × ((0 < n) × (n ≤ 256)) }
    ensures { SummedBy s.now n result }
{
    if s.len() / n % 2 == 0 {
        return front;
    }
    add(s, front, n)
}

// The sum of bytes, modulo 256: thirty-two eights at a time into a wider number, then the eights that are left, sixteen, eight, four, two and one of them,
// then the up to seven bytes behind, and one reduction. All of s is cut out anew, since the compiler hands such a slice on in registers. The `while` counts
// nothing by hand: it asks how many bytes are left.
pub fn checksum(s: &[u8]) -> u8
    ensures { result ≡ sum s.now % 256 }
{
    let all = &s[..];
    let n = all.len();
    let mut front = Sum { total: 0, at: 0 };
    while 256 <= n - front.at {
        front = add(all, front, 256);
    }
    let by_128 = add_part(all, front, 128);
    let by_64 = add_part(all, by_128, 64);
    let by_32 = add_part(all, by_64, 32);
    let by_16 = add_part(all, by_32, 16);
    let by_8 = add_part(all, by_16, 8);
    let whole = add(all, by_8, n % 8);
    (whole.total % 256) as u8
}
