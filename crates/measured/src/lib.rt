// What the bench measures by itself though no C call is it: the sum of bytes. No venue links this.
#![tactic(auto)]

ghost use Rattle.std.specs.Prelude.{◌≡◌, ◌%◌};
ghost use Rattle.octets.specs.Bytes.{sum};

use octets::checksum;

// The sum of bytes, modulo 256.
#[unsafe(no_mangle)]
pub extern "C" fn measured_sum(s: &[u8]) -> u8
    ensures { result ≡ sum s.now % 256 }
{
    checksum(s)
}
