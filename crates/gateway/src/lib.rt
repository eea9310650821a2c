// The calls of the C host: numbers, byte slices and words in, numbers and words out. No call has a precondition, and each has one relation of
// specs/ as its contract. Numbers and words are what C has. They stand by what they work on: the line, a body, a message's values, a session's record, a trade's report.
#![tactic(auto)]

mod body;
mod record;
mod stream;
mod trades;
mod writing;

ghost use Rattle.std.specs.Prelude.{◌≡◌};
ghost use Rattle.gateway.specs.Border.{version};

pub use body::{fixgw_field, fixgw_first_field, fixgw_verdict};
pub use record::{
    fixgw_logout, fixgw_new, fixgw_reconnect, fixgw_step, fixgw_test_request, fixgw_tick,
};
pub use stream::{fixgw_body, fixgw_drop, fixgw_put, fixgw_read};
pub use trades::{fixgw_replay, fixgw_report, fixgw_report_values};
pub use writing::fixgw_write;

// The library's version: major * 10000 + minor * 100 + patch.
#[unsafe(no_mangle)]
pub extern "C" fn fixgw_version() -> u32
    ensures { result ≡ version }
{
    20_300
}
