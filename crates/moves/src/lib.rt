// What a session's moves are made of: its record, what is seen of a frame's body, and the plan that a rule makes of it.
#![tactic(auto)]

mod gaps;
mod plan;
mod reads;
mod record;
mod times;

pub use gaps::{asks_or_not, missing, resetting};
pub use plan::{
    Letter, Plan, accepting, closing, counting, delivering, expecting, next_after, saying, serving,
    staying,
};
pub use reads::{holds, holds_at, number, number_at, number_in, type_in};
pub use record::{Record, Replay, Status, is_comp_id, is_string};
pub use times::{NoTime, time_in};
