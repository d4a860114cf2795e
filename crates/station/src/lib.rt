// One station of a consensus run, and the step by which it takes a message.
#![tactic(auto)]

mod broadcast;
mod state;
mod step;
mod turn;

pub use broadcast::{Broadcast, Content};
pub use state::{Phase, Station};
pub use step::{MAX_ROUND, MAX_STAMP, Outcome, Refused, Step};
