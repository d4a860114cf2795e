// A run over the tables of its caller.
#![tactic(auto)]

mod close;
mod closed;
mod consult;
mod crash;
mod deliver;
mod gather;
mod gathering;
mod incoming;
mod limits;
mod plan;
mod refusal;
mod running;
mod sending;
mod tables;

pub use closed::Closed;
pub use gathering::Gathering;
pub use refusal::Refusal;
pub use running::Running;
