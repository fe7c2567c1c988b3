// What reaches a station without a command: front events, the common controls Z and C, and the test whether its block is fit.
#![tactic(auto)]

pub mod control;
pub mod fitness;
pub mod front;
