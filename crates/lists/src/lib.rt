// What is asked of a group beside one step: a list of steps, and a log. Everything is for both sizes of bank.
#![tactic(auto)]

mod logs;
mod steps;

pub use logs::{log, log_length};
pub use steps::{CRan, Ran, run};
