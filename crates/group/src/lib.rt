// The group's seven steps: what each writes, and one step, over a bank that the caller lends. Nothing is kept between
// calls. Everything is for both sizes of bank. What is right stands in specs/, what each call promises in
// specs/Promises.antt.
#![tactic(auto)]

mod one_step;
mod record;
mod steps;

pub use one_step::{step, take};
