// The paper's chapter "Numbers given back": what refuses a step. Nothing is changed and nothing is kept between calls.
// What takes a `Room` is for both sizes of bank.
#![tactic(auto)]

mod asking;
mod beginnings;
mod delivery;
mod kinds;
mod step;

pub use asking::{allowed, of_step, refusal};
pub use delivery::delivery_refusal;
pub use step::Step;
