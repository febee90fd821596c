// The paper's chapter "The bank": where each word of a lent run of words stands, what makes a bank unfit, and opening.
// What takes a `Room` is for both sizes, and whatever else is alike in both.
#![tactic(auto)]

mod layout;
mod opening;
mod unfit;
mod words;

pub use layout::{
    Bank, Rack, Room, acked_at, flight_at, length_at, log_at, record_at, record_end, unsent_at,
    view_at,
};
pub use opening::{clear, open};
pub use unfit::fit;
pub use words::{
    acked, delivered, held, in_flight, logged, sender, stamp, unsent, value, view, word,
};
