// The cases of the scope paper that are run, and beside them every refusal number of opening, one step, the settler,
// the tally and the questions about a log, and of lists an unfit bank, a ragged list and a step that is refused. Each
// line says what was asked and what was answered; the file stdout beside this folder says what it should be.
#![tactic(auto)]

mod groups;
mod kinds;
mod openings;
mod questions;
mod say;
mod settling;
mod steps;

use std::io;

fn main(rt: HostRuntime) -> io::Result<()> {
    openings::show(&rt)?;
    steps::show(&rt)?;
    questions::show(&rt)?;
    settling::show(&rt)
}
