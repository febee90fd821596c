// Opening: N and the mode on both sides of their limits.
use crate::say;
use bank::{Bank, Room};
use numbers::Mode;
use std::io;
use std::io::Print;

pub(crate) fn show(rt: &impl Print) -> io::Result<()> {
    let mut bank = [0u16; Bank::WORDS];
    let openings = [
        ("open N 0", 0, Mode::AllAck as u16),
        ("open N 1", 1, Mode::AllAck as u16),
        ("open N 16", 16, Mode::AllAck as u16),
        ("open N 17", 17, Mode::AllAck as u16),
        ("open mode 0", 3, 0),
        ("open mode 2", 3, Mode::Majority as u16),
        ("open mode 3", 3, 3),
    ];
    for (what, n, mode) in openings {
        say::refusal(rt, what, bank::open::<Bank>(&mut bank, n, mode))?;
    }
    say::refusal(
        rt,
        "open a bank one word short",
        bank::open::<Bank>(&mut bank[1..], 3, Mode::AllAck as u16),
    )
}
