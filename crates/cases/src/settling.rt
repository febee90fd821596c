// Settling: an unfit bank, a budget on both sides of what is needed, and a full bank, opened and spoilt.
use crate::groups::{after, after_broadcasts};
use crate::kinds::broadcast;
use crate::say;
use bank::{Bank, Room};
use std::io;
use std::io::Print;

fn settle(rt: &impl Print, what: &str, bank: &mut [u16], budget: u16) -> io::Result<()> {
    let settled = settler::settle::<Bank>(bank, budget);
    say::refusal(rt, what, settled)?;
    println!(rt; "  steps {}", settled.map_or(0, |s| s.steps))?;
    println!(rt; "  quiet {}", u16::from(settled.is_ok_and(|s| s.quiet)))
}

// A fit header over a body of set bits.
fn spoilt() -> [u16; Bank::WORDS] {
    let mut bank = after_broadcasts(32);
    bank[bank::log_at::<Bank>(0, 0)..].fill(65535);
    bank
}

pub(crate) fn show(rt: &impl Print) -> io::Result<()> {
    let mut bank = after(1, &[broadcast(0, 0, 0)]);
    settle(
        rt,
        "settle one message of one controller with 2",
        &mut bank,
        2,
    )?;
    settle(rt, "settle with exactly what is left", &mut bank, 1)?;
    settle(rt, "settle with 0 when nothing is left", &mut bank, 0)?;
    bank[Bank::COUNT] = 33;
    settle(rt, "settle an unfit bank", &mut bank, 9)?;
    settle(rt, "settle a full bank", &mut after_broadcasts(32), 17136)?;
    settle(rt, "settle a full spoilt bank", &mut spoilt(), 65535)
}
