// Lists, logs and days: each refusal number with all that is answered beside it, and both sides of the last day.
use crate::groups::{after, opened};
use crate::kinds::{broadcast, crash, deliver, detect, receive, send};
use crate::say;
use bank::{Bank, Room};
use day::Tally;
use lists::Ran;
use numbers::Mode;
use std::io;
use std::io::Print;

fn say_ran(rt: &impl Print, what: &str, ran: Ran) -> io::Result<()> {
    println!(rt; "{what}: accepted {}", ran.accepted)?;
    println!(rt; "{what}: refusal {}", numbers::given(ran.ended))
}

fn ragged_lists(rt: &impl Print) -> io::Result<()> {
    let mut bank = opened(2, Mode::AllAck);
    let ragged = [5u16, 0, 0];
    say_ran(rt, "ragged list", lists::run::<Bank>(&mut bank, &ragged))?;
    say_ran(
        rt,
        "ragged list on a bank one word short",
        lists::run::<Bank>(&mut bank[1..], &ragged),
    )
}

// A list that stops keeps what it had applied, and applies no more.
fn lists(rt: &impl Print) -> io::Result<()> {
    let mut bank = opened(2, Mode::AllAck);
    let whole = [1u16, 0, 95, 7, 2, 0, 0, 0];
    say_ran(
        rt,
        "list of two steps",
        lists::run::<Bank>(&mut bank, &whole),
    )?;
    say_ran(rt, "empty list", lists::run::<Bank>(&mut bank, &[]))?;
    let stopped = [1u16, 0, 95, 7, 2, 0, 1, 0, 2, 0, 1, 0, 5, 0, 0, 0];
    say_ran(
        rt,
        "list with a send twice",
        lists::run::<Bank>(&mut bank, &stopped),
    )?;
    say::steps(
        rt,
        &mut bank,
        &[
            ("receive of the copy that it sent", receive(1, 0, 0)),
            ("the crash that it did not reach", crash(0)),
        ],
    )
}

// Both questions about a log.
fn say_log(rt: &impl Print, what: &str, bank: &[u16], who: u16) -> io::Result<()> {
    let length = lists::log_length::<Bank>(bank, who);
    say::refusal(rt, what, length)?;
    println!(rt; "{what}: length {}", length.unwrap_or(0))?;
    let log = lists::log::<Bank>(bank, who);
    println!(rt; "{what}: entries {}", log.len())?;
    for m in log {
        println!(rt; "{what}: entry {m}")?;
    }
    Ok(())
}

// Controller 1 is alone and delivers its two readings, the later one first.
fn read_twice() -> [u16; Bank::WORDS] {
    after(
        2,
        &[
            crash(0),
            detect(1, 0),
            broadcast(1, 65535, 7),
            broadcast(1, 65472, 9),
            send(1, 1, 0),
            send(1, 1, 1),
            receive(1, 1, 0),
            receive(1, 1, 1),
            deliver(1, 1),
            deliver(1, 0),
        ],
    )
}

fn logs(rt: &impl Print) -> io::Result<()> {
    let mut bank = read_twice();
    say_log(rt, "log of controller 0 of 2", &bank, 0)?;
    say_log(rt, "log of controller 1 of 2", &bank, 1)?;
    say_log(rt, "log of controller 2 of 2", &bank, 2)?;
    bank[bank::length_at::<Bank>(0)] = 3;
    say_log(rt, "log in an unfit bank", &bank, 1)
}

fn say_day(rt: &impl Print, what: &str, bank: &[u16], who: u16, on: u16) -> io::Result<()> {
    let tally = day::tally_day::<Bank>(bank, who, on);
    say::refusal(rt, what, tally)?;
    let Tally { count, sum } = tally.unwrap_or_default();
    println!(rt; "{what}: count {count}")?;
    println!(rt; "{what}: sum {sum}")
}

fn days(rt: &impl Print) -> io::Result<()> {
    let bank = read_twice();
    say_day(rt, "day 681", &bank, 1, 681)?;
    say_day(rt, "day 682", &bank, 1, 682)?;
    say_day(rt, "day 683", &bank, 1, 683)?;
    say_day(rt, "day 683 of controller 2 of 2", &bank, 2, 683)
}

// The second entry of the log is no message, or the bank is unfit.
fn spoilt_days(rt: &impl Print) -> io::Result<()> {
    let mut bank = read_twice();
    bank[bank::log_at::<Bank>(1, 1)] = 2;
    say_day(rt, "day of a log with an entry not given", &bank, 1, 682)?;
    bank[Bank::N] = 0;
    say_day(rt, "day in an unfit bank", &bank, 1, 683)
}

pub(crate) fn show(rt: &impl Print) -> io::Result<()> {
    ragged_lists(rt)?;
    lists(rt)?;
    logs(rt)?;
    days(rt)?;
    spoilt_days(rt)
}
