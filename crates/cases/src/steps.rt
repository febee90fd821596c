// One step: each refusal number, by each kind that can give it.
use crate::groups::{after, after_broadcasts, opened};
use crate::kinds::{asked, broadcast, crash, deliver, detect, lose, receive, send};
use crate::say;
use bank::Bank;
use numbers::{Kind, Mode};
use std::io;
use std::io::Print;

fn unfit(rt: &impl Print) -> io::Result<()> {
    let mut bank = opened(3, Mode::AllAck);
    bank[Bank::MODE] = 3;
    say::steps(
        rt,
        &mut bank,
        &[
            ("step in an unfit bank", asked(Kind::Crash as u16, 0, 0, 0)),
            ("step of no kind in an unfit bank", asked(9, 0, 0, 0)),
        ],
    )
}

fn not_asked(rt: &impl Print) -> io::Result<()> {
    say::steps(
        rt,
        &mut opened(3, Mode::AllAck),
        &[
            ("kind 0", asked(0, 0, 0, 0)),
            ("kind 8", asked(8, 0, 0, 0)),
            (
                "deliver with a third number",
                asked(Kind::Deliver as u16, 0, 0, 1),
            ),
            (
                "crash with a second number",
                asked(Kind::Crash as u16, 0, 1, 0),
            ),
            (
                "crash with a third number",
                asked(Kind::Crash as u16, 0, 0, 1),
            ),
            (
                "detect with a third number",
                asked(Kind::Detect as u16, 0, 1, 1),
            ),
        ],
    )
}

fn not_there(rt: &impl Print) -> io::Result<()> {
    say::steps(
        rt,
        &mut opened(3, Mode::AllAck),
        &[
            ("broadcast by controller 3 of 3", broadcast(3, 0, 0)),
            ("send to controller 3 of 3", send(0, 3, 0)),
            ("receive from controller 3 of 3", receive(0, 3, 0)),
            ("deliver by controller 3 of 3", deliver(3, 0)),
            ("crash of controller 3 of 3", crash(3)),
            ("detect of controller 3 of 3", detect(0, 3)),
            ("lose from controller 3 of 3", lose(3, 0, 0)),
        ],
    )
}

fn not_given(rt: &impl Print) -> io::Result<()> {
    say::steps(
        rt,
        &mut opened(3, Mode::AllAck),
        &[
            ("send of a message not given", send(0, 1, 0)),
            ("receive of a message not given", receive(0, 1, 0)),
            ("deliver of a message not given", deliver(0, 0)),
            ("lose of a message not given", lose(0, 1, 0)),
        ],
    )
}

fn down(rt: &impl Print) -> io::Result<()> {
    say::steps(
        rt,
        &mut opened(3, Mode::Majority),
        &[
            ("detect in majority mode", detect(0, 1)),
            ("crash", crash(0)),
            ("broadcast by one that is down", broadcast(0, 0, 0)),
            ("crash of one that is down", crash(0)),
            ("detect in majority mode by one that is down", detect(0, 1)),
        ],
    )
}

fn copies(rt: &impl Print) -> io::Result<()> {
    say::steps(
        rt,
        &mut opened(3, Mode::AllAck),
        &[
            ("broadcast", broadcast(0, 95, 7)),
            ("send of a copy not to be sent", send(1, 0, 0)),
            ("receive of a copy not in flight", receive(1, 0, 0)),
            ("lose of a copy not in flight", lose(0, 1, 0)),
            ("deliver of a message not held", deliver(1, 0)),
            ("deliver with acknowledgements missing", deliver(0, 0)),
        ],
    )
}

fn sender_up_and_down(rt: &impl Print) -> io::Result<()> {
    say::steps(
        rt,
        &mut after(3, &[broadcast(0, 95, 7)]),
        &[
            ("send", send(0, 1, 0)),
            ("the same send again", send(0, 1, 0)),
            ("lose with both ends up", lose(0, 1, 0)),
            ("detect of one that is up", detect(1, 0)),
            ("crash of the sender", crash(0)),
            ("send by one that is down", send(0, 2, 0)),
            ("detect of one that is down", detect(1, 0)),
            ("the same detect again", detect(1, 0)),
            ("lose with the sender down", lose(0, 1, 0)),
        ],
    )
}

// A copy is on its way to one that is down: it acts no more, and the copy may be lost, but only once.
fn receiver_down(rt: &impl Print) -> io::Result<()> {
    say::steps(
        rt,
        &mut after(2, &[broadcast(0, 95, 7), send(0, 1, 0), crash(1)]),
        &[
            ("receive by one that is down", receive(1, 0, 0)),
            ("deliver by one that is down", deliver(1, 0)),
            ("detect by one that is down", detect(1, 0)),
            ("lose with the receiver down", lose(0, 1, 0)),
            ("the same loss again", lose(0, 1, 0)),
        ],
    )
}

fn deliveries(rt: &impl Print) -> io::Result<()> {
    let mut bank = after(1, &[broadcast(0, 0, 0), send(0, 0, 0)]);
    say::steps(
        rt,
        &mut bank,
        &[
            ("receive", receive(0, 0, 0)),
            ("the same receive again", receive(0, 0, 0)),
        ],
    )?;
    let mut spoilt = bank;
    say::steps(
        rt,
        &mut bank,
        &[
            ("deliver", deliver(0, 0)),
            ("a second deliver", deliver(0, 0)),
        ],
    )?;
    spoilt[bank::length_at::<Bank>(0)] = 1;
    say::steps(
        rt,
        &mut spoilt,
        &[("deliver into a full log", deliver(0, 0))],
    )
}

// Broadcast 32 is fine, the 33rd is not.
fn broadcasts(rt: &impl Print) -> io::Result<()> {
    say::steps(
        rt,
        &mut after_broadcasts(31),
        &[
            ("broadcast 32", broadcast(15, 65535, 65535)),
            ("broadcast 33", broadcast(0, 0, 0)),
        ],
    )
}

pub(crate) fn show(rt: &impl Print) -> io::Result<()> {
    unfit(rt)?;
    not_asked(rt)?;
    not_there(rt)?;
    not_given(rt)?;
    down(rt)?;
    copies(rt)?;
    sender_up_and_down(rt)?;
    receiver_down(rt)?;
    deliveries(rt)?;
    broadcasts(rt)
}
