// What refuses each step of a fit bank: the lowest number that applies. Reads the bank, writes nothing.
ghost use Rattle.std.specs.Prelude.{◌≡◌};
ghost use Rattle.numbers.specs.Numbers.{given};
ghost use Rattle.bank.specs.Layout.{paper, layout, words};
ghost use Rattle.refusals.specs.Step.{broadcast, send, receive, crash, detect, lose};
ghost use Rattle.refusals.specs.Asking.{meant};
ghost use Rattle.refusals.specs.Refusals;

use crate::beginnings::{actor, ends, moves};
use crate::delivery::delivery_refusal;
use crate::step::Step;
use bank::{Bank, Room};
use numbers::{Mode, Refusal};

fn of_broadcast<R: Room>(bank: &[u16], who: u16, stamp: u16, value: u16) -> Result<(), Refusal>
    ensures { given result
        ≡ Refusals.refusal (layout R.room) (words (layout R.room) bank.now) (broadcast who stamp value) }
{
    actor(bank, who)?;
    Refusal::MessagesFull.unless(bank::word(bank, Bank::COUNT) < R::MESSAGES)
}

fn of_send<R: Room>(bank: &[u16], from: u16, to: u16, m: u16) -> Result<(), Refusal>
    ensures { given result ≡ Refusals.refusal (layout R.room) (words (layout R.room) bank.now) (send from to m) }
{
    ends(bank, from, to, m)?;
    let up = bank::word(bank, Bank::UP);
    moves(up, from, bank::unsent::<R>(bank, m, from), to)
}

fn of_receive<R: Room>(bank: &[u16], i: u16, from: u16, m: u16) -> Result<(), Refusal>
    ensures { given result ≡ Refusals.refusal (layout R.room) (words (layout R.room) bank.now) (receive i from m) }
{
    ends(bank, i, from, m)?;
    let up = bank::word(bank, Bank::UP);
    moves(up, i, bank::in_flight::<R>(bank, m, i), from)
}

fn of_crash(bank: &[u16], who: u16) -> Result<(), Refusal>
    ensures { given result ≡ Refusals.refusal paper (words paper bank.now) (crash who) }
{
    actor(bank, who)
}

fn of_detect(bank: &[u16], i: u16, j: u16) -> Result<(), Refusal>
    ensures { given result ≡ Refusals.refusal paper (words paper bank.now) (detect i j) }
{
    let n = bank::word(bank, Bank::N);
    let up = bank::word(bank, Bank::UP);
    let mode = bank::word(bank, Bank::MODE);
    Refusal::NoController.unless(i < n)?;
    Refusal::NoController.unless(j < n)?;
    Refusal::NoDetection.unless(mode == Mode::AllAck as u16)?;
    Refusal::ActorDown.unless(sets::has(up, i))?;
    Refusal::NotYet.unless(!sets::has(up, j))?;
    Refusal::Already.unless(sets::has(bank::view(bank, i), j))
}

fn of_lose<R: Room>(bank: &[u16], from: u16, to: u16, m: u16) -> Result<(), Refusal>
    ensures { given result ≡ Refusals.refusal (layout R.room) (words (layout R.room) bank.now) (lose from to m) }
{
    ends(bank, from, to, m)?;
    let up = bank::word(bank, Bank::UP);
    Refusal::NoCopy.unless(sets::has(bank::in_flight::<R>(bank, m, to), from))?;
    Refusal::NotYet.unless(!(sets::has(up, from) && sets::has(up, to)))
}

// What refuses a step of a fit bank. A match, and no table of functions: each kind has numbers of its own.
pub(crate) fn of_fit<R: Room>(bank: &[u16], step: Step) -> Result<(), Refusal>
    ensures { given result ≡ Refusals.refusal (layout R.room) (words (layout R.room) bank.now) (meant step) }
{
    match step {
        Step::Broadcast { who, stamp, value } => of_broadcast::<R>(bank, who, stamp, value),
        Step::Send { from, to, message } => of_send::<R>(bank, from, to, message),
        Step::Receive { at, from, message } => of_receive::<R>(bank, at, from, message),
        Step::Deliver { at, message } => delivery_refusal::<R>(bank, at, message),
        Step::Crash { who } => of_crash(bank, who),
        Step::Detect { at, of } => of_detect(bank, at, of),
        Step::Lose { from, to, message } => of_lose::<R>(bank, from, to, message),
    }
}
