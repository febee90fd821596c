// Delivery: the test of each mode, and what refuses a delivery. Step and settler both ask here. Reads the bank, writes
// nothing.
ghost use Rattle.std.specs.Prelude.{◌≡◌, [], ◌∷◌, not, ltb};
ghost use Rattle.numbers.specs.Numbers.{given};
ghost use Rattle.sets.specs.Set.{has};
ghost use Rattle.bank.specs.Layout.{layout, words};
ghost use Rattle.bank.specs.Rules.{◌else◌, first_broken};
ghost use Rattle.refusals.specs.Delivery;
ghost use Rattle.refusals.specs.Delivery.{may_deliver, deliver_rules};

use crate::beginnings::moves;
use bank::{Bank, Room};
use numbers::{Mode, Refusal};

// The delivery test of a mode, which as a bank's word may be any number, among n controllers: whom one of them takes
// to be up, and from whom it has the message.
#[tactic(auto, unfolding(crate::specs::Delivery::enough))]
fn enough(mode: u16, n: u16, trusted: u16, received: u16) -> bool
    ensures { result ≡ Delivery.enough mode n trusted received }
{
    match Mode::try_from(mode) {
        Ok(Mode::AllAck) => sets::within(trusted, received, n),
        _ => u32::from(n) < 2 * sets::count_below(received, n),
    }
}

// Whether controller i has heard enough of message m.
fn may_deliver<R: Room>(bank: &[u16], i: u16, m: u16) -> bool
    ensures { result ≡ may_deliver (words (layout R.room) bank.now) i m }
{
    let mode = bank::word(bank, Bank::MODE);
    let n = bank::word(bank, Bank::N);
    enough(mode, n, bank::view(bank, i), bank::acked::<R>(bank, m, i))
}

// The last tests of a delivery: not done yet, and room in the log.
fn undelivered(delivered: u16, i: u16, length: u16, count: u16) -> Result<(), Refusal>
    ensures { given result ≡ first_broken (not (has delivered i) else 10 ∷ ltb length count else 1 ∷ []) }
{
    Refusal::Already.unless(!sets::has(delivered, i))?;
    Refusal::Unfit.unless(length < count)
}

// What refuses a delivery in a fit bank.
pub fn delivery_refusal<R: Room>(bank: &[u16], i: u16, m: u16) -> Result<(), Refusal>
    ensures { given result ≡ first_broken (deliver_rules (words (layout R.room) bank.now) i m) }
{
    let count = bank::word(bank, Bank::COUNT);
    Refusal::NoController.unless(i < bank::word(bank, Bank::N))?;
    Refusal::NoMessage.unless(m < count)?;
    moves(bank::word(bank, Bank::UP), i, bank::held::<R>(bank, m), i)?;
    Refusal::NotYet.unless(may_deliver::<R>(bank, i, m))?;
    undelivered(
        bank::delivered::<R>(bank, m),
        i,
        bank::logged::<R>(bank, i),
        count,
    )
}
