// The tests that several kinds begin with. Reads the header alone, writes nothing. The header stands alike in every
// layout: what is said of it is said of the paper's.
ghost use Rattle.std.specs.Prelude.{◌≡◌, [], ◌∷◌};
ghost use Rattle.numbers.specs.Numbers.{given};
ghost use Rattle.sets.specs.Set.{has};
ghost use Rattle.bank.specs.Layout.{paper, words};
ghost use Rattle.bank.specs.Rules.{◌else◌, first_broken};
ghost use Rattle.refusals.specs.Refusals;

use bank::Bank;
use numbers::Refusal;

// A controller that acts is there and up.
pub(crate) fn actor(bank: &[u16], i: u16) -> Result<(), Refusal>
    ensures { given result ≡ first_broken (Refusals.actor (words paper bank.now) i) }
{
    Refusal::NoController.unless(i < bank::word(bank, Bank::N))?;
    Refusal::ActorDown.unless(sets::has(bank::word(bank, Bank::UP), i))
}

// Two controllers and a message are there.
pub(crate) fn ends(bank: &[u16], i: u16, j: u16, m: u16) -> Result<(), Refusal>
    ensures { given result ≡ first_broken (Refusals.ends (words paper bank.now) i j m) }
{
    let n = bank::word(bank, Bank::N);
    Refusal::NoController.unless(i < n)?;
    Refusal::NoController.unless(j < n)?;
    Refusal::NoMessage.unless(m < bank::word(bank, Bank::COUNT))
}

// The acting controller i is up, and j is in the set that the step takes it from.
pub(crate) fn moves(up: u16, i: u16, set: u16, j: u16) -> Result<(), Refusal>
    ensures { given result ≡ first_broken (has up i else 6 ∷ has set j else 8 ∷ []) }
{
    Refusal::ActorDown.unless(sets::has(up, i))?;
    Refusal::NoCopy.unless(sets::has(set, j))
}
