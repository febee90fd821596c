// What refuses a step, and the step that four numbers ask for: an unfit bank before all else.
ghost use Rattle.std.specs.Prelude.{◌≡◌};
ghost use Rattle.numbers.specs.Numbers.{given};
ghost use Rattle.bank.specs.Layout.{layout};
ghost use Rattle.refusals.specs.Asking.{meant, IsAsked};
ghost use Rattle.refusals.specs.Promises.{RefusalPromise, step_refusal};

use crate::kinds::of_fit;
use crate::step::Step;
use bank::Room;
use numbers::{Asked, Refusal};

// Whether the step is allowed, or what refuses it.
#[tactic(auto, unfolding(crate::specs::Promises::step_refusal))]
pub fn of_step<R: Room>(bank: &[u16], step: Step) -> Result<(), Refusal>
    ensures { given result ≡ step_refusal (layout R.room) bank.now (meant step) }
{
    Refusal::Unfit.unless(bank::fit::<R>(bank))?;
    of_fit::<R>(bank, step)
}

// Whether the step that is asked for is allowed, or what refuses it.
#[tactic(auto, unfolding(crate::specs::Promises::refusal_of))]
pub fn refusal<R: Room>(bank: &[u16], asked: Asked) -> Result<(), Refusal>
    ensures { RefusalPromise (layout R.room) bank.now asked (given result) }
{
    Refusal::Unfit.unless(bank::fit::<R>(bank))?;
    let step = Step::try_from(asked)?;
    of_fit::<R>(bank, step)?;
    Ok(())
}

// The step that is asked for where it is allowed, or what refuses it. It is made anew, since a step that `refusal` gave
// back would go through memory.
#[tactic(auto, unfolding(crate::specs::Promises::refusal_of))]
pub fn allowed<R: Room>(bank: &[u16], asked: Asked) -> Result<Step, Refusal>
    ensures refused { RefusalPromise (layout R.room) bank.now asked (given result) }
    ensures step { IsAsked asked result }
{
    refusal::<R>(bank, asked)?;
    Step::try_from(asked)
}
