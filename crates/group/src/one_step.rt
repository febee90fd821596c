// One step: its writes where nothing refuses it.
ghost use Rattle.std.specs.Prelude.{◌≡◌};
ghost use Rattle.numbers.specs.Numbers.{given};
ghost use Rattle.bank.specs.Layout.{layout};
ghost use Rattle.refusals.specs.Asking.{meant};
ghost use Rattle.group.specs.Promises.{StepPromise, TakePromise};

use crate::steps;
use bank::Room;
use numbers::{Asked, Refusal};
use refusals::Step;

// The step that four numbers ask for. What refuses it is given back; the bank is changed only where nothing does.
#[tactic(auto, unfolding(crate::specs::Promises::step_of))]
pub fn step<R: Room>(bank: &mut [u16], asked: Asked) -> Result<(), Refusal>
    ensures { StepPromise (layout R.room) bank.old asked (given result) bank.new }
{
    let step = refusals::allowed::<R>(bank, asked)?;
    steps::apply::<R>(bank, step);
    Ok(())
}

// A step that is known by its kind.
#[tactic(auto, using(crate::proofs::Taking::step_allowed), unfolding(crate::specs::Promises::taken))]
pub fn take<R: Room>(bank: &mut [u16], step: Step) -> Result<(), Refusal>
    ensures { TakePromise (layout R.room) bank.old (meant step) (given result) bank.new }
{
    refusals::of_step::<R>(bank, step)?;
    steps::apply::<R>(bank, step);
    Ok(())
}
