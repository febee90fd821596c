// The settler takes the first allowed step again and again. It changes the bank through the group's single steps alone.
// It works on both sizes of bank.
#![tactic(auto)]

mod search;

ghost use Rattle.bank.specs.Layout.{layout};
ghost use Rattle.settler.specs.Answer.{SettleAnswer};

use bank::Room;
use numbers::Refusal;

// The steps taken, and whether no step is left.
#[derive(Clone, Copy, Debug, PartialEq, Eq)]
pub struct Settled {
    pub steps: u16,
    pub quiet: bool,
}

// Until no step is left or the budget is spent.
#[tactic(auto, unfolding(crate::specs::Settling::settle_of))]
pub fn settle<R: Room>(bank: &mut [u16], budget: u16) -> Result<Settled, Refusal>
    ensures { SettleAnswer (layout R.room) bank.old budget result bank.new }
{
    Refusal::Unfit.unless(bank::fit::<R>(bank))?;
    for steps in 0..budget {
        let Some(step) = search::first_step::<R>(bank) else {
            return Ok(Settled { steps, quiet: true });
        };
        group::take::<R>(bank, step).unwrap();
    }
    let quiet = search::first_step::<R>(bank).is_none();
    Ok(Settled {
        steps: budget,
        quiet,
    })
}
