// A Rattle caller's own list of step records, walked by one thin function over the group's single step. C programs
// have the same call from `step_records_c`. It stands beside `lists::run`, whose list is of words: one walk for both
// would go over an iterator, with clauses on what it yields and that it ends, and be no plainer than two short loops.
#![tactic(auto)]

ghost use Rattle.numbers.specs.Numbers.{given};
ghost use Rattle.step_records.specs.Records.{StepsPromise};

use bank::Bank;
use lists::Ran;
use numbers::{Asked, Refusal};

// Applies the steps in order up to the first refusal; what was applied before it stays and is counted.
#[tactic(auto, using(crate::proofs::ByRecord::by_record))]
pub fn run_steps(bank: &mut [u16], steps: &[Asked]) -> Ran
    ensures { StepsPromise bank.old steps.now result.accepted (given result.ended) bank.new }
{
    if !bank::fit::<Bank>(bank) {
        return Ran {
            accepted: 0,
            ended: Err(Refusal::Unfit),
        };
    }
    for (accepted, &asked) in steps.iter().enumerate() {
        if let Err(refusal) = group::step::<Bank>(bank, asked) {
            return Ran {
                accepted,
                ended: Err(refusal),
            };
        }
    }
    Ran {
        accepted: steps.len(),
        ended: Ok(()),
    }
}
