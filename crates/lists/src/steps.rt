// A list of steps, applied in order up to the first refusal. Reads the list, writes the bank through single steps
// alone.
ghost use Rattle.std.specs.Prelude.{◌≡◌};
ghost use Rattle.numbers.specs.Numbers.{given};
ghost use Rattle.bank.specs.Layout.{layout};
ghost use Rattle.lists.specs.Lists.{RunPromise};

use bank::Room;
use numbers::{Asked, Refusal};

// How many steps were accepted, and whether the list came to its end or what refused the step after them.
#[derive(Clone, Copy, Debug, PartialEq, Eq)]
pub struct Ran {
    pub accepted: usize,
    pub ended: Result<(), Refusal>,
}

// The same for C programs: the refusal as its number, or 0.
#[repr(C)]
#[derive(Clone, Copy, Debug, PartialEq, Eq)]
pub struct CRan {
    pub accepted: usize,
    pub refusal: u16,
}

impl From<Ran> for CRan {
    ghost from_gives = { λ ran c. (c.accepted ≡ ran.accepted) × (c.refusal ≡ given ran.ended) };

    fn from(ran: Ran) -> CRan {
        CRan {
            accepted: ran.accepted,
            refusal: numbers::given(ran.ended),
        }
    }
}

// Four words a step; what was applied before a refused step stays and is counted.
#[tactic(auto, using(crate::proofs::StepByStep::step_by_step))]
pub fn run<R: Room>(bank: &mut [u16], steps: &[u16]) -> Ran
    ensures { RunPromise (layout R.room) bank.old steps.now result.accepted (given result.ended) bank.new }
{
    if !bank::fit::<R>(bank) {
        return Ran {
            accepted: 0,
            ended: Err(Refusal::Unfit),
        };
    }
    let (steps, []) = steps.as_chunks::<4>() else {
        return Ran {
            accepted: 0,
            ended: Err(Refusal::BadRecord),
        };
    };
    for (accepted, &[kind, a, b, c]) in steps.iter().enumerate() {
        if let Err(refusal) = group::step::<R>(bank, Asked { kind, a, b, c }) {
            return Ran {
                accepted,
                ended: Err(refusal),
            };
        }
    }
    Ran {
        accepted: steps.len(),
        ended: Ok(()),
    }
}
