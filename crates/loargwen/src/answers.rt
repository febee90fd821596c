// The answers of several numbers, as C programs have them: the refusal's number first, or 0.
ghost use Rattle.std.specs.Prelude.{◌≡◌};
ghost use Rattle.loargwen.specs.Answers.{settled_numbers, day_numbers};

use day::Tally;
use numbers::Refusal;

// The refusal, the steps taken, and 1 where no step is left.
#[repr(C)]
#[derive(Clone, Copy, Debug, PartialEq, Eq)]
pub struct Settled {
    pub refusal: u16,
    pub steps: u16,
    pub quiet: u16,
}

impl From<Result<settler::Settled, Refusal>> for Settled {
    ghost from_gives = { λ answer s. s ≡ settled_numbers answer };

    fn from(answer: Result<settler::Settled, Refusal>) -> Settled {
        match answer {
            Ok(s) => Settled {
                refusal: 0,
                steps: s.steps,
                quiet: u16::from(s.quiet),
            },
            Err(refusal) => Settled {
                refusal: refusal.into(),
                steps: 0,
                quiet: 0,
            },
        }
    }
}

// The refusal, and the count and the sum of a day.
#[repr(C)]
#[derive(Clone, Copy, Debug, PartialEq, Eq)]
pub struct Day {
    pub refusal: u16,
    pub count: u16,
    pub sum: u32,
}

impl From<Result<Tally, Refusal>> for Day {
    ghost from_gives = { λ answer d. d ≡ day_numbers answer };

    fn from(answer: Result<Tally, Refusal>) -> Day {
        match answer {
            Ok(t) => Day {
                refusal: 0,
                count: t.count,
                sum: t.sum,
            },
            Err(refusal) => Day {
                refusal: refusal.into(),
                count: 0,
                sum: 0,
            },
        }
    }
}
