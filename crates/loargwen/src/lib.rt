// What the C face of the station's scheduler does: opening, one step, the settler and the tally, on numbers and a byte
// slice that stands for the bank. Each call takes the bytes apart and asks the crate below; the bytes are written where
// nothing is refused. Rattle's crates rest on it; C programs have the same calls from `loargwen_c`, and so its answers
// are C's: a refusal's number, alone or first in a struct.
#![tactic(auto)]

mod answers;
mod bytes;

ghost use Rattle.refusals.specs.Step.{ask};
ghost use Rattle.loargwen.specs.Face.{OpenBytes, StepBytes, SettleBytes, TallyBytes};

pub use answers::{Day, Settled};
use bank::Bank;
use bytes::on_words;
use numbers::{Asked, Refusal, given};

pub fn loargwen_open(bank: &mut [u8], n: u16, mode: u16) -> u16
    ensures { OpenBytes bank.old n mode result bank.new }
{
    given(on_words(bank, |words| bank::open::<Bank>(words, n, mode)))
}

pub fn loargwen_step(bank: &mut [u8], kind: u16, a: u16, b: u16, c: u16) -> u16
    ensures { StepBytes bank.old (ask kind a b c) result bank.new }
{
    given(on_words(
        bank,
        |words| group::step::<Bank>(words, Asked { kind, a, b, c }),
    ))
}

pub fn loargwen_settle(bank: &mut [u8], budget: u16) -> Settled
    ensures { SettleBytes bank.old budget result.refusal result.steps result.quiet bank.new }
{
    on_words(bank, |words| settler::settle::<Bank>(words, budget)).into()
}

pub fn loargwen_tally(bank: &[u8], who: u16, on: u16) -> Day
    ensures { TallyBytes bank.now who on result.refusal result.count result.sum }
{
    match bytes::load(bank) {
        Some(words) => day::tally_day::<Bank>(&words, who, on).into(),
        None => Err(Refusal::Unfit).into(),
    }
}
