// The C face of the station's scheduler: the calls of `loargwen` by their names, as an archive for C programs. Each is
// one line over its namesake and promises the same. include/loargwen.h is what a C program sees.
#![tactic(auto)]

ghost use Rattle.refusals.specs.Step.{ask};
ghost use Rattle.loargwen.specs.Face.{OpenBytes, StepBytes, SettleBytes, TallyBytes};

use loargwen::{Day, Settled};

#[unsafe(no_mangle)]
pub extern "C" fn loargwen_open(bank: &mut [u8], n: u16, mode: u16) -> u16
    ensures { OpenBytes bank.old n mode result bank.new }
{
    loargwen::loargwen_open(bank, n, mode)
}

#[unsafe(no_mangle)]
pub extern "C" fn loargwen_step(bank: &mut [u8], kind: u16, a: u16, b: u16, c: u16) -> u16
    ensures { StepBytes bank.old (ask kind a b c) result bank.new }
{
    loargwen::loargwen_step(bank, kind, a, b, c)
}

#[unsafe(no_mangle)]
pub extern "C" fn loargwen_settle(bank: &mut [u8], budget: u16) -> Settled
    ensures { SettleBytes bank.old budget result.refusal result.steps result.quiet bank.new }
{
    loargwen::loargwen_settle(bank, budget)
}

#[unsafe(no_mangle)]
pub extern "C" fn loargwen_tally(bank: &[u8], who: u16, on: u16) -> Day
    ensures { TallyBytes bank.now who on result.refusal result.count result.sum }
{
    loargwen::loargwen_tally(bank, who, on)
}
