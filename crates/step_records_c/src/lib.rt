// The call of `step_records` by its name, as an archive for C programs: one line over its namesake, with its promise.
// The tests and the benchmark use it; nothing installs it.
#![tactic(auto)]

ghost use Rattle.step_records.specs.Records.{StepsPromise};

use lists::CRan;
use numbers::Asked;

#[unsafe(no_mangle)]
pub extern "C" fn run_steps(bank: &mut [u16], steps: &[Asked]) -> CRan
    ensures { StepsPromise bank.old steps.now result.accepted result.refusal bank.new }
{
    step_records::run_steps(bank, steps).into()
}
