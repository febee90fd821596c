// The calls that the C face has not, on words, for the tests: lists, what refuses a step, and the two questions about
// a log. Each is thin over a call of `lists` or `refusals`. No part of the product: nothing installs its archive.
#![tactic(auto)]

ghost use Rattle.bank.specs.Layout.{paper};
ghost use Rattle.refusals.specs.Step.{ask};
ghost use Rattle.refusals.specs.Promises.{RefusalPromise};
ghost use Rattle.lists.specs.Lists.{RunPromise};
ghost use Rattle.lists.specs.Logs.{LengthPromise};
ghost use Rattle.word_face.specs.LogCopy.{Copied, LogCopyPromise};

use bank::Bank;
use lists::CRan;
use numbers::Asked;

// A log's length, or 0 beside the number that refuses the question.
#[repr(C)]
#[derive(Clone, Copy, Debug, PartialEq, Eq)]
pub struct LogLength {
    pub refusal: u16,
    pub length: u16,
}

#[unsafe(no_mangle)]
pub extern "C" fn words_run(bank: &mut [u16], steps: &[u16]) -> CRan
    ensures { RunPromise paper bank.old steps.now result.accepted result.refusal bank.new }
{
    lists::run::<Bank>(bank, steps).into()
}

#[unsafe(no_mangle)]
pub extern "C" fn words_refusal(bank: &[u16], kind: u16, a: u16, b: u16, c: u16) -> u16
    ensures { RefusalPromise paper bank.now (ask kind a b c) result }
{
    numbers::given(refusals::refusal::<Bank>(bank, Asked { kind, a, b, c }))
}

#[unsafe(no_mangle)]
pub extern "C" fn words_log_length(bank: &[u16], who: u16) -> LogLength
    ensures { LengthPromise paper bank.now who result.refusal result.length }
{
    // by a match, and no `From`: it is made here alone
    match lists::log_length::<Bank>(bank, who) {
        Ok(length) => LogLength { refusal: 0, length },
        Err(refusal) => LogLength {
            refusal: refusal.into(),
            length: 0,
        },
    }
}

// Copies the used part of the log into the lent buffer, as far as it reaches; answers that part's length.
#[unsafe(no_mangle)]
pub extern "C" fn words_log(bank: &[u16], who: u16, out: &mut [u16]) -> usize
    ensures { LogCopyPromise bank.now who out.old result out.new }
{
    let log = lists::log::<Bank>(bank, who);
    copy(log, out);
    log.len()
}

// The words of the one in the other from its start on, as far as it reaches. One by one: copy_from_slice would have the
// archive need a memmove from outside.
#[tactic(auto, using(crate::proofs::Copying::front_copied))]
fn copy(from: &[u16], to: &mut [u16])
    ensures { Copied from.now to.old to.new }
{
    let n = from.len().min(to.len());
    for k in 0..n {
        to[k] = from[k];
    }
}
