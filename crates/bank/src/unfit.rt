// What makes a bank unfit. Reads the header and the log lengths alone.
ghost use Rattle.std.specs.Prelude.{◌≡◌};
ghost use Rattle.sets.specs.Set.{every};
ghost use Rattle.bank.specs.Layout.{layout, words};
ghost use Rattle.bank.specs.Fit;
ghost use Rattle.bank.specs.Fit.{is_size, is_mode, log_fits};

use crate::layout::{Bank, Room};
use crate::words::{logged, word};
use numbers::Mode;

// N is 1 up to the number of controllers.
pub(crate) fn is_size<R: Room>(n: u16) -> bool
    ensures { result ≡ is_size (layout R.room) n }
{
    1 <= n && n <= R::CONTROLLERS
}

pub(crate) fn is_mode(mode: u16) -> bool
    ensures { result ≡ is_mode mode }
{
    Mode::try_from(mode).is_ok()
}

// No log of the first n controllers is longer than there are messages. A loop: for `(0..n).all(..)` the check found no
// proof.
fn logs_fit<R: Room>(bank: &[u16], n: u16) -> bool
    ensures { result ≡ every (log_fits (words (layout R.room) bank.now)) n }
{
    let count = word(bank, Bank::COUNT);
    for i in 0..n {
        if logged::<R>(bank, i) > count {
            return false;
        }
    }
    true
}

// Whether a bank of that size is fit.
pub fn fit<R: Room>(bank: &[u16]) -> bool
    ensures { result ≡ Fit.fit (layout R.room) bank.now }
{
    let n = word(bank, Bank::N);
    bank.len() == R::WORDS
        && is_size::<R>(n)
        && is_mode(word(bank, Bank::MODE))
        && word(bank, Bank::COUNT) <= R::MESSAGES
        && logs_fit::<R>(bank, n)
}
