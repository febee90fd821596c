// Questions about a log. Reads the header, one log length and that log; writes nothing.
ghost use Rattle.numbers.specs.Numbers.{given};
ghost use Rattle.bank.specs.Layout.{layout};
ghost use Rattle.lists.specs.Logs.{length_answered, LengthPromise, LogPromise};

use bank::{Bank, Room};
use numbers::Refusal;

// How long a log is.
pub fn log_length<R: Room>(bank: &[u16], who: u16) -> Result<u16, Refusal>
    ensures { LengthPromise (layout R.room) bank.now who (given result) (length_answered result) }
{
    Refusal::Unfit.unless(bank::fit::<R>(bank))?;
    Refusal::NoController.unless(who < bank::word(bank, Bank::N))?;
    Ok(bank::logged::<R>(bank, who))
}

// The used part of a log within the caller's own bank, of length 0 where the question is refused: no Result, since that
// is its promise.
pub fn log<R: Room>(bank: &[u16], who: u16) -> &[u16]
    ensures { LogPromise (layout R.room) bank.now who result.now }
{
    let Ok(length) = log_length::<R>(bank, who) else {
        return &bank[..0];
    };
    let a = bank::log_at::<R>(who, 0);
    let e = bank::log_at::<R>(who, length);
    &bank[a..e]
}
