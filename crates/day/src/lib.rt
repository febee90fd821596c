// The day tally over a log, in both sizes of bank. Reads the bank through the questions about a log and a message's
// words by name; writes nothing.
#![tactic(auto)]

ghost use Rattle.bank.specs.Layout.{layout};
ghost use Rattle.day.specs.Answer.{TallyAnswer};

use bank::{Bank, Room};
use numbers::Refusal;

mod entries;

pub use entries::Tally;

// The count and the sum of a controller's log on a day.
#[tactic(auto, using(crate::proofs::Asking::by_entry))]
pub fn tally_day<R: Room>(bank: &[u16], who: u16, day: u16) -> Result<Tally, Refusal>
    ensures { TallyAnswer (layout R.room) bank.now who day result }
{
    lists::log_length::<R>(bank, who)?;
    Refusal::BadDay.unless(day <= Tally::LAST_DAY)?;
    let log = lists::log::<R>(bank, who);
    let count = bank::word(bank, Bank::COUNT);
    let mut t = Tally::fresh();
    for &m in log {
        Refusal::Unfit.unless(m < count)?;
        t = t.add_entry(day, bank::stamp::<R>(bank, m), bank::value::<R>(bank, m));
    }
    Ok(t)
}
