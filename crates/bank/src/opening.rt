// Opening a group: every word of the bank is written anew.
ghost use Rattle.std.specs.Prelude.{◌≡◌, ◌≤◌, length, replicate};
ghost use Rattle.bank.specs.Layout;
ghost use Rattle.numbers.specs.Numbers.{given};
ghost use Rattle.bank.specs.Layout.{layout, address, puts};
ghost use Rattle.bank.specs.Opening.{opened, views, OpenPromise};

use crate::layout::{Bank, Room, view_at};
use crate::unfit::is_size;
use numbers::{Mode, Refusal};

// Writes 0 everywhere.
pub fn clear(words: &mut [u16])
    ensures { words.new ≡ replicate (length words.old) 0 }
{
    words.fill(0);
}

// Each of the first n controllers takes all n to be up. One by one, as `views` writes them: for a `fill` of the run the
// check found no proof.
fn open_views<R: Room>(bank: &mut [u16], n: u16)
    requires { (length bank.old ≡ Layout.size (layout R.room)) × (n ≤ (layout R.room).controllers) }
    ensures { bank.new ≡ puts (address (layout R.room)) bank.old (views n 0 n) }
{
    let all = sets::all_below(n);
    for i in 0..n {
        bank[view_at(i)] = all;
    }
}

fn write_opening<R: Room>(bank: &mut [u16], n: u16, mode: u16)
    requires { (length bank.old ≡ Layout.size (layout R.room)) × (n ≤ (layout R.room).controllers) }
    ensures { bank.new ≡ opened (layout R.room) n mode }
{
    clear(bank);
    bank[Bank::N] = n;
    bank[Bank::MODE] = mode;
    bank[Bank::UP] = sets::all_below(n);
    open_views::<R>(bank, n);
}

// Opens a group of n controllers in a bank of that size. The mode is any number, since what is no mode is to be
// refused.
#[tactic(auto, unfolding(crate::specs::Opening::open_of))]
pub fn open<R: Room>(bank: &mut [u16], n: u16, mode: u16) -> Result<(), Refusal>
    ensures { OpenPromise (layout R.room) bank.old n mode (given result) bank.new }
{
    Refusal::Unfit.unless(bank.len() == R::WORDS)?;
    Refusal::BadSize.unless(is_size::<R>(n))?;
    Mode::try_from(mode)?;
    write_opening::<R>(bank, n, mode);
    Ok(())
}
