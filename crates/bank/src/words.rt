// A bank's words by name, as the definitions read them: 0 past the bank's end. Each call reads one word.
// One function a word: each is promised by its name (docs/PROMISES.md).
ghost use Rattle.std.specs.Prelude.{◌≡◌, ◌+◌, ◌≤◌, get_or};
ghost use Rattle.bank.specs.Place;
ghost use Rattle.bank.specs.Place.{message};
ghost use Rattle.bank.specs.Layout;
ghost use Rattle.bank.specs.Layout.{paper, layout, record_at};

use crate::layout::{Bank, Room, acked_at, flight_at, length_at, record_at, unsent_at, view_at};

pub fn word(bank: &[u16], at: usize) -> u16
    ensures { result ≡ get_or bank.now at 0 }
{
    bank.get(at).copied().unwrap_or(0)
}

// Whom controller i takes to be up.
pub fn view(bank: &[u16], i: u16) -> u16
    ensures { result ≡ Layout.words paper bank.now (Place.view i) }
{
    word(bank, view_at(i))
}

// How long controller i's log is.
pub fn logged<R: Room>(bank: &[u16], i: u16) -> u16
    ensures { result ≡ Layout.words (layout R.room) bank.now (Place.log_length i) }
{
    word(bank, length_at::<R>(i))
}

// The word that stands at a place of message m's record.
fn of_record<R: Room>(bank: &[u16], m: u16, at: usize) -> u16
    requires { at ≤ 131072 }
    ensures { result ≡ get_or bank.now (record_at (layout R.room) m + at) 0 }
{
    word(bank, record_at::<R>(m) + at)
}

pub fn sender<R: Room>(bank: &[u16], m: u16) -> u16
    ensures { result ≡ Layout.words (layout R.room) bank.now (message m Place.sender) }
{
    of_record::<R>(bank, m, Bank::SENDER)
}

pub fn stamp<R: Room>(bank: &[u16], m: u16) -> u16
    ensures { result ≡ Layout.words (layout R.room) bank.now (message m Place.stamp) }
{
    of_record::<R>(bank, m, Bank::STAMP)
}

pub fn value<R: Room>(bank: &[u16], m: u16) -> u16
    ensures { result ≡ Layout.words (layout R.room) bank.now (message m Place.value) }
{
    of_record::<R>(bank, m, Bank::VALUE)
}

// Who holds message m, and who has delivered it.
pub fn held<R: Room>(bank: &[u16], m: u16) -> u16
    ensures { result ≡ Layout.words (layout R.room) bank.now (message m Place.held) }
{
    of_record::<R>(bank, m, Bank::HELD)
}

pub fn delivered<R: Room>(bank: &[u16], m: u16) -> u16
    ensures { result ≡ Layout.words (layout R.room) bank.now (message m Place.delivered) }
{
    of_record::<R>(bank, m, Bank::DELIVERED)
}

// From whom controller i has received message m, to whom it must still send it, and from whom a copy is on its way.
pub fn acked<R: Room>(bank: &[u16], m: u16, i: u16) -> u16
    ensures { result ≡ Layout.words (layout R.room) bank.now (message m (Place.acked i)) }
{
    of_record::<R>(bank, m, acked_at(i))
}

pub fn unsent<R: Room>(bank: &[u16], m: u16, i: u16) -> u16
    ensures { result ≡ Layout.words (layout R.room) bank.now (message m (Place.unsent i)) }
{
    of_record::<R>(bank, m, unsent_at::<R>(i))
}

pub fn in_flight<R: Room>(bank: &[u16], m: u16, i: u16) -> u16
    ensures { result ≡ Layout.words (layout R.room) bank.now (message m (Place.in_flight i)) }
{
    of_record::<R>(bank, m, flight_at::<R>(i))
}
