// One message's record, lent from the middle of the bank. Reads and writes nothing but the record.
// That the record is whole is a clause of each. As a ghost field of a struct round the lent words it was tried, and the
// check cannot state the bound of a closure that is lent such a struct, over a size of bank, as `in_record` lends it.
// The bounds of controllers are clauses too: a number and its bound as one type would be made from an allowed step at
// each call, and be taken apart in the next line.
ghost use Rattle.std.specs.Prelude.{◌≡◌, cond, ◌<◌, ◌≤◌, length};
ghost use Rattle.sets.specs.Set.{has, with_all};
ghost use Rattle.bank.specs.Layout.{layout, record_size, changed};
ghost use Rattle.group.specs.Writes.{fresh_record, sent, received, lost, marked};

use bank::{Bank, Room, acked_at, flight_at, unsent_at};

// A message as it is broadcast: held by its sender, who must send it to all n.
pub(crate) fn write_fresh<R: Room>(record: &mut [u16], n: u16, who: u16, s: u16, v: u16)
    requires { (length «record».old ≡ record_size (layout R.room)) × (who < (layout R.room).controllers)
        × (n ≤ (layout R.room).controllers) }
    ensures { «record».new
        ≡ changed (layout R.room) (fresh_record (layout R.room) n who s v) «record».old }
{
    bank::clear(&mut *record);
    record[Bank::SENDER] = who;
    record[Bank::STAMP] = s;
    record[Bank::VALUE] = v;
    record[Bank::HELD] = sets::join(0, who);
    record[unsent_at::<R>(who)] = sets::all_below(n);
}

// The copy moves from unsent to in flight.
pub(crate) fn send<R: Room>(record: &mut [u16], from: u16, to: u16)
    requires { (length «record».old ≡ record_size (layout R.room)) × (from < (layout R.room).controllers)
        × (to < (layout R.room).controllers) }
    ensures { «record».new ≡ changed (layout R.room) (sent from to) «record».old }
{
    let u = unsent_at::<R>(from);
    let f = flight_at::<R>(to);
    let unsent = record[u];
    let in_flight = record[f];
    record[u] = sets::without(unsent, to);
    record[f] = sets::join(in_flight, from);
}

// What controller i must still send once a copy has come: all n where it was the first.
fn relay(held: u16, unsent: u16, n: u16, i: u16) -> u16
    requires { n ≤ 16 }
    ensures { result ≡ cond (has held i) unsent (with_all unsent n) }
{
    if sets::has(held, i) {
        unsent
    } else {
        sets::with_all(unsent, n)
    }
}

// The copy leaves flight and its sender joins acked; a first copy is held from now on, and to be sent to all n.
pub(crate) fn receive<R: Room>(record: &mut [u16], n: u16, i: u16, from: u16)
    requires { (length «record».old ≡ record_size (layout R.room)) × (i < (layout R.room).controllers)
        × (from < (layout R.room).controllers) × (n ≤ (layout R.room).controllers) }
    ensures { «record».new ≡ changed (layout R.room) (received n i from) «record».old }
{
    let f = flight_at::<R>(i);
    let a = acked_at(i);
    let u = unsent_at::<R>(i);
    let in_flight = record[f];
    let acked = record[a];
    let held = record[Bank::HELD];
    let unsent = record[u];
    record[f] = sets::without(in_flight, from);
    record[a] = sets::join(acked, from);
    record[Bank::HELD] = sets::join(held, i);
    record[u] = relay(held, unsent, n, i);
}

// The copy leaves flight.
pub(crate) fn lose<R: Room>(record: &mut [u16], from: u16, to: u16)
    requires { (length «record».old ≡ record_size (layout R.room)) × (to < (layout R.room).controllers) }
    ensures { «record».new ≡ changed (layout R.room) (lost from to) «record».old }
{
    let f = flight_at::<R>(to);
    record[f] = sets::without(record[f], from);
}

// Controller i has delivered the message.
pub(crate) fn deliver<R: Room>(record: &mut [u16], i: u16)
    requires { (length «record».old ≡ record_size (layout R.room)) × (i < (layout R.room).controllers) }
    ensures { «record».new ≡ changed (layout R.room) (marked i) «record».old }
{
    record[Bank::DELIVERED] = sets::join(record[Bank::DELIVERED], i);
}
