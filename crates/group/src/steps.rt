// What each step that nothing refuses writes. Whatever it writes in a record goes to that one record, lent from the
// middle of the bank. That the step is allowed is a clause of each, and no type: it is a fact of the bank and the step
// together, and a value that held both would keep the bank lent.
ghost use Rattle.std.specs.Prelude.{◌≡◌, ◌<◌, length};
ghost use Rattle.std.specs.Fn.{FnOnceReturnsAtMut};
ghost use Rattle.bank.specs.Layout.{layout, size, record_size, record_words, with_record};
ghost use Rattle.refusals.specs.Step.{broadcast, send, receive, deliver, crash, detect, lose};
ghost use Rattle.refusals.specs.Asking.{meant};
ghost use Rattle.refusals.specs.Promises.{Allowed};
ghost use Rattle.group.specs.Promises.{after};

use crate::record;
use bank::{Bank, Room, record_at, record_end};
use refusals::Step;

// One message's record, lent from the middle of the bank to whatever changes it.
fn in_record<R: Room, F: FnOnce(&mut [u16])>(bank: &mut [u16], m: u16, change: F)
    requires there { (length bank.old ≡ size (layout R.room)) × (m < (layout R.room).messages) }
    requires callable { (r : _) → length r.now ≡ record_size (layout R.room) → F.pre change r }
    ensures { (left : _) × FnOnceReturnsAtMut F.FnOnce change (record_words (layout R.room) bank.old m) tt left
        × (bank.new ≡ with_record (layout R.room) bank.old m left) }
{
    change(&mut bank[record_at::<R>(m)..record_end::<R>(m)]);
}

fn broadcast<R: Room>(bank: &mut [u16], who: u16, stamp: u16, value: u16)
    requires { Allowed (layout R.room) bank.old (broadcast who stamp value) }
    ensures { bank.new ≡ after (layout R.room) bank.old (broadcast who stamp value) }
{
    let n = bank[Bank::N];
    let m = bank[Bank::COUNT];
    in_record::<R, _>(
        bank,
        m,
        |record| record::write_fresh::<R>(record, n, who, stamp, value),
    );
    bank[Bank::COUNT] = m + 1;
}

fn send<R: Room>(bank: &mut [u16], from: u16, to: u16, m: u16)
    requires { Allowed (layout R.room) bank.old (send from to m) }
    ensures { bank.new ≡ after (layout R.room) bank.old (send from to m) }
{
    in_record::<R, _>(bank, m, |record| record::send::<R>(record, from, to));
}

fn receive<R: Room>(bank: &mut [u16], i: u16, from: u16, m: u16)
    requires { Allowed (layout R.room) bank.old (receive i from m) }
    ensures { bank.new ≡ after (layout R.room) bank.old (receive i from m) }
{
    let n = bank[Bank::N];
    in_record::<R, _>(bank, m, |record| record::receive::<R>(record, n, i, from));
}

fn deliver<R: Room>(bank: &mut [u16], i: u16, m: u16)
    requires { Allowed (layout R.room) bank.old (deliver i m) }
    ensures { bank.new ≡ after (layout R.room) bank.old (deliver i m) }
{
    let l = bank::length_at::<R>(i);
    let length = bank[l];
    let k = bank::log_at::<R>(i, length);
    in_record::<R, _>(bank, m, |record| record::deliver::<R>(record, i));
    bank[k] = m;
    bank[l] = length + 1;
}

fn crash<R: Room>(bank: &mut [u16], who: u16)
    requires { Allowed (layout R.room) bank.old (crash who) }
    ensures { bank.new ≡ after (layout R.room) bank.old (crash who) }
{
    bank[Bank::UP] = sets::without(bank[Bank::UP], who);
}

fn detect<R: Room>(bank: &mut [u16], i: u16, j: u16)
    requires { Allowed (layout R.room) bank.old (detect i j) }
    ensures { bank.new ≡ after (layout R.room) bank.old (detect i j) }
{
    let v = bank::view_at(i);
    bank[v] = sets::without(bank[v], j);
}

fn lose<R: Room>(bank: &mut [u16], from: u16, to: u16, m: u16)
    requires { Allowed (layout R.room) bank.old (lose from to m) }
    ensures { bank.new ≡ after (layout R.room) bank.old (lose from to m) }
{
    in_record::<R, _>(bank, m, |record| record::lose::<R>(record, from, to));
}

// A step, once nothing refuses it. A match, and no table of functions: each kind has numbers of its own.
pub(crate) fn apply<R: Room>(bank: &mut [u16], step: Step)
    requires { Allowed (layout R.room) bank.old (meant step) }
    ensures { bank.new ≡ after (layout R.room) bank.old (meant step) }
{
    match step {
        Step::Broadcast { who, stamp, value } => broadcast::<R>(bank, who, stamp, value),
        Step::Send { from, to, message } => send::<R>(bank, from, to, message),
        Step::Receive { at, from, message } => receive::<R>(bank, at, from, message),
        Step::Deliver { at, message } => deliver::<R>(bank, at, message),
        Step::Crash { who } => crash::<R>(bank, who),
        Step::Detect { at, of } => detect::<R>(bank, at, of),
        Step::Lose { from, to, message } => lose::<R>(bank, from, to, message),
    }
}
