// The first step that the settler may take in a fit bank. Whole set words are looked at, and the lowest member taken;
// reads the bank, writes nothing. That a message is one of the bank's is a clause of three, and no type: it is a fact
// of the bank and the number together, and a value that held both would keep the bank lent.
ghost use Rattle.std.specs.Prelude.{◌≡◌, ◌&&◌, map, cond, ltb, ◌<◌, Some, None};
ghost use Rattle.sets.specs.Set.{has, lowest};
ghost use Rattle.bank.specs.Place.{N, count, up};
ghost use Rattle.bank.specs.Layout.{layout, paper, words};
ghost use Rattle.refusals.specs.Step.{send, receive, deliver, detect};
ghost use Rattle.refusals.specs.Asking.{coded};
ghost use Rattle.settler.specs.Candidates;
ghost use Rattle.settler.specs.Candidates.{below, each, pairs, of_message, first_of, free, Decided};
ghost use Rattle.settler.specs.Handed.{next_of};

use bank::{Bank, Room};
use numbers::Mode;
use refusals::Step;

// The first step by a controller that is up, with the lowest member of its set word. Of the steps s of all pairs it is
// the first that passes any test p that the words decide.
fn first_of_rows<W: Fn(u16) -> u16, S: Fn(u16, u16) -> Step>(
    bank: &[u16],
    set: W,
    step: S,
) -> Option<Step>
    requires set { W.IsAlwaysCallable set }
    requires step { S.IsAlwaysCallable step }
    ensures { (p : _) (s : _)
        → ((i w : _) → i < words paper bank.now N → W.post set i w
        → Decided p (s i) (words paper bank.now N) (has (words paper bank.now up) i) w)
        → ((i j r : _) → S.post step i j r → r ≡ coded (s i j))
        → result ≡ next_of (first_of p (pairs (words paper bank.now N) s)) }
{
    let n = bank::word(bank, Bank::N);
    let up = bank::word(bank, Bank::UP);
    (0..n).find_map(
        |i|
            requires callable { W.IsAlwaysCallable set × S.IsAlwaysCallable step }
            ensures { (w x : _) × W.post set i w × S.post step i (lowest w n) x
                × (result ≡ cond (has up i && ltb (lowest w n) n) (Some x) None) }
        {
            let j = sets::lowest(set(i), n);
            (sets::has(up, i) && j < n).then_some(step(i, j))
        },
    )
}

// The first detect: a controller that is up, and the lowest that it still takes to be up and that is down.
#[tactic(auto, using(crate::proofs::Free::detect_decided, crate::proofs::Free::detect_none))]
fn first_detect<R: Room>(bank: &[u16]) -> Option<Step>
    ensures { result
        ≡ next_of (first_of (free (layout R.room) bank.now)
        (pairs (words (layout R.room) bank.now N) detect)) }
{
    if bank::word(bank, Bank::MODE) != Mode::AllAck as u16 {
        return None;
    }
    let up = bank::word(bank, Bank::UP);
    first_of_rows(
        bank,
        |i| sets::less(bank::view(bank, i), up),
        |at, of| Step::Detect { at, of },
    )
}

// The first copy of a message that is to be sent, by a controller that is up.
#[tactic(auto, using(crate::proofs::Free::send_decided))]
fn first_send<R: Room>(bank: &[u16], message: u16) -> Option<Step>
    requires { message < words (layout R.room) bank.now count }
    ensures { result
        ≡ next_of (first_of (free (layout R.room) bank.now)
        (pairs (words (layout R.room) bank.now N) (λ i j. send i j message))) }
{
    first_of_rows(
        bank,
        |i| bank::unsent::<R>(bank, message, i),
        |from, to| Step::Send { from, to, message },
    )
}

// The first copy of a message that is on its way, to a controller that is up.
#[tactic(auto, using(crate::proofs::Free::receive_decided))]
fn first_receive<R: Room>(bank: &[u16], message: u16) -> Option<Step>
    requires { message < words (layout R.room) bank.now count }
    ensures { result
        ≡ next_of (first_of (free (layout R.room) bank.now)
        (pairs (words (layout R.room) bank.now N) (λ i j. receive i j message))) }
{
    first_of_rows(
        bank,
        |i| bank::in_flight::<R>(bank, message, i),
        |at, from| Step::Receive { at, from, message },
    )
}

// The first delivery of message m; only those who hold it and have not delivered it are asked about.
fn first_deliver<R: Room>(bank: &[u16], m: u16) -> Option<Step>
    ensures { result
        ≡ next_of (first_of (free (layout R.room) bank.now)
        (map (λ i. deliver i m) (below (words (layout R.room) bank.now N)))) }
{
    let waiting = sets::less(bank::held::<R>(bank, m), bank::delivered::<R>(bank, m));
    (0..bank::word(bank, Bank::N)).find_map(|i| {
        let due = sets::has(waiting, i) && refusals::delivery_refusal::<R>(bank, i, m).is_ok();
        due.then_some(Step::Deliver { at: i, message: m })
    })
}

// Of one message: its sends, then its receipts, then its deliveries.
#[tactic(auto, using(crate::proofs::Mapped::next_joined))]
fn first_of_message<R: Room>(bank: &[u16], m: u16) -> Option<Step>
    requires { m < words (layout R.room) bank.now count }
    ensures { result
        ≡ next_of (first_of (free (layout R.room) bank.now)
        (of_message (words (layout R.room) bank.now N) m)) }
{
    first_send::<R>(bank, m)
        .or_else(|| first_receive::<R>(bank, m))
        .or_else(|| first_deliver::<R>(bank, m))
}

// The messages in turn.
fn first_of_messages<R: Room>(bank: &[u16]) -> Option<Step>
    ensures { result
        ≡ next_of (first_of (free (layout R.room) bank.now)
        (each (of_message (words (layout R.room) bank.now N)) (below (words (layout R.room) bank.now count)))) }
{
    (0..bank::word(bank, Bank::COUNT)).find_map(|m| first_of_message::<R>(bank, m))
}

// Detects first, then the messages in turn.
#[tactic(auto, using(crate::proofs::Mapped::next_split))]
pub(crate) fn first_step<R: Room>(bank: &[u16]) -> Option<Step>
    ensures { result ≡ next_of (Candidates.next (layout R.room) bank.now) }
{
    first_detect::<R>(bank).or_else(|| first_of_messages::<R>(bank))
}
