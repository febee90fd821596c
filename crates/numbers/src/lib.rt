// The paper's numbers by name: the kinds of step, the modes, and why a call is refused. No bank. What each number is
// stands in specs/Numbers.antt; the C header has the same names.
#![tactic(auto)]

ghost use Rattle.std.specs.Prelude.{◌≡◌};
ghost use Rattle.numbers.specs.Numbers;

// The four numbers that ask for a step: its kind, and what the kind uses. They are any four, since what asks for no
// step is to be refused; C programs hand them over as they stand.
#[repr(C)]
#[derive(Clone, Copy, Debug, PartialEq, Eq)]
pub struct Asked {
    pub kind: u16,
    pub a: u16,
    pub b: u16,
    pub c: u16,
}

// The seven kinds of step.
#[derive(Clone, Copy, Debug, PartialEq, Eq)]
pub enum Kind {
    Broadcast = 1,
    Send = 2,
    Receive = 3,
    Deliver = 4,
    Crash = 5,
    Detect = 6,
    Lose = 7,
}

impl TryFrom<u16> for Kind {
    type Error = Refusal;

    ghost try_from_gives = { λ kind r. r ≡ Numbers.kind_of kind };

    fn try_from(kind: u16) -> Result<Kind, Refusal> {
        match kind {
            1 => Ok(Kind::Broadcast),
            2 => Ok(Kind::Send),
            3 => Ok(Kind::Receive),
            4 => Ok(Kind::Deliver),
            5 => Ok(Kind::Crash),
            6 => Ok(Kind::Detect),
            7 => Ok(Kind::Lose),
            _ => Err(Refusal::NoStep),
        }
    }
}

// The two modes.
#[derive(Clone, Copy, Debug, PartialEq, Eq)]
pub enum Mode {
    AllAck = 1,
    Majority = 2,
}

impl TryFrom<u16> for Mode {
    type Error = Refusal;

    ghost try_from_gives = { λ mode r. r ≡ Numbers.mode_of mode };

    fn try_from(mode: u16) -> Result<Mode, Refusal> {
        match mode {
            1 => Ok(Mode::AllAck),
            2 => Ok(Mode::Majority),
            _ => Err(Refusal::BadMode),
        }
    }
}

// Why a call is refused.
#[derive(Clone, Copy, Debug, PartialEq, Eq)]
pub enum Refusal {
    // The bank is unfit; also a log that has no room for a delivery, or that names no message.
    Unfit = 1,
    // No kind, or a number that the kind does not use is not 0.
    NoStep = 2,
    NoController = 3,
    NoMessage = 4,
    // This mode detects nothing.
    NoDetection = 5,
    ActorDown = 6,
    // All message numbers are given.
    MessagesFull = 7,
    // Nothing to send, to receive, to lose or to deliver there.
    NoCopy = 8,
    // The delivery test fails, or whoever would have to be down is up.
    NotYet = 9,
    Already = 10,
    BadSize = 11,
    BadMode = 12,
    // A list that is no whole steps, a record that is cut or of a wrong length, a file not begun by a whole open.
    BadRecord = 13,
    BadDay = 14,
}

impl Refusal {
    // Refuses unless the test holds.
    pub fn unless(self, holds: bool) -> Result<(), Refusal>
        ensures { result ≡ Numbers.unless self holds }
    {
        if holds { Ok(()) } else { Err(self) }
    }
}

impl From<Refusal> for u16 {
    ghost from_gives = { λ r n. n ≡ Numbers.number r };

    fn from(refusal: Refusal) -> u16 {
        refusal as u16
    }
}

// The number that a call gives back: 0 where nothing refuses it.
pub fn given(answer: Result<(), Refusal>) -> u16
    ensures { result ≡ Numbers.given answer }
{
    match answer {
        Ok(()) => 0,
        Err(refusal) => u16::from(refusal),
    }
}
