// The four numbers that ask for a step, by its kind and by any number. By calls: the formatter spreads a literal of
// `Asked` over several lines, and a table has a line a case. No `From<Step>`: the numbers are what these cases are
// about.
use numbers::{Asked, Kind};

pub(crate) fn asked(kind: u16, a: u16, b: u16, c: u16) -> Asked {
    Asked { kind, a, b, c }
}

pub(crate) fn broadcast(who: u16, stamp: u16, value: u16) -> Asked {
    asked(Kind::Broadcast as u16, who, stamp, value)
}

pub(crate) fn send(from: u16, to: u16, message: u16) -> Asked {
    asked(Kind::Send as u16, from, to, message)
}

pub(crate) fn receive(at: u16, from: u16, message: u16) -> Asked {
    asked(Kind::Receive as u16, at, from, message)
}

pub(crate) fn deliver(at: u16, message: u16) -> Asked {
    asked(Kind::Deliver as u16, at, message, 0)
}

pub(crate) fn crash(who: u16) -> Asked {
    asked(Kind::Crash as u16, who, 0, 0)
}

pub(crate) fn detect(at: u16, of: u16) -> Asked {
    asked(Kind::Detect as u16, at, of, 0)
}

pub(crate) fn lose(from: u16, to: u16, message: u16) -> Asked {
    asked(Kind::Lose as u16, from, to, message)
}
