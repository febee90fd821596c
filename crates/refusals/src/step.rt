// A step with the numbers that its kind uses, and how four numbers ask for one.
ghost use Rattle.refusals.specs.Asking.{Decodes};

use numbers::{Asked, Kind, Refusal};

#[derive(Clone, Copy, Debug, PartialEq, Eq)]
pub enum Step {
    Broadcast { who: u16, stamp: u16, value: u16 },
    Send { from: u16, to: u16, message: u16 },
    Receive { at: u16, from: u16, message: u16 },
    Deliver { at: u16, message: u16 },
    Crash { who: u16 },
    Detect { at: u16, of: u16 },
    Lose { from: u16, to: u16, message: u16 },
}

impl TryFrom<Asked> for Step {
    type Error = Refusal;

    ghost try_from_gives = { Decodes };

    fn try_from(asked: Asked) -> Result<Step, Refusal> {
        let Asked { kind, a, b, c } = asked;
        match Kind::try_from(kind)? {
            Kind::Broadcast => Ok(Step::Broadcast {
                who: a,
                stamp: b,
                value: c,
            }),
            Kind::Send => Ok(Step::Send {
                from: a,
                to: b,
                message: c,
            }),
            Kind::Receive => Ok(Step::Receive {
                at: a,
                from: b,
                message: c,
            }),
            Kind::Deliver if c == 0 => Ok(Step::Deliver { at: a, message: b }),
            Kind::Crash if b == 0 && c == 0 => Ok(Step::Crash { who: a }),
            Kind::Detect if c == 0 => Ok(Step::Detect { at: a, of: b }),
            Kind::Lose => Ok(Step::Lose {
                from: a,
                to: b,
                message: c,
            }),
            _ => Err(Refusal::NoStep),
        }
    }
}
