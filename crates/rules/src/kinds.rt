// The kinds of an event, and their numbers.
ghost use Rattle.rules.specs.Kinds.{Decodes};

use crate::refusals::Refusal;

// Each kind has the number that an event's record gives for it.
#[derive(Clone, Copy, PartialEq, Eq, Debug)]
pub enum Kind {
    Read = 0,
    Write = 1,
    Send = 2,
    Deliver = 3,
    Drop = 4,
    WantRead = 5,
    WantWrite = 6,
    LostToken = 7,
    LostData = 8,
    LostDeletionAck = 9,
}

impl TryFrom<u32> for Kind {
    type Error = Refusal;

    ghost try_from_gives = { Decodes };

    fn try_from(number: u32) -> Result<Self, Refusal> {
        match number {
            0 => Ok(Kind::Read),
            1 => Ok(Kind::Write),
            2 => Ok(Kind::Send),
            3 => Ok(Kind::Deliver),
            4 => Ok(Kind::Drop),
            5 => Ok(Kind::WantRead),
            6 => Ok(Kind::WantWrite),
            7 => Ok(Kind::LostToken),
            8 => Ok(Kind::LostData),
            9 => Ok(Kind::LostDeletionAck),
            _ => Err(Refusal::Unknown),
        }
    }
}
