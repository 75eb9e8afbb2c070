// Why something is refused, and the numbers that are given back for it.
ghost use Rattle.std.specs.Prelude.{◌≡◌};
ghost use Rattle.rules.specs.Kinds.{number_of};

// Each reason has the number that is given back for it.
#[derive(Clone, Copy, PartialEq, Eq, Debug)]
pub enum Refusal {
    // the state is not well formed
    IllFormed = 1,
    // no such kind, or a mark of a send that is none
    Unknown = 2,
    NoLine = 3,
    NoNode = 4,
    // the memory is named where only a cache may be
    Memory = 5,
    // the slot holds no message, or there is no such slot
    NoMessage = 6,
    ToItself = 7,
    WrongAmount = 8,
    WrongOwner = 9,
    Blocked = 10,
    NotValid = 11,
    NoFreeSlot = 12,
    NotAble = 13,
    WantsAlready = 14,
    AbleAlready = 15,
    NoCause = 16,
    NextSerialBorne = 17,
    NothingLeft = 18,
    // a size of a start is out of range
    WrongSize = 19,
    // a batch's words are not eight for each event
    UnevenWords = 20,
    // a batch has no room for its answers
    NoRoom = 21,
    BackupElsewhere = 23,
}

impl Refusal {
    // The number that is given back.
    pub fn number(self) -> u32
        ensures { result ≡ number_of self }
    {
        self as u32
    }
}
