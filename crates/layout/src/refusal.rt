// Why a call is refused: the list of document 01 and what document 02 adds to it. Each has its number there, which hosts in C are told.
ghost use Rattle.std.specs.Prelude.{◌≡◌};
ghost use Rattle.layout.specs.Refusal.{number_of};

#[derive(Clone, Copy, PartialEq, Eq)]
pub enum Refusal {
    WrongLength = 1,
    Unfit = 2,
    BadPointer = 3,
    BadImage = 4,
    NoRoomToUndo = 5,
    NotListed = 6,
    Committing = 7,
    BadRange = 8,
    Held = 9,
    TooManyWrites = 10,
    TooManyTransactions = 11,
    CounterAtEnd = 12,
    LogFull = 13,
    NotDurable = 14,
    TooManyReads = 15,
    TwoPages = 16,
    BadPage = 17,
    NoSavepoint = 18,
    TooManySavepoints = 19,
    BadList = 20,
}

impl Refusal {
    // Its number in the list.
    pub fn number(self) -> u8
        ensures { result ≡ number_of self }
    {
        self as u8
    }
}
