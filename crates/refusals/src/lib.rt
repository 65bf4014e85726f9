// Why a call is refused: document 01's table, with what requests 1 and 7 add to it.
#![tactic(auto)]

ghost use Rattle.std.specs.Prelude.{◌≡◌, ℕ};
ghost use Rattle.refusals.specs.Refusals.{number};

#[derive(Clone, Copy, PartialEq, Eq)]
pub enum Refusal {
    // more than 32,768 bytes
    TooLong = 1,
    // bytes end before a header, its body or a number in it
    CutShort = 2,
    // a tag that is not due here
    WrongTag = 3,
    // bytes left over in a field, or behind the last
    LeftOver = 4,
    // a process or ambients too deep
    TooDeep = 5,
    // a name, a variable, F or N out of range
    OutOfRange = 6,
    // a blocked pair
    BlockedPair = 7,
    // a place that cannot act, or none
    CannotAct = 8,
    // a partner that is none, or named where none is due
    NotPartner = 9,
    // an action that has a partner, and none is named
    HasPartner = 10,
    // no unused name is left
    NoNameLeft = 11,
    // a result too deep, or nested too deep
    ResultTooDeep = 12,
    // a result over 32,768 bytes or the output buffer
    NoRoom = 13,
    // a count of names that no action has
    WrongCount = 14,
    // a name used both as a box and as a channel
    MixedUses = 15,
}

impl Refusal {
    // Its number in the table.
    pub fn number(self) -> u8
        ensures { result ≡ number self }
    {
        self as u8
    }
}

// What is told by the number of a refusal: a refusal, or any number by itself.
pub trait Numbered: Copy {
    ghost told: { Self → ℕ };

    fn told_number(self) -> u8
        ensures { result ≡ told self };
}

impl Numbered for Refusal {
    ghost told = { number };

    fn told_number(self) -> u8 {
        self.number()
    }
}

impl Numbered for u8 {
    ghost told = { λ k. k };

    fn told_number(self) -> u8 {
        self
    }
}
