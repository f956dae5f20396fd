// Refusals: why a call refuses, and where.
ghost use Rattle.std.specs.Prelude.{◌≡◌};
ghost use Rattle.steps.specs.Refusal.{reason_number, at_no_place};

// Why a call refuses: the checks of RULES 2.2, by name and number.
#[derive(Clone, Copy, Debug, PartialEq, Eq)]
pub enum Reason {
    FirstLine = 1,
    Axes = 2,
    Size = 3,
    TooHigh = 4,
    TooWide = 5,
    ShortOutput = 6,
    NoWidth = 7,
    ShortStore = 8,
    BytesEnd = 9,
    OverLimit = 10,
    WrongLength = 11,
    TooBright = 12,
    NoRoom = 13,
    BrokenRow = 14,
    UnknownFormat = 15,
    Exposure = 16,
    OldRun = 25,
}

impl From<Reason> for u8 {
    ghost from_gives = { λ reason n. n ≡ reason_number reason };

    // The number.
    fn from(reason: Reason) -> u8 {
        reason as u8
    }
}

// What a call that refuses answers: why, and the row or pixel where the paper names one, else 0.
#[derive(Clone, Copy, Debug, PartialEq, Eq)]
pub struct Refusal {
    pub reason: Reason,
    pub place: usize,
}

impl From<Reason> for Refusal {
    ghost from_gives = { λ reason refusal. refusal ≡ at_no_place reason };

    // A refusal that names no place.
    fn from(reason: Reason) -> Refusal {
        Refusal { reason, place: 0 }
    }
}
