// Refusals: why a text or a call is refused, with the number that callers are told, and of a text the line.
#![tactic(auto)]

ghost use Rattle.std.specs.Prelude.{◌≡◌};
ghost use Rattle.paper_refusals.specs.Numbers.{number_of};

// Why something is refused, in the order of the numbers (01, "Numbers from the input").
#[derive(Clone, Copy, Debug, PartialEq, Eq)]
pub enum Refusal {
    // a line that is no frame
    NoFrame,
    // a kind that does not belong there, or the wrong length for its kind
    WrongKind,
    // a point after a dependence or a barred gap
    LatePoint,
    // something that has no place there, or is missing
    Misplaced,
    // one more than there may be
    TooMany,
    // a number that names nothing, or a point of the wrong sort
    WrongPoint,
    // a dependence that goes back where it may not
    WrongOrder,
    // a gap out of range, or one that is not above the gap before
    WrongGap,
    // a buffer shorter than the text
    ShortBuffer,
    NoNest,
    NoKey,
    // Put of a gap that is there, Lift of one that is not
    NothingMoved,
    NoMoveLeft,
    // a nest of more than one loop, or a barred gap, where that may not be
    NotOneLoop,
    // a dependence that has all its gaps barred
    Blocked,
    // a barrier at a barred gap
    BarredGap,
    WrongTurns,
    // a joint nest that exceeds a limit
    TooLarge,
    // a sheet with a number out of range, or a slice of another length
    WrongSize,
    // a set of a sheet without its own processor, or with one that is not there
    WrongSet,
    // an argument that does not hold
    Unheld,
}

// A refusal, and the line at fault; line 0 where it is of none.
#[derive(Clone, Copy, Debug, PartialEq, Eq)]
pub struct Fault {
    pub refusal: Refusal,
    pub line: usize,
}

// Of no line.
impl From<Refusal> for Fault {
    ghost from_gives = { λ r f. f ≡ record { refusal = r; line = 0 } };

    fn from(refusal: Refusal) -> Fault {
        Fault { refusal, line: 0 }
    }
}

impl From<Refusal> for u8 {
    ghost from_gives = { λ r n. n ≡ number_of r };

    fn from(refusal: Refusal) -> u8 {
        match refusal {
            Refusal::NoFrame => 1,
            Refusal::WrongKind => 2,
            Refusal::LatePoint => 3,
            Refusal::Misplaced => 4,
            Refusal::TooMany => 5,
            Refusal::WrongPoint => 6,
            Refusal::WrongOrder => 7,
            Refusal::WrongGap => 8,
            Refusal::ShortBuffer => 9,
            Refusal::NoNest => 10,
            Refusal::NoKey => 11,
            Refusal::NothingMoved => 12,
            Refusal::NoMoveLeft => 13,
            Refusal::NotOneLoop => 14,
            Refusal::Blocked => 15,
            Refusal::BarredGap => 16,
            Refusal::WrongTurns => 17,
            Refusal::TooLarge => 18,
            Refusal::WrongSize => 19,
            Refusal::WrongSet => 20,
            Refusal::Unheld => 21,
        }
    }
}
