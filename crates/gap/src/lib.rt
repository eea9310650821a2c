// The gap between what a peer has sent and what has come: whether to ask for it, what a frame makes of it, when it is closed.
#![tactic(auto)]

ghost use Rattle.std.specs.Prelude.{◌≡◌};
ghost use Rattle.gap.specs.Gap.{no_gap, passed, asks, asked_for, seen, unless_past, numbered, bounded};
ghost use Rattle.gap.specs.Held.{gap_of, held_gap};

// Ten seconds, in microseconds.
const RE_ASK: u64 = 10_000_000;

// A gap that is open, or none: then all four are 0.
// Four numbers and no Option: a record's gap is what the host's words say, read unchecked, and `is_bounded` judges all four (refusal 11).
#[derive(Clone, Copy, PartialEq, Eq, Debug)]
pub struct Gap {
    // 1 if one is open.
    pub isOpen: u64,
    // The number that was expected when it was asked for.
    pub expected: u64,
    // The highest number seen.
    pub highest: u64,
    // When it was last asked for, in microseconds since 1970.
    pub asked: u64,
}

impl Gap {
    pub fn none() -> Gap
        ensures { result ≡ held_gap no_gap }
    {
        Gap {
            isOpen: 0,
            expected: 0,
            highest: 0,
            asked: 0,
        }
    }

    // Whether a frame above the expected number asks.
    #[tactic(auto, unfolding(crate::specs::Gap::asks))]
    pub fn asks(self, expected: u64, time: u64) -> bool
        ensures { result ≡ asks time expected (gap_of self) }
    {
        self.isOpen != 1 || self.expected != expected || has_passed(self.asked, time)
    }

    // The gap behind a frame n that asked for the expected number.
    pub fn asked_for(self, expected: u64, n: u64, time: u64) -> Gap
        ensures { result ≡ held_gap (asked_for time expected n (gap_of self)) }
    {
        Gap {
            isOpen: 1,
            expected,
            highest: self.highest.max(n),
            asked: time,
        }
    }

    // The gap behind a frame n that did not ask.
    pub fn seen(self, n: u64) -> Gap
        ensures { result ≡ held_gap (seen n (gap_of self)) }
    {
        let highest = self.highest.max(n);
        Gap { highest, ..self }
    }

    // The gap, unless the expected number is above the highest seen.
    #[tactic(auto, unfolding(crate::specs::Gap::unless_past))]
    pub fn unless_past(self, expected: u64) -> Gap
        ensures { result ≡ held_gap (unless_past expected (gap_of self)) }
    {
        if self.highest < expected {
            return Gap::none();
        }
        self
    }

    // Whether a gap keeps its ranges.
    #[tactic(auto, unfolding(crate::specs::Gap::bounded))]
    pub fn is_bounded(self) -> bool
        ensures { result ≡ bounded (gap_of self) }
    {
        if self.isOpen == 1 {
            return is_numbered(self.expected) && is_numbered(self.highest);
        }
        self == Gap::none()
    }
}

// Whether ten seconds have passed. A clock that went back has passed them.
#[tactic(auto, unfolding(crate::specs::Gap::passed))]
fn has_passed(asked: u64, time: u64) -> bool
    ensures { result ≡ passed asked time }
{
    time < asked || RE_ASK <= time - asked
}

// Whether a number is one that a message may have.
pub fn is_numbered(n: u64) -> bool
    ensures { result ≡ numbered n }
{
    matches!(n, 1..=999_999_999)
}
