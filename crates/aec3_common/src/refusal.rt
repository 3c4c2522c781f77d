// Why a call or a record is turned away. The numbers, and what each means, are said once, in specs/Refusal.antt.
ghost use Rattle.std.specs.Prelude.{◌≡◌};
ghost use Rattle.aec3_common.specs.Answers.{number, number_of, told};
ghost use Rattle.aec3_common.specs.Refusal.{lesser};

use std::fmt;

// The numbers are those of the definitions.
#[derive(Clone, Copy, Debug, PartialEq, Eq)]
pub enum Refusal {
    BadLimits = 1,
    BadChannelCount = 2,
    BadSections = 3,
    BadRing = 4,
    BadLength = 5,
    BadValue = 6,
    BadLog2Input = 7,
    BadOffset = 8,
    BadPlace = 9,
    BadFrame = 10,
    UnknownKind = 11,
    BadRecordLength = 12,
    BadFlagOrBand = 13,
    BadState = 20,
    OtherChannelCount = 21,
    NoSettings = 22,
    SecondSettings = 23,
}

impl From<Refusal> for u32 {
    ghost from_gives = { λ refusal n. n ≡ number refusal };

    fn from(refusal: Refusal) -> u32 {
        refusal as u32
    }
}

// A refusal is shown as its number.
impl fmt::Display for Refusal {
    fn fmt<W: fmt::Write>(&self, f: &mut fmt::Formatter<W>) -> fmt::Result {
        write!(f, "{}", u32::from(*self))
    }
}

// The next state, where a call is accepted; where it is turned away, the state as it was.
#[derive(Clone, Copy, Debug)]
pub struct Answer<S> {
    pub state: S,
    pub outcome: Result<(), Refusal>,
}

impl<S: Copy> Answer<S> {
    // Puts the next state where a caller keeps it, and hands the outcome on.
    pub fn settle(self, state: &mut S) -> Result<(), Refusal>
        ensures state { state.new ≡ self.state }
        ensures outcome { result ≡ self.outcome }
    {
        *state = self.state;
        self.outcome
    }
}

// The lesser of two refusals, if there are any. They are compared as numbers, since the order that is asked for is that of the numbers.
#[tactic(auto, unfolding(crate::specs::Refusal::lesser))]
pub fn lesser(a: Result<(), Refusal>, b: Result<(), Refusal>) -> Result<(), Refusal>
    ensures { number_of result ≡ lesser (number_of a) (number_of b) }
{
    match (a, b) {
        (Err(first), Err(second)) => {
            if u32::from(first) < u32::from(second) {
                a
            } else {
                b
            }
        }
        (Err(_), Ok(())) => a,
        (Ok(()), _) => b,
    }
}
