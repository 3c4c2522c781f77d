// What a record asks of an estimator, and what the line of that call says.
ghost use Rattle.script.specs.Calls.{CallOf};

use crate::fault::Malformed;
use aec3_common::Refusal;
use std::fmt;

// A repeat is an update so many times.
#[derive(Clone, Copy, Debug, PartialEq, Eq)]
pub enum Call {
    Start,
    Update,
    Reset,
    Repeat,
}

// The last digit of a record's kind tells the calls to an estimator apart.
impl TryFrom<u16> for Call {
    type Error = Malformed;

    ghost try_from_gives = { CallOf };

    fn try_from(kind: u16) -> Result<Self, Malformed> {
        match kind % 16 {
            0 => Ok(Call::Start),
            1 => Ok(Call::Update),
            2 => Ok(Call::Reset),
            3 => Ok(Call::Repeat),
            _ => Err(Malformed),
        }
    }
}

#[derive(Clone, Copy, Debug, PartialEq, Eq)]
pub enum Reply {
    Started,
    NotStarted(Refusal),
    Updated,
    Restarted,
    Refused(Refusal),
    NoneStands,
}

impl fmt::Display for Reply {
    fn fmt<W: fmt::Write>(&self, f: &mut fmt::Formatter<W>) -> fmt::Result {
        match self {
            Reply::Started => write!(f, "start"),
            Reply::NotStarted(refusal) => write!(f, "start refused {refusal}"),
            Reply::Updated => write!(f, "ok"),
            Reply::Restarted => write!(f, "reset"),
            Reply::Refused(refusal) => write!(f, "refused {refusal}"),
            Reply::NoneStands => write!(f, "none"),
        }
    }
}
