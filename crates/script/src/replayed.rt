// The calls to one estimator: what each sort of estimator says of itself, and how any of them is replayed.
ghost use Rattle.std.specs.Prelude.{◌≡◌};
ghost use Rattle.script.specs.Calls.{UnchangedOnErr};

use crate::call::{Call, Reply};
use crate::fault::Malformed;
use crate::fields::Fields;
use crate::from_fields::{FromFields, ReadLists};
use crate::record::Record;
use aec3_common::Refusal;
use std::fmt;

// An update is repeated at most so often, and at least once.
const MOST_TIMES: u32 = 65535;

// An estimator that a script calls. Shown are the lines of its figures. What each sort of estimator answers is its own, so the
// methods promise nothing here.
pub trait Replayed: Copy + fmt::Display {
    // What a start, an update and a reset are told.
    type Settings: Copy;

    type Update: ReadLists + Drop;

    type Change: FromFields<Error = Malformed> + Copy;

    // The word that begins the line of a call.
    const NAME: &'static str;

    // Whether a script may repeat an update of this sort.
    const REPEATS: bool;

    // The settings are of the estimators' own crates, so no `FromFields` reads them.
    fn settings_in(fields: &mut Fields) -> Result<Self::Settings, Malformed>;

    fn start(settings: Self::Settings) -> Result<Self, Refusal>;

    fn update(&mut self, update: &Self::Update) -> Result<(), Refusal>;

    fn reset(&mut self, change: Self::Change) -> Result<(), Refusal>;
}

// The estimator that stands from one record to the next, if there is one.
#[derive(Clone, Copy, Debug)]
pub struct Standing<T> {
    pub estimator: Option<T>,
}

impl<T: Replayed> Standing<T> {
    pub fn new() -> Standing<T>
        ensures { result.estimator ≡ None }
    {
        Standing { estimator: None }
    }

    // A refused start leaves none standing.
    fn start(&mut self, mut fields: Fields) -> Result<Reply, Malformed>
        ensures err { UnchangedOnErr result self.old self.new }
    {
        let settings = T::settings_in(&mut fields)?;
        fields.end()?;
        match T::start(settings) {
            Ok(state) => {
                self.estimator = Some(state);
                Ok(Reply::Started)
            }
            Err(refusal) => {
                self.estimator = None;
                Ok(Reply::NotStarted(refusal))
            }
        }
    }

    // The same update so many times, each on the state that the last one left, and the answer of the last.
    fn update(
        &mut self,
        times: u32,
        mut fields: Fields,
        lists: &mut T::Update,
    ) -> Result<Reply, Malformed>
        ensures err { UnchangedOnErr result self.old self.new }
    {
        lists.read_fields(&mut fields)?;
        fields.end()?;
        // In a variable of its own while it is repeated: changed where it stands, each turn copied it twice more.
        let Some(mut state) = self.estimator else {
            return Ok(Reply::NoneStands);
        };
        let update: &T::Update = lists;
        let mut outcome = Ok(());
        for _ in 0..times {
            outcome = state.update(update);
        }
        self.estimator = Some(state);
        match outcome {
            Ok(()) => Ok(Reply::Updated),
            Err(refusal) => Ok(Reply::Refused(refusal)),
        }
    }

    fn repeat(&mut self, mut fields: Fields, lists: &mut T::Update) -> Result<Reply, Malformed>
        ensures err { UnchangedOnErr result self.old self.new }
    {
        let times = fields.word()?;
        if !T::REPEATS || times == 0 || MOST_TIMES < times {
            return Err(Malformed);
        }
        self.update(times, fields, lists)
    }

    fn reset(&mut self, mut fields: Fields) -> Result<Reply, Malformed>
        ensures err { UnchangedOnErr result self.old self.new }
    {
        let change = T::Change::from_fields(&mut fields)?;
        fields.end()?;
        let Some(state) = &mut self.estimator else {
            return Ok(Reply::NoneStands);
        };
        match state.reset(change) {
            Ok(()) => Ok(Reply::Restarted),
            Err(refusal) => Ok(Reply::Refused(refusal)),
        }
    }

    // Replays a record: the line of its call, and the figures of the estimator that stands after it. What finds no room in the text is
    // not written. The lists of an update are read over those that are lent, since to make new ones for each record would take long.
    pub fn replay<W: fmt::Write>(
        &mut self,
        record: Record,
        lists: &mut T::Update,
        text: &mut W,
    ) -> Result<(), Malformed>
        ensures malformed { UnchangedOnErr result self.old self.new }
    {
        let fields = record.fields;
        let reply = match Call::try_from(record.kind)? {
            Call::Start => self.start(fields)?,
            Call::Update => self.update(1, fields, lists)?,
            Call::Reset => self.reset(fields)?,
            Call::Repeat => self.repeat(fields, lists)?,
        };
        let _ = writeln!(text, "{} {reply}", T::NAME);
        if let Some(state) = &self.estimator {
            let _ = write!(text, "{state}");
        }
        Ok(())
    }
}
