// Which number turns a record away.
ghost use Rattle.std.specs.Prelude.{◌≡◌, length, IfOk};
ghost use Rattle.std.specs.List.{list_all};
ghost use Rattle.aec3_common.specs.Answers.{number_of};
ghost use Rattle.trace_records.specs.Records.{settings as Record·settings, block as Record·block, reset as Record·reset, flags_in, block_in, decoded};
ghost use Rattle.trace_records.specs.Judge.{nothing_stands, stands, standing_after, block_length, flag_ok, flags_ok, form_refusal, content_refusal, record_refusal, refusal_in, may_go_on, refusal_ahead};

use crate::frames::{LENGTH_SIZE, frame, length_of};
use crate::records::{
    BlockBytes, Decoded, MOST_VALUES, RESET_LENGTH, SETTINGS_LENGTH, SettingsRecord, block_length,
    decode,
};
use aec3_common::refusal::Refusal;
use aec3_common::settings::{capture_channels_ok, judge_limits_and_channels};
use aec3_common::{ErleSettings, FFT_LENGTH_BY_2};

fn flag_ok(flag: u32) -> bool
    ensures { result ≡ flag_ok flag }
{
    flag <= 1
}

// Number 13 of settings: the onset flag and the printed band.
#[tactic(auto, unfolding(crate::specs::Judge::flags_ok))]
fn flag_and_band_ok(settings: SettingsRecord) -> bool
    ensures { result ≡ flags_ok (Record·settings settings) }
{
    flag_ok(settings.onset_flag) & (settings.band <= FFT_LENGTH_BY_2)
}

// Number 13 of a block: the converged flags.
fn converged_flags_ok(flags: &[u8]) -> bool
    ensures { result ≡ list_all flag_ok flags.now }
{
    flags.iter().all(|&flag| flag_ok(u32::from(flag)))
}

// Of the values of a block in form: 6.
#[tactic(auto, unfolding(crate::specs::Judge::content_refusal, crate::specs::Records::block_in))]
fn judge_block_values(block: &BlockBytes) -> Result<(), Refusal>
    ensures { number_of result ≡ content_refusal (Record·block (block_in block.now.num_capture_channels block.now.bytes.now)) }
{
    let mut values = [0.0; MOST_VALUES];
    block.read(&mut values)
}

// Whether bytes that begin with no whole record are no fault: there are none, or they may be the front of one.
#[tactic(auto, unfolding(crate::specs::Judge::may_go_on))]
fn may_go_on(s: &[u8], ended: bool) -> bool
    ensures { result ≡ may_go_on ended s.now }
{
    s.is_empty() || (!ended && (s.len() < LENGTH_SIZE || length_of(s).is_some()))
}

// What of the trace so far a record is judged by: the capture channels of the settings that stand, or 0 before them. It is no Option: a caller has
// the number alone, in the state's settings, and would test it to make an Option, which `stands` does where it is asked.
#[derive(Clone, Copy, Debug, PartialEq, Eq)]
pub struct Standing {
    pub num_capture_channels: usize,
}

// What stands beside an estimator with such settings. Before the first record these have no channels.
impl From<ErleSettings> for Standing {
    ghost from_gives = { λ settings standing. standing ≡ record { num_capture_channels = settings.num_capture_channels } };

    fn from(settings: ErleSettings) -> Standing {
        Standing {
            num_capture_channels: settings.num_capture_channels,
        }
    }
}

impl Standing {
    // Before the first record.
    pub fn nothing() -> Self
        ensures { result ≡ nothing_stands }
    {
        Standing {
            num_capture_channels: 0,
        }
    }

    // After a record that is accepted.
    #[tactic(auto, unfolding(crate::specs::Judge::standing_after, crate::specs::Steps::record_from))]
    pub fn after(self, record: &[u8]) -> Self
        ensures { result ≡ standing_after self (decoded self «record».now) }
    {
        match decode(record) {
            Ok(Decoded::Settings(said)) => Standing {
                num_capture_channels: said.num_capture_channels,
            },
            Ok(Decoded::Block | Decoded::Reset(_)) | Err(_) => self,
        }
    }

    // Whether settings stand.
    fn stands(self) -> bool
        ensures { result ≡ stands self }
    {
        capture_channels_ok(self.num_capture_channels)
    }

    // Of a settings record with such an L: the first of 23, 12, 13, 1 and 2.
    #[tactic(auto, unfolding(crate::specs::Judge::record_refusal, crate::specs::Judge::form_refusal, crate::specs::Judge::place_refusal, crate::specs::Judge::length_asked, crate::specs::Judge::content_refusal))]
    pub fn judge_settings(self, length: usize, settings: SettingsRecord) -> Result<(), Refusal>
        ensures { number_of result ≡ record_refusal self length (Record·settings settings) }
    {
        if self.stands() {
            return Err(Refusal::SecondSettings);
        }
        if length != SETTINGS_LENGTH {
            return Err(Refusal::BadRecordLength);
        }
        if !flag_and_band_ok(settings) {
            return Err(Refusal::BadFlagOrBand);
        }
        judge_limits_and_channels(settings.limits, settings.num_capture_channels)
    }

    // Of a block, whose values are not looked at: the first of 22, 12 and 13. In form its bytes are told to be those of so many channels.
    #[tactic(auto, unfolding(crate::specs::Judge::form_refusal, crate::specs::Judge::place_refusal, crate::specs::Judge::length_asked, crate::specs::Judge::flags_ok, crate::specs::Records::block_in))]
    pub fn judge_block_form<'a>(self, record: &'a [u8]) -> Result<BlockBytes<'a>, Refusal>
        ensures form { number_of result ≡ form_refusal self (length «record».now) (Record·block (block_in self.num_capture_channels «record».now)) }
        ensures bytes { IfOk result (λ block. block.bytes.now ≡ «record».now) }
        ensures channels { IfOk result (λ block. block.num_capture_channels ≡ self.num_capture_channels) }
    {
        if !self.stands() {
            return Err(Refusal::NoSettings);
        }
        if record.len() != block_length(self.num_capture_channels) {
            return Err(Refusal::BadRecordLength);
        }
        if !converged_flags_ok(&record[2..2 + self.num_capture_channels]) {
            return Err(Refusal::BadFlagOrBand);
        }
        Ok(BlockBytes {
            bytes: record,
            num_capture_channels: self.num_capture_channels,
        })
    }

    // Of a reset with such an L: the first of 22, 12 and 13.
    #[tactic(auto, unfolding(crate::specs::Judge::record_refusal, crate::specs::Judge::form_refusal, crate::specs::Judge::place_refusal, crate::specs::Judge::length_asked, crate::specs::Judge::flags_ok, crate::specs::Judge::content_refusal))]
    pub fn judge_reset(self, length: usize, delay_flag: u32) -> Result<(), Refusal>
        ensures { number_of result ≡ record_refusal self length (Record·reset delay_flag) }
    {
        if !self.stands() {
            return Err(Refusal::NoSettings);
        }
        if length != RESET_LENGTH {
            return Err(Refusal::BadRecordLength);
        }
        if !flag_ok(delay_flag) {
            return Err(Refusal::BadFlagOrBand);
        }
        Ok(())
    }

    // Of a block: the first of 22, 12, 13 and 6.
    fn judge_block(self, record: &[u8]) -> Result<(), Refusal>
        ensures { number_of result ≡ record_refusal self (length «record».now) (Record·block (block_in self.num_capture_channels «record».now)) }
    {
        let block = self.judge_block_form(record)?;
        judge_block_values(&block)
    }

    // Of any record: the first of all numbers under which it is turned away.
    pub fn judge_record(self, record: &[u8]) -> Result<(), Refusal>
        ensures { number_of result ≡ refusal_in self «record».now }
    {
        match decode(record)? {
            Decoded::Settings(settings) => self.judge_settings(record.len(), settings),
            Decoded::Block => self.judge_block(record),
            Decoded::Reset(delay_flag) => self.judge_reset(record.len(), delay_flag),
        }
    }

    // Of the bytes that are yet to be read, told whether the trace has ended with them: the number of the record that they begin with, or 10 where
    // they begin with none that is or may become whole.
    pub fn judge_ahead(self, s: &[u8], ended: bool) -> Result<(), Refusal>
        ensures { number_of result ≡ refusal_ahead self ended s.now }
    {
        match frame(s) {
            Some(record) => self.judge_record(record),
            None if may_go_on(s, ended) => Ok(()),
            None => Err(Refusal::BadFrame),
        }
    }
}
