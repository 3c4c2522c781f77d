// What the bytes of a record say. Places are counted from its kind on.
ghost use Rattle.std.specs.Prelude.{◌≡◌, ◌+◌, ◌*◌, ◌≤◌, length, IfErr};
ghost use Rattle.encoding.specs.Bytes.{byte_at};
ghost use Rattle.aec3_common.specs.Answers.{number_of};
ghost use Rattle.aec3_common.specs.declared.refusal.Refusal.TheVariants.{UnknownKind};
ghost use Rattle.trace_records.specs.declared.judge.Standing.{Standing};
ghost use Rattle.trace_records.specs.Records.{is_set, value_at, settings_in, spectrum_at, erle_settings, decoded};
ghost use Rattle.trace_records.specs.Judge.{block_length};
ghost use Rattle.trace_records.specs.Steps.{KindOf, record_from, flag_table, BlockRead};

use aec3_common::block::judge_values;
use aec3_common::entries::change;
use aec3_common::refusal::Refusal;
use aec3_common::settings::{ErleLimits, FilterLayout};
use aec3_common::{ErleSettings, FFT_LENGTH_BY_2_PLUS_1};
use encoding::{byte_at, float_of, half_at, word_at};
use std::array;

pub const SETTINGS_LENGTH: usize = 21;

pub const RESET_LENGTH: usize = 3;

// The kinds of records, by the number that each begins with.
#[derive(Clone, Copy, Debug, PartialEq, Eq)]
pub enum RecordKind {
    Settings = 0x0001,
    Block = 0x0002,
    Reset = 0x0003,
}

impl TryFrom<u32> for RecordKind {
    type Error = Refusal;

    ghost try_from_gives = { KindOf };

    fn try_from(number: u32) -> Result<RecordKind, Refusal> {
        match number {
            0x0001 => Ok(RecordKind::Settings),
            0x0002 => Ok(RecordKind::Block),
            0x0003 => Ok(RecordKind::Reset),
            _ => Err(Refusal::UnknownKind),
        }
    }
}

// What a settings record says. The onset flag is the byte as it stands there, and no bool: one that is no flag is refused under 13, after 23 and 12.
#[derive(Clone, Copy, Debug)]
pub struct SettingsRecord {
    pub limits: ErleLimits,
    pub num_capture_channels: usize,
    pub onset_flag: u32,
    pub startup: u32,
    pub band: usize,
}

// The settings of the estimator that a settings record starts, which has one section.
impl From<SettingsRecord> for ErleSettings {
    ghost from_gives = { λ said settings. settings ≡ erle_settings said };

    #[tactic(auto, unfolding(crate::specs::Records::erle_settings))]
    fn from(record: SettingsRecord) -> ErleSettings {
        ErleSettings {
            limits: record.limits,
            onset_detection: record.onset_flag == 1,
            num_capture_channels: record.num_capture_channels,
            layout: FilterLayout {
                num_sections: 1,
                filter_length_blocks: 1,
                delay_headroom_samples: 0,
            },
            clamp_quality_estimate_to_zero: true,
            clamp_quality_estimate_to_one: true,
        }
    }
}

// A record by its kind. It holds no flags and numbers of a block: `flags_in` and `BlockBytes` read these. Of a reset it has the flag byte as it
// stands there, and no bool: a byte that is no flag is refused under 13, and before that under 22 or 12, so it is judged later than it is read.
#[derive(Clone, Copy, Debug)]
pub enum Decoded {
    Settings(SettingsRecord),
    Block,
    Reset(u32),
}

fn flag_at(record: &[u8], place: usize) -> bool
    ensures { result ≡ is_set (byte_at «record».now place) }
{
    byte_at(record, place) == 1
}

#[tactic(auto, unfolding(crate::specs::Records::value_at))]
fn value_at(record: &[u8], place: usize) -> f32
    ensures { result ≡ value_at «record».now place }
{
    float_of(word_at(record, place))
}

#[tactic(auto, unfolding(crate::specs::Records::settings_in))]
fn settings_in(record: &[u8]) -> SettingsRecord
    ensures { result ≡ settings_in «record».now }
{
    SettingsRecord {
        limits: ErleLimits {
            min: value_at(record, 2),
            max_l: value_at(record, 6),
            max_h: value_at(record, 10),
        },
        num_capture_channels: byte_at(record, 14) as usize,
        onset_flag: byte_at(record, 15),
        startup: word_at(record, 16),
        band: byte_at(record, 20) as usize,
    }
}

// The record that bytes hold, whatever stands. Turned away under 11 where its kind is unknown.
pub fn decode(record: &[u8]) -> Result<Decoded, Refusal>
    ensures value { (standing : Standing) → record_from standing «record».now result ≡ decoded standing «record».now }
    ensures refused { IfErr result (λ refusal. refusal ≡ UnknownKind) }
{
    Ok(match RecordKind::try_from(half_at(record, 0))? {
        RecordKind::Settings => Decoded::Settings(settings_in(record)),
        RecordKind::Block => Decoded::Block,
        RecordKind::Reset => Decoded::Reset(byte_at(record, 2)),
    })
}

// The L of a block, for a count of channels that is in its range.
pub(crate) fn block_length(num_capture_channels: usize) -> usize
    requires { num_capture_channels ≤ 4 }
    ensures { result ≡ block_length num_capture_channels }
{
    262 + 521 * num_capture_channels
}

// The converged flags in a table. Channels that the block does not have stand there too, as not converged. It asks nothing of the bytes and their
// length, so that it is no method of `BlockBytes`.
pub fn flags_in(record: &[u8], num_capture_channels: usize) -> [bool; 4]
    ensures { result ≡ flag_table num_capture_channels «record».now }
{
    array::from_fn(|ch| ch < num_capture_channels && flag_at(record, 2 + ch))
}

// The number whose bits are in four bytes, the lowest first. It stands beside `value_at`, which asks of each byte whether it is there: reading and
// judging a block by that one takes 1.8 times the instructions.
#[tactic(auto, unfolding(crate::specs::Records::value_at))]
fn value_of(bytes: [u8; 4]) -> f32
    ensures { result ≡ value_at bytes 0 }
{
    float_of(u32::from_le_bytes(bytes))
}

// The numbers of a block of four channels.
pub const MOST_VALUES: usize = 585;

// Reads the numbers of 65 bands, each in four bytes, into a slice.
fn read_spectrum(bytes: &[u8], values: &mut [f32])
    requires bytes_of_all { length bytes.now ≡ 260 }
    requires values_of_all { length values.old ≡ 65 }
    ensures { values.new ≡ spectrum_at bytes.now 0 }
{
    let (fours, _) = bytes.as_chunks::<4>();
    change(values, 0, FFT_LENGTH_BY_2_PLUS_1, |k, _| value_of(fours[k]));
}

// The record of a block in bytes, which has the length of a block of so many channels. The count stands beside the bytes, since it would else be
// found by a division each time.
#[derive(Clone, Copy, Debug)]
pub struct BlockBytes<'a> {
    pub bytes: &'a [u8],
    pub num_capture_channels: usize,
    pub ghost few: { num_capture_channels ≤ 4 },
    pub ghost whole: { length bytes.now ≡ block_length num_capture_channels },
}

impl BlockBytes<'_> {
    // Reads all numbers into a table: render power, then the captures of all channels, then the residuals of all channels. Turned away under 6 where one
    // of them is out of range.
    pub fn read(&self, values: &mut [f32; MOST_VALUES]) -> Result<(), Refusal>
        ensures { BlockRead self.now.num_capture_channels self.now.bytes.now values.new (number_of result) }
    {
        let record = self.bytes;
        let num_capture_channels = self.num_capture_channels;
        let render_place = 2 + num_capture_channels;
        let residuals = 65 + 65 * num_capture_channels;
        read_spectrum(&record[render_place..render_place + 260], &mut values[..65]);
        // By index: of what is written through `chunks_mut` a proof knows the length alone afterwards.
        for ch in 0..num_capture_channels {
            let place = render_place + 260 + 520 * ch;
            let own = 65 * ch;
            read_spectrum(
                &record[place..place + 260],
                &mut values[65 + own..130 + own],
            );
            read_spectrum(
                &record[place + 260..place + 520],
                &mut values[residuals + own..residuals + 65 + own],
            );
        }
        let count = 65 + 130 * num_capture_channels;
        judge_values(&values[..count])
    }
}
