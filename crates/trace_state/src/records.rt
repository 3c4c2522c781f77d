// The first state, number 20, and what a record that is accepted does to the state.
ghost use Rattle.std.specs.Prelude.{◌≡◌, false};
ghost use Rattle.trace_records.specs.Records.{settings as Record·settings, reset as Record·reset};
ghost use Rattle.trace_state.specs.Apply.{beginning as Apply·beginning, trace_ok, next_of, is_block};
ghost use Rattle.trace_state.specs.Listing.{record_at};
ghost use Rattle.trace_state.specs.Along.{JudgedAlone};
ghost use Rattle.trace_state.specs.Range.{RowsInRange};

use crate::Trace;
use aec3_common::counts::one_more;
use erle_estimator::{refused_settings, started_with};
use trace_records::{Decoded, SettingsRecord, decode};

// Before the first record: the estimator of settings that no start passes. Whatever bytes follow, 20 lets every state pass, and every printed figure is in range.
pub fn beginning() -> Trace
    ensures value { result ≡ Apply·beginning }
    ensures judged_alone { JudgedAlone result }
    ensures rows_in_range { RowsInRange result }
{
    Trace {
        estimator: started_with(0, 0, refused_settings()),
        band: 0,
        blocks: 0,
        records: 0,
        rows_due: 0,
    }
}

// Whether number 20 lets the state pass.
#[tactic(auto, unfolding(crate::specs::Apply::trace_ok))]
pub fn state_ok(t: Trace) -> bool
    ensures { result ≡ trace_ok t }
{
    let settings = t.estimator.settings;
    if settings.num_capture_channels < t.rows_due {
        false
    } else if settings.num_capture_channels == 0 {
        true
    } else {
        let layout = settings.layout;
        t.estimator.ok() & ((layout.num_sections == 1) & (layout.delay_headroom_samples == 0))
    }
}

// Settings: a start.
#[tactic(auto, unfolding(crate::specs::Apply::next_of))]
fn after_settings(t: Trace, settings: SettingsRecord) -> Trace
    ensures { result ≡ next_of t (Record·settings settings) }
{
    Trace {
        estimator: started_with(settings.startup, 0, settings.into()),
        band: settings.band,
        records: one_more(t.records),
        rows_due: 0,
        ..t
    }
}

// A reset.
#[tactic(auto, unfolding(crate::specs::Apply::next_of))]
fn after_reset(t: Trace, delay_flag: u32) -> Trace
    ensures { result ≡ next_of t (Record·reset delay_flag) }
{
    Trace {
        estimator: t.estimator.restarted(delay_flag == 1),
        records: one_more(t.records),
        rows_due: 0,
        ..t
    }
}

// The state after a record that is no block, by its kind. One of an unknown kind does nothing, and is never accepted. (Of a block, which is asked
// of `trace_blocks`, nothing is done here.)
pub fn after_record(t: Trace, record: &[u8]) -> Trace
    requires { is_block (record_at t «record».now) ≡ false }
    ensures { result ≡ next_of t (record_at t «record».now) }
{
    let Ok(decoded) = decode(record) else {
        return t;
    };
    match decoded {
        Decoded::Settings(settings) => after_settings(t, settings),
        Decoded::Reset(delay_flag) => after_reset(t, delay_flag),
        Decoded::Block => t,
    }
}
