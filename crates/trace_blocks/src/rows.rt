// The rows that a block gives.
ghost use Rattle.std.specs.Prelude.{◌≡◌, ◌≤◌, get_or};
ghost use Rattle.std.specs.Float.{nan};
ghost use Rattle.trace_state.specs.Apply.{channels_of, row_at};
ghost use Rattle.trace_blocks.specs.Steps.{figures_of, rows_written, Ready};

use erle_estimator::erle;
use subband_erle_estimator::SubbandChannel;
use trace_state::Trace;
use trace_text::{ChannelFigures, put_row};

// The place behind the rows that found room, and how many are still due.
#[derive(Clone, Copy, Debug)]
pub struct RowsPut {
    pub at: usize,
    pub due: usize,
}

// The figure of a band; beyond the last there is none, and a NaN stands for it.
pub fn figure_at(stream: &[f32], band: usize) -> f32
    ensures { result ≡ get_or stream.now band nan }
{
    stream.get(band).copied().unwrap_or(f32::NAN)
}

// A channel's figures where there is one section, which its subband record alone gives.
#[tactic(auto, unfolding(crate::specs::Steps::figures_of))]
fn figures_at(c: &SubbandChannel, onset_detection: bool, band: usize) -> ChannelFigures
    ensures { result ≡ figures_of onset_detection band c.now }
{
    let shown = erle(&c.erle, &c.erle_onset_compensated, true, onset_detection);
    ChannelFigures {
        plain: figure_at(&c.erle, band),
        compensated: figure_at(shown, band),
        uncapped: figure_at(&c.erle_unbounded, band),
    }
}

// Writes the rows of the latest block that are due, one behind the other, for as long as each finds room. With one section a channel's figures are
// those of its subband record alone, which is lent where it stands.
pub fn put_rows(out: &mut [u8], at: usize, t: &Trace) -> RowsPut
    requires due_few { t.now.rows_due ≤ channels_of t.now.estimator }
    requires ready { Ready t.now.estimator }
    ensures at_value { rows_written (row_at t.now.estimator t.now.band t.now.blocks) (channels_of t.now.estimator) t.now.rows_due out.entry.now at ≡ record { out = out.exit.now; at = result.at; due = result.due } }
    ensures due_le_due { result.due ≤ t.now.rows_due }
{
    let n = t.estimator.settings.num_capture_channels;
    let on = t.estimator.settings.onset_detection;
    let mut at = at;
    for ch in n - t.rows_due..n {
        let figures = figures_at(&t.estimator.subband[ch], on, t.band);
        let Some(next) = put_row(out, at, t.blocks, ch as u32, figures) else {
            return RowsPut { at, due: n - ch };
        };
        at = next;
    }
    RowsPut { at, due: 0 }
}
