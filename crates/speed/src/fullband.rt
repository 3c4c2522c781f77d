// Updates of the fullband estimator.
use crate::blocks::Blocks;
use crate::figures::fullband_sum;
use aec3_common::{Block, ErleLimits};
use fullband_erle_estimator::{FullBandErleEstimator, FullBandSettings, QualityClamps};

// Runs a fullband estimator over all blocks, in order, and that so many rounds. A block has one flag for each channel,
// 65 render numbers, and 65 capture and 65 residual numbers for each channel; blocks lie one after the other. Answers
// the sum of the channels' figures and quality estimates; 0 where the channels are too few or too many, or a slice is too short
// for the blocks.
#[unsafe(no_mangle)]
pub extern "C" fn speed_fullband(
    channels: usize,
    flags: &[bool],
    render: &[f32],
    capture: &[f32],
    residual: &[f32],
    blocks: usize,
    rounds: usize,
) -> f32 {
    let Some(lists) = Blocks::new(channels, flags, render, capture, residual, blocks) else {
        return 0.0;
    };
    let settings = FullBandSettings {
        limits: ErleLimits {
            min: 1.0,
            max_l: 4.0,
            max_h: 1.5,
        },
        clamps: QualityClamps {
            to_zero: true,
            to_one: true,
        },
        num_capture_channels: channels,
    };
    let Ok(start) = FullBandErleEstimator::new(settings) else {
        return 0.0;
    };
    let step = |estimator: &mut FullBandErleEstimator, _: usize, block: &Block| {
        *estimator = estimator.update(block).state;
    };
    fullband_sum(&lists.run(start, rounds, step))
}
