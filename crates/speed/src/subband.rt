// Updates of the subband estimator.
use crate::blocks::Blocks;
use crate::figures::subband_sum;
use aec3_common::{Block, ErleLimits};
use subband_erle_estimator::{SubbandErleEstimator, SubbandSettings};

// Runs a subband estimator over all blocks, in order, and that so many rounds. A block has one flag for each channel,
// 65 render numbers, and 65 capture and 65 residual numbers for each channel; blocks lie one after the other. Answers
// the sum of the plain, compensated and unbounded figures; 0 where the channels are too few or too many, or a slice is too short
// for the blocks.
#[unsafe(no_mangle)]
pub extern "C" fn speed_subband(
    channels: usize,
    onset: bool,
    flags: &[bool],
    render: &[f32],
    capture: &[f32],
    residual: &[f32],
    blocks: usize,
    rounds: usize,
) -> f32 {
    let Some(lists) = Blocks::new(channels, flags, render, capture, residual, blocks) else {
        return 0.0;
    };
    let settings = SubbandSettings {
        limits: ErleLimits {
            min: 1.0,
            max_l: 4.0,
            max_h: 1.5,
        },
        onset_detection: onset,
        num_capture_channels: channels,
    };
    let Ok(start) = SubbandErleEstimator::new(settings) else {
        return 0.0;
    };
    let step = |estimator: &mut SubbandErleEstimator, _: usize, block: &Block| {
        *estimator = estimator.update(block).state;
    };
    subband_sum(&lists.run(start, rounds, step))
}
