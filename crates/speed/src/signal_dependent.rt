// Updates of the signal-dependent estimator.
use crate::blocks::{Blocks, first_blocks};
use crate::figures::signal_dependent_sum;
use crate::ring::{FILTER_LENGTH_BLOCKS, SharedLists};
use aec3_common::{Block, ErleLimits, FilterLayout};
use signal_dependent_erle_estimator::{
    Averages, Inputs, SignalDependentErleEstimator, SignalDependentSettings,
};

// Runs a signal-dependent estimator over all blocks, in order, and that so many rounds. A block has one flag for each channel, 65 render
// numbers, and 65 capture and 65 residual numbers for each channel; blocks lie one after the other. All blocks share the ring, of 20
// slots, from which block b reads at b modulo 20, the responses, 13 blocks for each channel, and the averages, 65 numbers for each, which
// are lent as both streams of the subband estimator. Answers the sum of the plain and the compensated figures of each channel; 0 where
// the channels are too few or too many, or a slice is too short.
#[unsafe(no_mangle)]
pub extern "C" fn speed_signal_dependent(
    channels: usize,
    sections: usize,
    flags: &[bool],
    render: &[f32],
    capture: &[f32],
    residual: &[f32],
    ring: &[f32],
    responses: &[f32],
    averages: &[f32],
    blocks: usize,
    rounds: usize,
) -> f32 {
    let Some(lists) = Blocks::new(channels, flags, render, capture, residual, blocks) else {
        return 0.0;
    };
    let Some(shared) = SharedLists::new(channels, ring, responses) else {
        return 0.0;
    };
    let Some(stream) = first_blocks(averages, 65, channels) else {
        return 0.0;
    };
    let averages = Averages {
        plain: stream,
        compensated: stream,
    };
    let settings = SignalDependentSettings {
        limits: ErleLimits {
            min: 1.0,
            max_l: 4.0,
            max_h: 1.5,
        },
        onset_detection: true,
        num_capture_channels: channels,
        layout: FilterLayout {
            num_sections: sections,
            filter_length_blocks: FILTER_LENGTH_BLOCKS,
            delay_headroom_samples: 0,
        },
    };
    let Ok(start) = SignalDependentErleEstimator::new(settings) else {
        return 0.0;
    };
    let step = |estimator: &mut SignalDependentErleEstimator, index: usize, block: &Block| {
        let inputs = Inputs {
            render: shared.buffer(index),
            responses: shared.responses,
            block: *block,
        };
        *estimator = estimator.update(&inputs, &averages).state;
    };
    signal_dependent_sum(&lists.run(start, rounds, step))
}
