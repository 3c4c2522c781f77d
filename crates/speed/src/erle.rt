// Updates of the whole ERLE estimator.
use crate::blocks::Blocks;
use crate::figures::erle_sum;
use crate::ring::{FILTER_LENGTH_BLOCKS, SharedLists};
use aec3_common::{Block, ErleLimits, FilterLayout};
use erle_estimator::{ErleEstimator, ErleSettings, Inputs};

// Runs the whole ERLE estimator, without startup, over all blocks, in order, and that so many rounds. A block has one flag
// for each channel, 65 render numbers, and 65 capture and 65 residual numbers for each channel; blocks lie one after the
// other. All blocks share the ring, of 20 slots, from which block b reads at b modulo 20, and the responses, 13 blocks for
// each channel. Answers the sum of the plain, the compensated and the uncapped figures of each channel and of the fullband
// log2 figure; 0 where the channels are too few or too many, or a slice is too short.
#[unsafe(no_mangle)]
pub extern "C" fn speed_erle(
    channels: usize,
    sections: usize,
    flags: &[bool],
    render: &[f32],
    capture: &[f32],
    residual: &[f32],
    ring: &[f32],
    responses: &[f32],
    blocks: usize,
    rounds: usize,
) -> f32 {
    let Some(lists) = Blocks::new(channels, flags, render, capture, residual, blocks) else {
        return 0.0;
    };
    let Some(shared) = SharedLists::new(channels, ring, responses) else {
        return 0.0;
    };
    let settings = ErleSettings {
        limits: ErleLimits {
            min: 1.0,
            max_l: 4.0,
            max_h: 1.5,
        },
        onset_detection: true,
        num_capture_channels: channels,
        layout: FilterLayout {
            num_sections: sections,
            filter_length_blocks: FILTER_LENGTH_BLOCKS,
            delay_headroom_samples: 0,
        },
        clamp_quality_estimate_to_zero: true,
        clamp_quality_estimate_to_one: true,
    };
    let Ok(start) = ErleEstimator::new(0, settings) else {
        return 0.0;
    };
    let step = |estimator: &mut ErleEstimator, index: usize, block: &Block| {
        let inputs = Inputs {
            render: shared.buffer(index),
            responses: shared.responses,
            block: *block,
        };
        *estimator = estimator.update(&inputs).state;
    };
    erle_sum(&lists.run(start, rounds, step))
}
