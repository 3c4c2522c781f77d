// Updates of the ERL estimator.
use crate::blocks::first_blocks;
use crate::figures::erl_sum;
use aec3_common::settings::{MAX_CAPTURE_CHANNELS, MAX_RENDER_CHANNELS};
use erl_estimator::{ErlBlock, ErlEstimator};

// Runs an ERL estimator without startup over all blocks, in order, and that so many rounds. A block has one flag for
// each capture channel, 65 numbers for each render channel, and 65 for each capture channel; blocks lie one after the
// other. Answers the sum of the figures; 0 where the channels are too many, or a slice is too short for the blocks.
#[unsafe(no_mangle)]
pub extern "C" fn speed_erl(
    captures: usize,
    renders: usize,
    flags: &[bool],
    render: &[f32],
    capture: &[f32],
    blocks: usize,
    rounds: usize,
) -> f32 {
    if captures > MAX_CAPTURE_CHANNELS || renders > MAX_RENDER_CHANNELS {
        return 0.0;
    }
    let Some(flags) = first_blocks(flags, captures, blocks) else {
        return 0.0;
    };
    let Some(render) = first_blocks(render, renders * 65, blocks) else {
        return 0.0;
    };
    let Some(capture) = first_blocks(capture, captures * 65, blocks) else {
        return 0.0;
    };
    let mut erl = ErlEstimator::new(0);
    // Without a channel every update is turned away.
    if captures == 0 || renders == 0 {
        return erl_sum(&erl);
    }
    // Rounds of their own beside `Blocks::run`: a block of an ERL estimator has more than one render channel and no residual, so one loop for
    // both would need a trait over what a block is cut from, which is longer than this.
    for _ in 0..rounds {
        let lists = flags
            .chunks_exact(captures)
            .zip(render.chunks_exact(renders * 65))
            .zip(capture.chunks_exact(captures * 65));
        for ((converged_filters, render_spectra), capture_spectra) in lists {
            let block = ErlBlock {
                num_capture_channels: captures,
                num_render_channels: renders,
                converged_filters,
                render_spectra,
                capture_spectra,
            };
            erl = erl.update(&block).state;
        }
    }
    erl_sum(&erl)
}
