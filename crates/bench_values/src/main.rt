// Asks the code for the bench values of document 01 and tells of each whether it is as given.
#![tactic(auto)]

use aec3_common::log2::rounded;
use aec3_common::{FilterLayout, Refusal, fast_approx_log2f};
use encoding::bits_of;
use erl_estimator::{ErlBlock, ErlEstimator};
use filter_sections::section_boundaries;
use spectrum_buffer::offset_index;
use std::io::Write;

// So many sections of so many blocks, without headroom.
fn layout(num_sections: usize, filter_length_blocks: usize) -> FilterLayout {
    FilterLayout {
        num_sections,
        filter_length_blocks,
        delay_headroom_samples: 0,
    }
}

// The first inner band after one block of render 2^26 and capture 0.
fn erl_moves_to(erl: f32) -> bool {
    let block = ErlBlock {
        num_capture_channels: 1,
        num_render_channels: 1,
        converged_filters: &[true],
        render_spectra: &[67_108_864.0; 65],
        capture_spectra: &[0.0; 65],
    };
    let answer = ErlEstimator::new(0).update(&block);
    answer.outcome.is_ok() && answer.state.erl[1] == erl
}

// What is given, and whether the code agrees.
type Told = (&'static str, bool);

fn log2_and_ring() -> [Told; 7] {
    [
        (
            "log2 of 1 has bits 3D6AB800",
            fast_approx_log2f(1.0).map(bits_of) == Ok(0x3d6a_b800),
        ),
        (
            "log2 of 4 has bits 4003AAE0",
            fast_approx_log2f(4.0).map(bits_of) == Ok(0x4003_aae0),
        ),
        (
            "16,777,217 rounds to 16,777,216",
            rounded(16_777_217) == 16_777_216.0,
        ),
        (
            "ring of 5: place 3 offset -5 gives 3",
            offset_index(5, 3, -5) == Ok(3),
        ),
        (
            "ring of 5: place 0 offset -1 gives 4",
            offset_index(5, 0, -1) == Ok(4),
        ),
        (
            "ring of 5: place 4 offset 5 gives 4",
            offset_index(5, 4, 5) == Ok(4),
        ),
        (
            "ring of 5: offset 6 is refused with 8",
            offset_index(5, 0, 6) == Err(Refusal::BadOffset),
        ),
    ]
}

fn sections_and_erl() -> [Told; 3] {
    [
        (
            "13 blocks, 3 sections give 0, 2, 6, 13",
            section_boundaries(layout(3, 13)).is_ok_and(|found| found[..4] == [0, 2, 6, 13]),
        ),
        (
            "2 blocks, 3 sections are refused with 3",
            section_boundaries(layout(3, 2)) == Err(Refusal::BadSections),
        ),
        ("ERL 1,000 with ratio 0 moves to 900", erl_moves_to(900.0)),
    ]
}

// Room for all lines.
const TEXT: usize = 4096;

// All lines go out in one write. One that failed is passed over.
fn main(rt: HostRuntime) {
    let mut text = [0; TEXT];
    let mut room = text.as_mut_slice();
    for (given, holds) in log2_and_ring().into_iter().chain(sections_and_erl()) {
        let _ = writeln!(room, "{given}: {}", if holds { "yes" } else { "no" });
    }
    let end = TEXT.saturating_sub(room.len());
    let _ = rt.stdout().write_all(&text[..end]);
}
