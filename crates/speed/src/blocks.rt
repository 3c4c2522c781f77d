// The blocks that a driver lends, one behind the other.
ghost use Rattle.std.specs.Prelude.{ℕ, ◌≡◌, ◌≤◌, ◌<◌, ◌*◌, ◌↔◌, length, take, IsNone, IsSome, IfSome};
ghost use Rattle.speed.specs.Room.{Room};

use aec3_common::settings::capture_channels_ok;

// The first so many blocks of a slice, each of a size; none where it is shorter.
pub fn first_blocks<T>(all: &[T], size: usize, blocks: usize) -> Option<&[T]>
    ensures short { IsNone result ↔ (length all.now < size * blocks) }
    ensures front { IfSome result (λ front. front.now ≡ take (size * blocks) all.now) }
{
    all.get(..size.checked_mul(blocks)?)
}

// Blocks of an ERLE estimator. Each has one flag for each channel, 65 render numbers, and 65 capture and 65 residual numbers for each
// channel.
#[derive(Clone, Copy, Debug)]
pub struct Blocks<'a> {
    pub num_capture_channels: usize,
    pub flags: &'a [bool],
    pub render: &'a [f32],
    pub capture: &'a [f32],
    pub residual: &'a [f32],
    ghost some_channels: { 0 < num_capture_channels },
    ghost few_channels: { num_capture_channels ≤ 4 },
}

impl<'a> Blocks<'a> {
    // None where the channels are too few or too many, or a slice is too short for so many blocks. Its parameters are those of the C functions.
    pub fn new(
        num_capture_channels: usize,
        flags: &'a [bool],
        render: &'a [f32],
        capture: &'a [f32],
        residual: &'a [f32],
        blocks: usize,
    ) -> Option<Blocks<'a>>
        ensures room { IsSome result ↔ ((0 < num_capture_channels) × Room num_capture_channels blocks (length flags.now) (length render.now) (length capture.now) (length residual.now)) }
        ensures channels { IfSome result (λ lists. lists.num_capture_channels ≡ num_capture_channels) }
        ensures flags { IfSome result (λ lists. lists.flags.now ≡ take (num_capture_channels * blocks) flags.now) }
        ensures render { IfSome result (λ lists. lists.render.now ≡ take (65 * blocks) render.now) }
        ensures capture { IfSome result (λ lists. lists.capture.now ≡ take (num_capture_channels * 65 * blocks) capture.now) }
        ensures residual { IfSome result (λ lists. lists.residual.now ≡ take (num_capture_channels * 65 * blocks) residual.now) }
    {
        if !capture_channels_ok(num_capture_channels) {
            return None;
        }
        let numbers = num_capture_channels * 65;
        Some(Blocks {
            num_capture_channels,
            flags: first_blocks(flags, num_capture_channels, blocks)?,
            render: first_blocks(render, 65, blocks)?,
            capture: first_blocks(capture, numbers, blocks)?,
            residual: first_blocks(residual, numbers, blocks)?,
        })
    }
}
