// The settings of an ERLE estimator, and what turns them away.
ghost use Rattle.std.specs.Prelude.{◌≡◌};
ghost use Rattle.aec3_common.specs.Answers.{number_of};
ghost use Rattle.aec3_common.specs.Refusal.{from_to};
ghost use Rattle.aec3_common.specs.Settings.{headroom_blocks, limits_ok, capture_channels_ok, render_channels_ok, ranges_ok, sections_ok, limits_and_channels_refusal, sectioned_settings_refusal, settings_refusal};

use crate::BLOCK_SIZE;
use crate::refusal::Refusal;

// 100,000, above which no ERLE goes.
pub const GREATEST_ERLE: f32 = 100_000.0;

pub const MAX_CAPTURE_CHANNELS: usize = 4;

pub const MAX_RENDER_CHANNELS: usize = 2;

pub const MAX_SECTIONS: usize = 8;

pub const MAX_FILTER_LENGTH_BLOCKS: usize = 16;

pub const MAX_HEADROOM_SAMPLES: usize = 1024;

// The limits of an ERLE: the minimum, and the maxima of the lower and the upper bands.
#[derive(Clone, Copy, Debug)]
pub struct ErleLimits {
    pub min: f32,
    pub max_l: f32,
    pub max_h: f32,
}

// How the adaptive filter is cut: its sections, its length in blocks, and the headroom before it in samples.
#[derive(Clone, Copy, Debug)]
pub struct FilterLayout {
    pub num_sections: usize,
    pub filter_length_blocks: usize,
    pub delay_headroom_samples: usize,
}

#[derive(Clone, Copy, Debug)]
pub struct ErleSettings {
    pub limits: ErleLimits,
    pub onset_detection: bool,
    pub num_capture_channels: usize,
    pub layout: FilterLayout,
    pub clamp_quality_estimate_to_zero: bool,
    pub clamp_quality_estimate_to_one: bool,
}

// Whether n lies in lo to hi.
fn from_to(lo: usize, hi: usize, n: usize) -> bool
    ensures { result ≡ from_to lo hi n }
{
    (lo..=hi).contains(&n)
}

// Headroom samples as whole blocks.
pub fn headroom_blocks(samples: usize) -> usize
    ensures { result ≡ headroom_blocks samples }
{
    samples / BLOCK_SIZE
}

impl ErleLimits {
    // Number 1: 1 <= min <= max_l, max_h <= 100,000; a NaN breaks it.
    pub fn ok(self) -> bool
        ensures { result ≡ limits_ok self.min self.max_l self.max_h }
    {
        (1.0 <= self.min)
            & (self.min <= self.max_l)
            & (self.min <= self.max_h)
            & (self.max_l <= GREATEST_ERLE)
            & (self.max_h <= GREATEST_ERLE)
    }
}

// Number 2, of capture channels.
pub fn capture_channels_ok(n: usize) -> bool
    ensures { result ≡ capture_channels_ok n }
{
    from_to(1, MAX_CAPTURE_CHANNELS, n)
}

// Number 2, of render channels.
pub fn render_channels_ok(n: usize) -> bool
    ensures { result ≡ render_channels_ok n }
{
    from_to(1, MAX_RENDER_CHANNELS, n)
}

impl FilterLayout {
    fn ranges_ok(self) -> bool
        ensures { result ≡ ranges_ok self.num_sections self.filter_length_blocks self.delay_headroom_samples }
    {
        from_to(1, MAX_SECTIONS, self.num_sections)
            & from_to(1, MAX_FILTER_LENGTH_BLOCKS, self.filter_length_blocks)
            & (self.delay_headroom_samples <= MAX_HEADROOM_SAMPLES)
    }

    // Number 3. The sum is made only where it cannot wrap.
    #[tactic(auto, unfolding(crate::specs::Settings::sections_ok))]
    pub fn ok(self) -> bool
        ensures { result ≡ sections_ok self.num_sections self.filter_length_blocks self.delay_headroom_samples }
    {
        let headroom = headroom_blocks(self.delay_headroom_samples);
        self.ranges_ok()
            && ((self.num_sections <= 1)
                | (self.num_sections + headroom <= self.filter_length_blocks))
    }
}

// The first of 1 and 2.
#[tactic(auto, unfolding(crate::specs::Settings::limits_and_channels_refusal))]
pub fn judge_limits_and_channels(
    limits: ErleLimits,
    num_capture_channels: usize,
) -> Result<(), Refusal>
    ensures { number_of result ≡ limits_and_channels_refusal limits.min limits.max_l limits.max_h num_capture_channels }
{
    if !limits.ok() {
        return Err(Refusal::BadLimits);
    }
    if !capture_channels_ok(num_capture_channels) {
        return Err(Refusal::BadChannelCount);
    }
    Ok(())
}

// The first of 1, 2 and 3.
#[tactic(auto, unfolding(crate::specs::Settings::sectioned_settings_refusal))]
pub fn judge_sectioned_settings(
    limits: ErleLimits,
    num_capture_channels: usize,
    layout: FilterLayout,
) -> Result<(), Refusal>
    ensures { number_of result ≡ sectioned_settings_refusal limits.min limits.max_l limits.max_h num_capture_channels layout.num_sections layout.filter_length_blocks layout.delay_headroom_samples }
{
    judge_limits_and_channels(limits, num_capture_channels)?;
    if !layout.ok() {
        return Err(Refusal::BadSections);
    }
    Ok(())
}

impl ErleSettings {
    // The first of 1, 2 and 3 that the settings break.
    #[tactic(auto, unfolding(crate::specs::Settings::settings_refusal))]
    pub fn judge(self) -> Result<(), Refusal>
        ensures { number_of result ≡ settings_refusal self }
    {
        judge_sectioned_settings(self.limits, self.num_capture_channels, self.layout)
    }
}
