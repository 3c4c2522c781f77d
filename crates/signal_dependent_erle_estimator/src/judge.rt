// Which updates are turned away.
ghost use Rattle.std.specs.Prelude.{◌≡◌, true, ◌&&◌, ◌++◌, ◌*◌, leb, eqb, length};
ghost use Rattle.aec3_common.specs.Answers.{number_of};
ghost use Rattle.aec3_common.specs.Calls.{value_refusal};
ghost use Rattle.aec3_common.specs.Refusal.{unless, bad_length};
ghost use Rattle.std.specs.List.{list_all};
ghost use Rattle.section_echoes.specs.Packed.{total};
ghost use Rattle.section_echoes.specs.Walk.{slot_length};
ghost use Rattle.signal_dependent_erle_estimator.specs.Steps.{form_refusal};
ghost use Rattle.signal_dependent_erle_estimator.specs.SignalDependent.{update_of, slots_reach, ring_refusal, responses_ok, lent_lengths_ok, lent_values, refusal_beside, refusal_of};

use crate::settings::SignalDependentSettings;
use crate::{Averages, Inputs};
use aec3_common::block::judge_values;
use aec3_common::refusal::lesser;
use aec3_common::settings::{headroom_blocks, render_channels_ok};
use aec3_common::spectra::are_spectra;
use aec3_common::{Refusal, judge as numbers};
use section_echoes::{FilterResponses, RenderBuffer, RenderRing};
use spectrum_buffer::slots_ok;

// Number 4: the slots are in their range, and the headroom blocks are not above them.
fn slots_reach(slots: usize, headroom: usize) -> bool
    ensures { result ≡ slots_reach slots headroom }
{
    slots_ok(slots) & (headroom <= slots)
}

// The first of 2, 4 and 9 that a ring breaks.
#[tactic(auto, unfolding(crate::specs::SignalDependent::ring_refusal))]
pub fn judge_ring(ring: RenderRing, headroom: usize) -> Result<(), Refusal>
    ensures { number_of result ≡ ring_refusal headroom ring }
{
    if !render_channels_ok(ring.channels) {
        return Err(Refusal::BadChannelCount);
    }
    if !slots_reach(ring.slots, headroom) {
        return Err(Refusal::BadRing);
    }
    if ring.position >= ring.slots {
        return Err(Refusal::BadPlace);
    }
    Ok(())
}

fn counts_ok(counts: &[usize], filter_length: usize) -> bool
    ensures { result ≡ list_all (λ n. leb n filter_length) counts.now }
{
    counts.iter().all(|&n| n <= filter_length)
}

// Whether the counts add up to so many blocks. Their sum could wrap, and is not made.
fn add_up_to(blocks: usize, counts: &[usize]) -> bool
    ensures { result ≡ eqb blocks (total counts.now) }
{
    let mut left = blocks;
    for &count in counts {
        let Some(rest) = left.checked_sub(count) else {
            return false;
        };
        left = rest;
    }
    left == 0
}

// Number 5, of the responses.
fn responses_ok(channels: usize, filter_length: usize, responses: &FilterResponses) -> bool
    ensures { result ≡ responses_ok channels filter_length responses.now.blocks.now responses.now.responses.now }
{
    (responses.blocks.len() == channels)
        & counts_ok(responses.blocks, filter_length)
        & (responses.responses.len() % 65 == 0)
        & add_up_to(responses.responses.len() / 65, responses.blocks)
}

// Number 5, of the spectra of a ring. A product that would wrap is more than there are.
fn spectra_ok(render: &RenderBuffer) -> bool
    ensures { result ≡ eqb (length render.now.spectra.now) (render.now.ring.slots * slot_length render.now.ring.channels) }
{
    let spectra = render.ring.slots.checked_mul(render.ring.channels);
    spectra.is_some_and(|n| are_spectra(render.spectra.len(), n))
}

impl Averages<'_> {
    // Number 5, of the two streams.
    fn lengths_ok(&self, channels: usize) -> bool
        ensures { result ≡ eqb (length self.now.plain.now) (channels * 65) && eqb (length self.now.compensated.now) (channels * 65) }
    {
        are_spectra(self.plain.len(), channels) & are_spectra(self.compensated.len(), channels)
    }

    // Number 6, of their values.
    #[tactic(auto, using(aec3_common::proofs::Values::value_refusal_append))]
    fn judge_values(&self) -> Result<(), Refusal>
        ensures { number_of result ≡ value_refusal (self.now.plain.now ++ self.now.compensated.now) }
    {
        lesser(judge_values(self.plain), judge_values(self.compensated))
    }

    // The first of 5 and 6.
    fn judge(&self, channels: usize) -> Result<(), Refusal>
        ensures { number_of result ≡ unless (eqb (length self.now.plain.now) (channels * 65) && eqb (length self.now.compensated.now) (channels * 65)) bad_length (value_refusal (self.now.plain.now ++ self.now.compensated.now)) }
    {
        if !self.lengths_ok(channels) {
            return Err(Refusal::BadLength);
        }
        self.judge_values()
    }
}

impl Inputs<'_> {
    // Number 5.
    #[tactic(auto, unfolding(crate::specs::SignalDependent::lent_lengths_ok))]
    fn lengths_ok(&self, filter_length: usize) -> bool
        ensures { result ≡ lent_lengths_ok filter_length (update_of self.now) }
    {
        self.block.lengths_ok()
            & spectra_ok(&self.render)
            & responses_ok(
                self.block.num_capture_channels,
                filter_length,
                &self.responses,
            )
    }

    // Number 6.
    #[tactic(auto, using(aec3_common::proofs::Values::value_refusal_append), unfolding(crate::specs::SignalDependent::lent_values))]
    fn judge_values(&self) -> Result<(), Refusal>
        ensures { number_of result ≡ value_refusal (lent_values (update_of self.now)) }
    {
        let powers = lesser(self.block.judge_values(), judge_values(self.render.spectra));
        lesser(powers, judge_values(self.responses.responses))
    }

    // The first of 20, 21, 2, 4, 9 and 5, where it is known whether number 20 lets the state pass.
    fn judge_form(&self, state_ok: bool, settings: SignalDependentSettings) -> Result<(), Refusal>
        ensures { number_of result ≡ form_refusal state_ok settings (update_of self.now) }
    {
        if !state_ok {
            return Err(Refusal::BadState);
        }
        if self.block.num_capture_channels != settings.num_capture_channels {
            return Err(Refusal::OtherChannelCount);
        }
        judge_ring(
            self.render.ring,
            headroom_blocks(settings.layout.delay_headroom_samples),
        )?;
        if !self.lengths_ok(settings.layout.filter_length_blocks) {
            return Err(Refusal::BadLength);
        }
        Ok(())
    }

    // The first of 20, 21, 2, 4, 9, 5 and 6; and what 5 and 6 say of what the caller is lent besides.
    pub fn judge_beside(
        &self,
        state_ok: bool,
        settings: SignalDependentSettings,
        others: Result<(), Refusal>,
    ) -> Result<(), Refusal>
        ensures { number_of result ≡ refusal_beside state_ok settings (update_of self.now) true (number_of others) }
    {
        self.judge_form(state_ok, settings)?;
        lesser(self.judge_values(), others)
    }

    // The same as a number, for a caller that tells whether 5 lets pass what it is lent besides, and under which number, if any, the values
    // of that are turned away.
    pub fn refusal_beside(
        &self,
        state_ok: bool,
        settings: SignalDependentSettings,
        others_lengths_ok: bool,
        others_refused: u32,
    ) -> u32
        ensures { result ≡ refusal_beside state_ok settings (update_of self.now) others_lengths_ok others_refused }
    {
        if let Err(refusal) = self.judge_form(state_ok, settings) {
            return refusal.into();
        }
        if !others_lengths_ok {
            return Refusal::BadLength.into();
        }
        match self.judge_values() {
            Ok(()) => others_refused,
            Err(refusal) => numbers::lesser(refusal.into(), others_refused),
        }
    }

    // The first of 20, 21, 2, 4, 9, 5 and 6, with two streams, where it is known whether number 20 lets the state pass.
    pub fn judge_update(
        &self,
        state_ok: bool,
        settings: SignalDependentSettings,
        averages: &Averages,
    ) -> Result<(), Refusal>
        ensures { number_of result ≡ refusal_of state_ok settings (update_of self.now) averages.now.plain.now averages.now.compensated.now }
    {
        self.judge_beside(
            state_ok,
            settings,
            averages.judge(self.block.num_capture_channels),
        )
    }
}
