// Signal-dependent ERLE: the subband estimator's streams, corrected by how far into the filter the echo reaches.
#![tactic(auto)]

mod channel;
pub mod judge;
mod sections;
mod settings;

ghost use Rattle.std.specs.Prelude.{◌≡◌, ◌≤◌, IfOk};
ghost use Rattle.aec3_common.specs.Answers.{number_of, numbered, told};
ghost use Rattle.aec3_common.specs.Refusal.{accepted};
ghost use Rattle.signal_dependent_erle_estimator.specs.Range.{FiguresInRange};
ghost use Rattle.signal_dependent_erle_estimator.specs.Runs.{NeverBadState};
ghost use Rattle.signal_dependent_erle_estimator.specs.SignalDependent.{update_of, same_first, boundaries_of, settings_pass, state_ok, state_refusal, started as SignalDependent·started, start_answer, reset_answer, update_refusal, after_accepted, update_answer};

use aec3_common::entries::change;
use aec3_common::spectra::part;
pub use aec3_common::streams::erle;
use aec3_common::{Answer, Block, Refusal};
pub use channel::{ChannelBlock, SignalDependentChannel};
use correction_factors::subband_sums;
use filter_sections::section_boundaries;
pub use section_echoes::{FilterResponses, RenderBuffer, RenderRing};
pub use sections::active_sections;
pub use settings::SignalDependentSettings;

#[derive(Clone, Copy, Debug)]
pub struct SignalDependentErleEstimator {
    pub settings: SignalDependentSettings,
    pub section_boundaries_blocks: [usize; 9],
    pub channels: [SignalDependentChannel; 4],
}

// One block as a call lends it: the ring of render spectra and the responses of the adaptive filter, which make the echoes, and the powers and flags.
#[derive(Clone, Copy, Debug)]
pub struct Inputs<'a> {
    pub render: RenderBuffer<'a>,
    pub responses: FilterResponses<'a>,
    pub block: Block<'a>,
}

// The subband estimator's two streams, of all capture channels, one behind the other, 65 numbers each.
#[derive(Clone, Copy, Debug)]
pub struct Averages<'a> {
    pub plain: &'a [f32],
    pub compensated: &'a [f32],
}

// The boundaries that settings give; zeros where number 3 turns them away.
#[tactic(auto, unfolding(crate::specs::SignalDependent::boundaries_of, aec3_common::specs::Lists::tab))]
pub fn boundaries_of(settings: SignalDependentSettings) -> [usize; 9]
    ensures { result ≡ boundaries_of settings }
{
    section_boundaries(settings.layout).unwrap_or([0; 9])
}

// Whether two tables of boundaries have the same first n.
fn same_first(n: usize, held: &[usize; 9], given: &[usize; 9]) -> bool
    requires { n ≤ 9 }
    ensures { result ≡ same_first n held.now given.now }
{
    held[..n] == given[..n]
}

// Whether the settings break none of 1, 2 and 3, and the boundaries held are those that they give.
pub fn settings_pass(settings: SignalDependentSettings, held: &[usize; 9]) -> bool
    ensures { result ≡ settings_pass settings held.now }
{
    settings.judge().is_ok()
        && same_first(
            settings.layout.num_sections + 1,
            held,
            &boundaries_of(settings),
        )
}

// All four records as a reset fills them.
#[tactic(auto, unfolding(crate::specs::SignalDependent::started, aec3_common::specs::Lists::tab))]
fn started(settings: SignalDependentSettings) -> SignalDependentErleEstimator
    ensures { result ≡ SignalDependent·started settings }
{
    SignalDependentErleEstimator {
        settings,
        section_boundaries_blocks: boundaries_of(settings),
        channels: [SignalDependentChannel::new(settings.limits.min); 4],
    }
}

impl SignalDependentErleEstimator {
    // A start. 1, 2 and 3 are turned away. After an accepted start no later call is turned away under 20; streams, estimates, references
    // and factors stay in range.
    #[tactic(auto, unfolding(crate::specs::SignalDependent::start_answer))]
    pub fn new(settings: SignalDependentSettings) -> Result<SignalDependentErleEstimator, Refusal>
        ensures value { numbered result ≡ start_answer settings }
        ensures never_bad_state { IfOk result NeverBadState }
        ensures figures_in_range { IfOk result (FiguresInRange settings) }
    {
        settings.judge()?;
        Ok(started(settings))
    }

    // Whether number 20 lets the state pass. The state is lent, since one that is handed over by value is copied whole.
    #[tactic(auto, unfolding(crate::specs::SignalDependent::state_ok))]
    fn ok(&self) -> bool
        ensures { result ≡ state_ok self.now }
    {
        if !settings_pass(self.settings, &self.section_boundaries_blocks) {
            return false;
        }
        let sections = self.settings.layout.num_sections as u32;
        self.channels
            .iter()
            .take(self.settings.num_capture_channels)
            .all(|channel| channel.ok(sections))
    }

    // Number 20.
    #[tactic(auto, unfolding(crate::specs::SignalDependent::state_refusal))]
    fn judge(&self) -> Result<(), Refusal>
        ensures { number_of result ≡ state_refusal self.now }
    {
        if self.ok() {
            Ok(())
        } else {
            Err(Refusal::BadState)
        }
    }

    // Every record as after a start. 20 is turned away.
    #[tactic(auto, unfolding(crate::specs::SignalDependent::reset_answer))]
    pub fn reset(self) -> Answer<SignalDependentErleEstimator>
        ensures { told result ≡ reset_answer self }
    {
        let outcome = self.judge();
        let state = if outcome.is_ok() {
            started(self.settings)
        } else {
            self
        };
        Answer { state, outcome }
    }

    // The inner update: a block that is accepted. With one section nothing happens; else the active sections of each channel are found, every
    // channel has these and new streams, and a converged one learns.
    fn advance(&mut self, inputs: &Inputs, averages: &Averages)
        requires { update_refusal self.old (update_of inputs.now) averages.now.plain.now averages.now.compensated.now ≡ accepted }
        ensures { self.new ≡ after_accepted self.old (update_of inputs.now) averages.now.plain.now averages.now.compensated.now }
    {
        let settings = self.settings;
        if settings.layout.num_sections > 1 {
            let boundaries = self.section_boundaries_blocks;
            let active = active_sections(settings, &boundaries, &inputs.render, &inputs.responses);
            let block = &inputs.block;
            let x2_subbands = subband_sums(block.x2);
            change(
                &mut self.channels,
                0,
                settings.num_capture_channels,
                |ch, c| {
                    let own = ChannelBlock::new(
                        block,
                        ch,
                        part(averages.plain, ch),
                        part(averages.compensated, ch),
                    );
                    c.update(settings, &active[ch], &x2_subbands, &own)
                },
            );
        }
    }

    // One block, and the subband estimator's two streams. 20, 21, 2, 4, 9, 5 and 6 are turned away. With one section it is judged and changes
    // nothing.
    #[tactic(auto, unfolding(crate::specs::SignalDependent::update_refusal, crate::specs::SignalDependent::update_answer))]
    pub fn update(
        mut self,
        inputs: &Inputs,
        averages: &Averages,
    ) -> Answer<SignalDependentErleEstimator>
        ensures { told result ≡ update_answer self (update_of inputs.now) averages.now.plain.now averages.now.compensated.now }
    {
        let outcome = inputs.judge_update(self.ok(), self.settings, averages);
        if outcome.is_ok() {
            self.advance(inputs, averages);
        }
        Answer {
            state: self,
            outcome,
        }
    }
}
