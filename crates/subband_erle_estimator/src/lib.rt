// Subband ERLE: the plain, the onset-compensated and the uncapped ERLE of each band and channel.
#![tactic(auto)]

mod channel;
mod settings;

ghost use Rattle.std.specs.Prelude.{◌≡◌, List, IfOk};
ghost use Rattle.aec3_common.specs.Answers.{number_of, numbered, told};
ghost use Rattle.aec3_common.specs.Blocks.{with_block};
ghost use Rattle.aec3_common.specs.Calls.{Call};
ghost use Rattle.aec3_common.specs.Refusal.{accepted};
ghost use Rattle.subband_erle_estimator.specs.Accepted.{NeverBadState};
ghost use Rattle.subband_erle_estimator.specs.Resting.{RangeAndRest};
ghost use Rattle.subband_erle_estimator.specs.Subband.{state_ok, state_refusal, started as Subband·started, start_answer, reset_answer, update_answer};

use aec3_common::entries::change;
pub use aec3_common::streams::erle;
use aec3_common::{Answer, Block, Refusal};
pub use channel::SubbandChannel;
pub use settings::SubbandSettings;

// Records for as many channels as there can be, since nothing here is on the heap; the settings tell how many are in use.
#[derive(Clone, Copy, Debug)]
pub struct SubbandErleEstimator {
    pub settings: SubbandSettings,
    pub channels: [SubbandChannel; 4],
}

// All four records as a reset fills them.
#[tactic(auto, unfolding(crate::specs::Subband::started, aec3_common::specs::Lists::tab))]
fn started(settings: SubbandSettings) -> SubbandErleEstimator
    ensures { result ≡ Subband·started settings }
{
    let channel = SubbandChannel::new(settings.limits.min);
    let channels = [channel; 4];
    SubbandErleEstimator { settings, channels }
}

impl SubbandErleEstimator {
    // A start; 1 and 2 are turned away. Where it accepts, it promises what holds after any list of calls: every figure in its range;
    // with onset detection on, a channel at rest whose last 500 accepted calls are updates in which it stands unconverged; and no call
    // that is turned away under 20.
    #[tactic(auto, unfolding(crate::specs::Subband::start_answer))]
    pub fn new(settings: SubbandSettings) -> Result<SubbandErleEstimator, Refusal>
        ensures value { numbered result ≡ start_answer settings }
        ensures range_and_rest { (calls : List Call) → number_of result ≡ accepted → RangeAndRest settings calls }
        ensures never_bad_state { IfOk result NeverBadState }
    {
        settings.judge()?;
        Ok(started(settings))
    }

    // Whether number 20 lets the state pass. The state is lent, since one that is handed over by value is copied whole.
    fn ok(&self) -> bool
        ensures { result ≡ state_ok self.now }
    {
        self.settings.judge().is_ok()
            && self
                .channels
                .iter()
                .take(self.settings.num_capture_channels)
                .all(|channel| channel.ok())
    }

    // Number 20.
    #[tactic(auto, unfolding(crate::specs::Subband::state_refusal))]
    fn judge(&self) -> Result<(), Refusal>
        ensures { number_of result ≡ state_refusal self.now }
    {
        if self.ok() {
            Ok(())
        } else {
            Err(Refusal::BadState)
        }
    }

    // Each record by its own `reset`: a record's update, decay and reset are methods that take it and give the next one back.
    fn all_reset(mut self) -> SubbandErleEstimator
        ensures { result ≡ Subband·started self.settings }
    {
        let min = self.settings.limits.min;
        change(&mut self.channels, 0, 4, |_, channel| channel.reset(min));
        self
    }

    // Every record as after a start. 20 is turned away.
    #[tactic(auto, unfolding(crate::specs::Subband::reset_answer))]
    pub fn reset(self) -> Answer<SubbandErleEstimator>
        ensures { told result ≡ reset_answer self }
    {
        let outcome = self.judge();
        let state = if outcome.is_ok() {
            self.all_reset()
        } else {
            self
        };
        Answer { state, outcome }
    }

    // One block. 20, 21, 5 and 6 are turned away.
    pub fn update(mut self, block: &Block) -> Answer<SubbandErleEstimator>
        ensures { told result ≡ with_block (update_answer self) block.now }
    {
        let settings = self.settings;
        let count = settings.num_capture_channels;
        let outcome = block.judge(self.ok(), count);
        if outcome.is_ok() {
            // Each record is changed where it stands. `change` hands it over by value: copied out and back, each channel took 700 instructions more.
            for ch in 0..count {
                self.channels[ch].step_in_place(
                    settings,
                    block.converged_filters[ch],
                    block.x2,
                    block.own_y2(ch),
                    block.own_e2(ch),
                );
            }
        }
        Answer {
            state: self,
            outcome,
        }
    }
}
