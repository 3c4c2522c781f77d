// One channel's record: its instantaneous ERLE, its figure and its hold.
ghost use Rattle.std.specs.Prelude.{◌≡◌, cond, length};
ghost use Rattle.aec3_common.specs.Spectra.{sum};
ghost use Rattle.fullband_channel.specs.Instantaneous.{HasRoom};
ghost use Rattle.fullband_channel.specs.Channel.{channel_ok, fresh_channel, with_point, one_block_less};

use crate::instantaneous::{ErleInstantaneous, OptionalNumber, POINTS_TO_ACCUMULATE, PowerSums};
use aec3_common::binary32::{GREATEST_SUM, is_within};
use aec3_common::counts::fallen;
use aec3_common::{larger, moved};

const BLOCKS_TO_HOLD_ERLE: i32 = 100;

#[derive(Clone, Copy, Debug, PartialEq)]
pub struct FullBandChannel {
    pub instantaneous_erle: ErleInstantaneous,
    pub erle_time_domain_log2: f32,
    pub hold_counter_time_domain: i32,
}

// The capture and the residual power of a block, each added up over all bands in order, beginning at plus zero. One walk for
// both: the sums do not wait for each other, as two walks would.
fn power_sums(y2: &[f32], e2: &[f32]) -> PowerSums
    requires { length y2.now ≡ length e2.now }
    ensures { result ≡ (record { y2 = sum y2.now; e2 = sum e2.now }) }
{
    let none = PowerSums { y2: 0.0, e2: 0.0 };
    // Cut to one length, which the two have: where they may differ, each step asks after both.
    let e2 = &e2[..y2.len()];
    y2.iter().zip(e2).fold(
        none,
        |sums, (&y2, &e2)| PowerSums {
            y2: sums.y2 + y2,
            e2: sums.e2 + e2,
        },
    )
}

impl FullBandChannel {
    #[tactic(auto, unfolding(crate::specs::Channel::fresh_channel))]
    pub fn new(min_erle_log2: f32) -> FullBandChannel
        ensures { result ≡ fresh_channel min_erle_log2 }
    {
        FullBandChannel {
            instantaneous_erle: ErleInstantaneous::new(),
            erle_time_domain_log2: min_erle_log2,
            hold_counter_time_domain: 0,
        }
    }

    // Whether number 20 lets the record pass.
    #[tactic(auto, unfolding(crate::specs::Channel::channel_ok))]
    pub fn ok(&self) -> bool
        ensures { result ≡ channel_ok self.now }
    {
        let inst = self.instantaneous_erle;
        (inst.num_points < POINTS_TO_ACCUMULATE)
            & is_within(inst.y2_accum, GREATEST_SUM)
            & is_within(inst.e2_accum, GREATEST_SUM)
    }

    // The channel with one more point.
    #[tactic(auto, unfolding(crate::specs::Channel::with_point))]
    fn with_point(self, min_erle_log2: f32, point: PowerSums) -> FullBandChannel
        requires { HasRoom self.instantaneous_erle }
        ensures { result ≡ with_point min_erle_log2 point.y2 point.e2 self }
    {
        let held = self.instantaneous_erle.accumulate(point);
        match self.instantaneous_erle.new_erle_log2(point) {
            OptionalNumber::Number(value) => {
                let figure = moved(self.erle_time_domain_log2, value, 0.05);
                FullBandChannel {
                    instantaneous_erle: held.learnt(value),
                    erle_time_domain_log2: larger(min_erle_log2, figure),
                    hold_counter_time_domain: BLOCKS_TO_HOLD_ERLE,
                }
            }
            OptionalNumber::Absent => FullBandChannel {
                instantaneous_erle: held,
                ..self
            },
        }
    }

    // One block. A channel that is heard, being converged in a block that is loud enough, accumulates; every hold falls. Its powers
    // are slices, not arrays of 65: the project hands a channel's part of a lent slice on as a slice.
    pub fn after_block(
        self,
        min_erle_log2: f32,
        heard: bool,
        y2: &[f32],
        e2: &[f32],
    ) -> FullBandChannel
        requires room { HasRoom self.instantaneous_erle }
        requires as_long { length y2.now ≡ length e2.now }
        ensures { result ≡ cond heard (one_block_less (with_point min_erle_log2 (sum y2.now) (sum e2.now) self)) (one_block_less self) }
    {
        if heard {
            self.update(min_erle_log2, y2, e2)
        } else {
            self.decay()
        }
    }

    // One update of a channel that accumulates.
    pub fn update(self, min_erle_log2: f32, y2: &[f32], e2: &[f32]) -> FullBandChannel
        requires room { HasRoom self.instantaneous_erle }
        requires as_long { length y2.now ≡ length e2.now }
        ensures { result ≡ one_block_less (with_point min_erle_log2 (sum y2.now) (sum e2.now) self) }
    {
        let point = power_sums(y2, e2);
        self.with_point(min_erle_log2, point).decay()
    }

    // One block less to hold. In an update of a channel that does not accumulate this is all.
    #[tactic(auto, unfolding(crate::specs::Channel::one_block_less), using(crate::proofs::Holds::holds))]
    pub fn decay(mut self) -> FullBandChannel
        ensures { result ≡ one_block_less self }
    {
        let hold = fallen(self.hold_counter_time_domain);
        self.hold_counter_time_domain = hold;
        if hold == 0 {
            self.instantaneous_erle = self.instantaneous_erle.reset_accumulators();
        }
        self
    }
}
