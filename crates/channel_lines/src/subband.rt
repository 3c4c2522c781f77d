// The inner state of a subband channel.
use crate::ChannelState;
use script::{Digits, Figures, Numbers};
use std::fmt;
use subband_erle_estimator::SubbandChannel;

// What a channel holds besides its streams.
impl fmt::Display for ChannelState<'_, SubbandChannel> {
    fn fmt<W: fmt::Write>(&self, f: &mut fmt::Formatter<W>) -> fmt::Result {
        let c = self.index;
        let channel = self.channel;
        writeln!(f, "points {c} {}", channel.num_points)?;
        writeln!(f, "y2sum {c}{}", Figures(&channel.y2))?;
        writeln!(f, "e2sum {c}{}", Figures(&channel.e2))?;
        writeln!(f, "low {c} {}", Digits(&channel.low_render_energy))?;
        writeln!(f, "wait {c} {}", Digits(&channel.coming_onset))?;
        writeln!(f, "hold {c}{}", Numbers(&channel.hold_counters))
    }
}
