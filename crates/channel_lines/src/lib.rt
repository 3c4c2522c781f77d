// The lines that show the streams and the inner records of a channel, and what a fullband estimator answers over all channels, for
// the programs that replay a script of library calls. No function asks anything of its caller.
#![tactic(auto)]

mod fullband;
mod streams;
mod subband;

pub use fullband::FullReadings;
pub use streams::ChannelStreams;

// The inner state of a channel of any sort, and its place among an estimator's channels, which each of its lines shows.
#[derive(Clone, Copy, Debug)]
pub struct ChannelState<'a, C> {
    pub index: usize,
    pub channel: &'a C,
}
