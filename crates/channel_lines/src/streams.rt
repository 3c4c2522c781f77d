// The streams of a channel, a line for each.
use script::Figures;
use std::fmt;

#[derive(Clone, Copy, Debug)]
pub struct ChannelStreams<'a> {
    pub index: usize,
    pub plain: &'a [f32],
    pub compensated: &'a [f32],
    pub unbounded: &'a [f32],
    pub onsets: &'a [f32],
}

impl fmt::Display for ChannelStreams<'_> {
    fn fmt<W: fmt::Write>(&self, f: &mut fmt::Formatter<W>) -> fmt::Result {
        let c = self.index;
        writeln!(f, "plain {c}{}", Figures(self.plain))?;
        writeln!(f, "comp {c}{}", Figures(self.compensated))?;
        writeln!(f, "unb {c}{}", Figures(self.unbounded))?;
        writeln!(f, "onsets {c}{}", Figures(self.onsets))
    }
}

#[cfg(test)]
mod tests {
    use super::*;
    use std::test::Fail;

    // A figure of a line is the figure's bits.
    #[test]
    fn shows_each_stream(rt: HostRuntime) -> Result<(), Fail> {
        let streams = ChannelStreams {
            index: 2,
            plain: &[1.0, 2.0],
            compensated: &[0.5],
            unbounded: &[4.0],
            onsets: &[],
        };
        let text = format!(in rt.alloc(); "{streams}")?;
        let lines = "plain 2 3F800000 40000000\ncomp 2 3F000000\nunb 2 40800000\nonsets 2\n";
        assert_eq!(rt; text.as_str(), lines);
        Ok(())
    }
}
