// The rounds over the blocks that a driver lends.
ghost use Rattle.speed.specs.Runs.{StepsTo, StepAt, block_count};

use crate::blocks::Blocks;
use aec3_common::Block;

impl Blocks<'_> {
    // What a step makes of an estimator, block by block. The step is told which block it is.
    fn round<E, F: Fn(&mut E, usize, &Block)>(&self, estimator: &mut E, step: &F)
        requires { F.IsAlwaysCallable step.now }
        ensures { StepsTo (StepAt (F.post step.now) self.now) (block_count self.now) estimator.old estimator.new }
    {
        let numbers = self.num_capture_channels * 65;
        let powers = self
            .capture
            .chunks_exact(numbers)
            .zip(self.residual.chunks_exact(numbers));
        let lists = self
            .flags
            .chunks_exact(self.num_capture_channels)
            .zip(self.render.chunks_exact(65))
            .zip(powers);
        for (index, ((converged_filters, x2), (y2, e2))) in lists.enumerate() {
            let block = Block {
                num_capture_channels: self.num_capture_channels,
                converged_filters,
                x2,
                y2,
                e2,
            };
            step(estimator, index, &block);
        }
    }

    // So many rounds over all blocks. A step is lent the estimator: by value its state would be copied twice more for each block, and the
    // copies timed.
    pub fn run<E, F: Fn(&mut E, usize, &Block)>(&self, start: E, rounds: usize, step: F) -> E
        requires { F.IsAlwaysCallable step }
        ensures { StepsTo (λ e _ e'. StepsTo (StepAt (F.post step) self.now) (block_count self.now) e e') rounds start result }
    {
        let mut estimator = start;
        for _ in 0..rounds {
            self.round(&mut estimator, &step);
        }
        estimator
    }
}
