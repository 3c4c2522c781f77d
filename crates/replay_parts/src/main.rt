// Runs a script of calls to the parts of the ERLE estimator, each alone, from standard input and writes every figure, or
// the number under which a call is turned away, to standard output. It ends on every input, at a malformed record with
// the line `bad`.
#![tactic(auto)]

use replay_fullband::ReplayedFullband;
use replay_subband::ReplayedSubband;
use script::{Malformed, ReadLists, Record, Standing, Text, replay_script};
use update_bodies::BlockLists;

// One estimator of each sort stands from one record to the next, and the updates of both are read into the same lists. Each sort is asked for at this one place, so its number has no
// other name.
fn main(rt: HostRuntime) {
    let mut subband: Standing<ReplayedSubband> = Standing::new();
    let mut fullband: Standing<ReplayedFullband> = Standing::new();
    let mut lists = BlockLists::none();
    replay_script(
        &mut rt.stdin(),
        &mut rt.stdout(),
        |record: Record, text: &mut Text| match record.sort() {
            0x013 => subband.replay(record, &mut lists, text),
            0x015 => fullband.replay(record, &mut lists, text),
            _ => Err(Malformed),
        },
    );
}
