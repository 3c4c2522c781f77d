// Runs a script of library calls from standard input and writes every figure, or the number under which a call is
// turned away, to standard output. With the word `state` as its first argument it also writes what the ERLE estimator
// holds inside. It ends on every input, at a malformed record with the line `bad`.
#![tactic(auto)]

use erle_state::ErleState;
use replay_erl::{ErlLists, ReplayedErl};
use replay_erle::ReplayedErle;
use replay_leaves::replay_leaf;
use replay_signal::ReplayedSignal;
use script::{Malformed, ReadLists, Record, Standing, Text, replay_script};
use std::fmt::Write as _;
use std::rt::Env;
use update_bodies::AveragedLists;

// One estimator of each sort stands from one record to the next. Their updates are read into lists: those that the whole estimator is
// lent are a part of those that the signal-dependent one is. A word of the command line decides whether the state is shown.
#[derive(Debug, Drop)]
struct Estimators {
    erl: Standing<ReplayedErl>,
    erle: Standing<ReplayedErle>,
    signal: Standing<ReplayedSignal>,
    erl_lists: ErlLists,
    lists: AveragedLists,
    shows_state: bool,
}

impl Estimators {
    fn replay_erle(&mut self, record: Record, text: &mut Text) -> Result<(), Malformed> {
        self.erle.replay(record, &mut self.lists.lists, text)?;
        if self.shows_state
            && let Some(ReplayedErle(erle)) = &self.erle.estimator
        {
            let _ = write!(text, "{}", ErleState(erle));
        }
        Ok(())
    }

    // Each sort is asked for at this one place, so its number has no other name.
    fn replay(&mut self, record: Record, text: &mut Text) -> Result<(), Malformed> {
        match record.sort() {
            0x010 => {
                let _ = write!(text, "{}", replay_leaf(record)?);
                Ok(())
            }
            0x011 => self.erl.replay(record, &mut self.erl_lists, text),
            0x012 => self.replay_erle(record, text),
            0x014 => self.signal.replay(record, &mut self.lists, text),
            _ => Err(Malformed),
        }
    }
}

// Whether the inner state is asked for. A longer word finds no room and counts as none. `env::args` would copy every argument,
// and fail at one that is no UTF-8.
fn state_asked<E: Env>(rt: &E) -> bool {
    let mut word = [0; 5];
    match rt.arg(1, &mut word) {
        Ok(n) => &word[..n] == b"state".as_slice(),
        Err(_) => false,
    }
}

fn main(rt: HostRuntime) {
    let mut estimators = Estimators {
        erl: Standing::new(),
        erle: Standing::new(),
        signal: Standing::new(),
        erl_lists: ErlLists::none(),
        lists: AveragedLists::none(),
        shows_state: state_asked(&rt),
    };
    replay_script(
        &mut rt.stdin(),
        &mut rt.stdout(),
        |record: Record, text: &mut Text| estimators.replay(record, text),
    );
}
