// What makes a text of the bytes that it is fed, and the loop that feeds it.
ghost use Rattle.std.specs.Prelude.{◌≡◌, ◌≢◌, ℕ, ◌≤◌, List, length, IfSome, IfErr, OnOk};
ghost use Rattle.std.specs.Io.KnownBytes.{Appends};
ghost use Rattle.streaming.specs.declared.failure.Failure.TheVariants.{NoRoom, Read as Failure·Read};
ghost use Rattle.streaming.specs.Feeding.{most_held, Feeds, Begun};

use crate::failure::Failure;
use crate::reading::{Held, read_on, write_out};
use std::io::{Read, Write};

// Why feeding stopped: more bytes are wanted, or more room; or nothing is to be written any more, whatever follows.
#[derive(Clone, Copy, Debug, PartialEq, Eq)]
pub enum Stop {
    WantsBytes,
    WantsRoom,
    Done,
}

// How many bytes are done with, the place where the next text goes, and why it stopped.
#[derive(Clone, Copy, Debug, PartialEq, Eq)]
pub struct Fed {
    pub used: usize,
    pub at: usize,
    pub stop: Stop,
}

pub trait Transducer {
    // the text of an input
    ghost whole: { List ℕ → List ℕ };

    // the size of a table that has room for each part of a text that is written in one
    ghost least: { ℕ };

    // what is yet to be written, of an input of which these bytes are left
    ghost ahead: { Self → List ℕ → List ℕ };

    // what holds of each state that a run comes to
    ghost sound: { Self → Type 0 };

    fn start() -> Self
        ensures sound { sound result }
        ensures ahead { (s : List ℕ) → ahead result s ≡ whole s };

    // It is told whether the input ends with these bytes.
    fn feed(&mut self, input: &[u8], ended: bool, out: &mut [u8], at: usize) -> Fed
        ensures { sound self.old → at ≤ length out.old → Feeds least ahead sound self.old self.new input.now ended out.old out.new at result };
}

// Writes the text of all that a reader gives. The tables are lent: one for the bytes that are read and not done with, one for the text
// that is not written out yet. The turns are a number that no run uses up, since nothing says that an input ends.
pub fn run<T: Transducer + Drop, R: Read, W: Write>(
    reader: &mut R,
    writer: &mut W,
    input: &mut [u8],
    out: &mut [u8],
) -> Result<(), Failure>
    ensures whole { OnOk result (IfSome (R.remaining reader.old) (λ bytes. Appends (W.contents writer.old) (W.contents writer.new) (T.whole bytes))) }
    ensures begun { IfErr result (λ e. e ≡ Failure·Read → IfSome (R.remaining reader.old) (Begun (R.remaining reader.new) (W.contents writer.old) (W.contents writer.new) T.whole)) }
    ensures room { most_held ≤ length input.old → T.least ≤ length out.old → IfErr result (λ e. e ≢ NoRoom) }
{
    let mut job = T::start();
    let mut held = Held {
        from: 0,
        to: 0,
        ended: false,
    };
    for _ in 0..u64::MAX {
        let fed = job.feed(&input[held.from..held.to], held.ended, out, 0);
        write_out(writer, &out[..fed.at])?;
        held.from += fed.used;
        match fed.stop {
            Stop::Done => return Ok(()),
            Stop::WantsRoom => {
                if fed.at == 0 {
                    return Err(Failure::NoRoom);
                }
            }
            Stop::WantsBytes => {
                if held.ended {
                    return Ok(());
                }
                held = read_on(reader, input, held)?;
            }
        }
    }
    Err(Failure::Endless)
}
