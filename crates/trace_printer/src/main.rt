// Reads a trace from standard input and writes its listing to standard output.
#![tactic(auto)]

use std::process::ExitCode;
use streaming::tell;
use trace::print_listing;

fn main(rt: HostRuntime) -> ExitCode {
    // Room for two records of the greatest length, so that large pieces are read, and for more than a hundred lines, so that large pieces
    // are written.
    let mut input = [0; 131072];
    let mut out = [0; 6144];
    match print_listing(&mut rt.stdin(), &mut rt.stdout(), &mut input, &mut out) {
        Ok(_) => ExitCode::SUCCESS,
        Err(failure) => {
            tell(&mut rt.stderr(), b"trace_printer", failure);
            ExitCode::FAILURE
        }
    }
}
