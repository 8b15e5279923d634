// Replays the schedule on standard input and writes its answers to standard output (document 01, "The replay program").
#![tactic(auto)]

use std::process::ExitCode;

fn main(rt: HostRuntime) -> ExitCode {
    let mut input = rt.stdin();
    let mut output = rt.stdout();
    let mut errors = rt.stderr();
    let told = replay_program::run_program(false, &mut input, &mut output, &mut errors);
    told.code
}
