// Counts, over the schedules on standard input, in which way each enter finished, and writes the report to standard output (document 02, L4).
#![tactic(auto)]

use std::process::ExitCode;

fn main(rt: HostRuntime) -> ExitCode {
    let mut input = rt.stdin();
    let mut output = rt.stdout();
    let mut errors = rt.stderr();
    let told = replay_program::run_program(true, &mut input, &mut output, &mut errors);
    told.code
}
