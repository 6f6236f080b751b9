// redump: loads standard input and writes its dump, or the row of the refusal as list prints it.
#![tactic(auto)]

use programs::Program;
use std::process::ExitCode;

fn main(rt: HostRuntime) -> ExitCode {
    programs::run(rt.stdin(), rt.stderr(), Program::Redump)
}
