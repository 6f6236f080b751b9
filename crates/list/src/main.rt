// list: prints the arena that load makes of standard input, or its refusal.
#![tactic(auto)]

use programs::Program;
use std::process::ExitCode;

fn main(rt: HostRuntime) -> ExitCode {
    programs::run(rt.stdin(), rt.stderr(), Program::List)
}
