// list_all: prints the arena that load makes of each of the dumps that stand one after the other in standard input, up to the
// first that is refused, whose refusal it prints.
#![tactic(auto)]

use programs::Program;
use std::process::ExitCode;

fn main(rt: HostRuntime) -> ExitCode {
    programs::run(rt.stdin(), rt.stderr(), Program::ListAll)
}
