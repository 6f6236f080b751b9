// cost: prints what the recipe in standard input costs at the prices in it, in cents, or the refusal's row as list prints it.
#![tactic(auto)]

use programs::Program;
use std::process::ExitCode;

fn main(rt: HostRuntime) -> ExitCode {
    programs::run(rt.stdin(), rt.stderr(), Program::Cost)
}
