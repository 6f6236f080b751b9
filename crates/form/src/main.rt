// form: prints yes where standard input is as dump writes it, no where it isn't, or the refusal's row as list prints it.
#![tactic(auto)]

use programs::Program;
use std::process::ExitCode;

fn main(rt: HostRuntime) -> ExitCode {
    programs::run(rt.stdin(), rt.stderr(), Program::Form)
}
