// The programs over standard input, and what each writes for an input.
#![tactic(auto)]

use console::{LONGEST, Output, Tables, read_input, write_refusal};
use costing::write_cost;
use listing::{write_listing, write_listings};
use redumping::write_redump;
use std::fmt;
use std::fmt::Write;
use std::io::{Error, Print, Stderr, Stdin};
use std::process::ExitCode;

#[derive(Clone, Copy)]
pub enum Program {
    List,
    ListAll,
    Redump,
    Form,
    Cost,
}

impl Program {
    fn name(self) -> &'static str {
        match self {
            Program::List => "list",
            Program::ListAll => "list_all",
            Program::Redump => "redump",
            Program::Form => "form",
            Program::Cost => "cost",
        }
    }

    // What the program writes for an input.
    pub fn write(self, out: &mut Output<'_>, input: &[u8]) -> fmt::Result {
        match self {
            Program::List => write_listing(out, input),
            Program::ListAll => write_listings(out, input),
            Program::Redump => write_redump(out, input),
            Program::Form => write_form(out, input),
            Program::Cost => write_cost(out, input),
        }
    }
}

// Whether dump writes what load used, or load's refusal: a row.
fn write_form(out: &mut Output<'_>, input: &[u8]) -> fmt::Result {
    let mut tables = Tables::new();
    match tables.load(input) {
        Ok(loaded) => out.write_str(if loaded.form { "yes\n" } else { "no\n" }),
        Err(q) => write_refusal(out, q),
    }
}

// A program's output for an input, written.
fn write_output(program: Program, input: &[u8]) -> fmt::Result {
    let mut buffer = io::buffer();
    let mut out = Output::new(&mut buffer);
    program.write(&mut out, input)?;
    out.flush()
}

// What failed, and why: a line on standard error.
fn failed(stderr: Stderr, program: Program, what: &str, why: Error) -> ExitCode {
    let _ = stderr.println(format_args!("{}: standard {what}: {why}", program.name()));
    ExitCode::FAILURE
}

// A program over standard input.
pub fn run(stdin: Stdin, stderr: Stderr, program: Program) -> ExitCode {
    let mut input = [0u8; LONGEST + 1];
    match read_input(stdin, &mut input) {
        Ok(n) => match write_output(program, &input[..n]) {
            Ok(()) => ExitCode::SUCCESS,
            Err(_) => failed(stderr, program, "output", Error::other("not written")),
        },
        Err(e) => failed(stderr, program, "input", e),
    }
}
