// Runs stored inputs through the programs, and writes of each the program's number as a row, what the program writes, and an
// empty row.
//
// Standard input: for each input its length in two bytes, low byte first, the program's number in two, and the input.
#![tactic(auto)]

use console::{LONGEST, Output};
use programs::Program;
use std::fmt;
use std::fmt::Write;

// The program of a number, from 1 on.
fn program_of(number: u16) -> Option<Program> {
    match number {
        1 => Some(Program::List),
        2 => Some(Program::ListAll),
        3 => Some(Program::Redump),
        4 => Some(Program::Form),
        5 => Some(Program::Cost),
        _ => None,
    }
}

fn write_case(out: &mut Output<'_>, number: u16, input: &[u8]) -> fmt::Result {
    writeln!(out, "{number:>11}")?;
    if let Some(program) = program_of(number) {
        program.write(out, input)?;
    }
    writeln!(out)
}

// The next input with its program's number, if there is one.
fn read_next(data: &mut [u8]) -> Option<(u16, &[u8])> {
    let mut head = [0u8; 4];
    if io::read_full(0, &mut head) < 4 {
        return None;
    }
    let [a, b, c, d] = head;
    let length = u16::from_le_bytes([a, b]) as usize;
    let most = length.min(data.len());
    if io::read_full(0, &mut data[..most]) < length {
        return None;
    }
    Some((u16::from_le_bytes([c, d]), &data[..most]))
}

// Each input through its program. After a write that fails they are only read.
fn write_all(out: &mut Output<'_>) -> fmt::Result {
    let mut data = [0u8; LONGEST + 1];
    let mut written = Ok(());
    for _ in 0u64..10000 {
        match read_next(&mut data) {
            Some((number, input)) => {
                if written.is_ok() {
                    written = write_case(out, number, input);
                }
            }
            None => {
                written?;
                return out.flush();
            }
        }
    }
    Ok(())
}

fn main() {
    let mut buffer = io::buffer();
    let _ = write_all(&mut Output::new(&mut buffer));
}
