// What the programs over an input share: their tables, reading the input and loading it, and text for standard output.
#![tactic(auto)]

ghost use Rattle.std.specs.Prelude.{◌≡◌, ◌≤◌, length, replicate, IfOk};
ghost use Rattle.definition.specs.Load.{lists};
ghost use Rattle.console.specs.Call.{input_answer, input_call};

use definition::{Loaded, Node, Refusal, Slice};
use load::load;
use refusal::numbers_of;
use std::fmt;
use std::fmt::Write;
use std::io::{Read, Result as IoResult, Stdin};

// The longest input that is taken.
pub const LONGEST: usize = 16384;

// The entries of the tables that the programs lend; NUMBERED those of the lists of symbols and objects, and of scratch.
pub const NODES: usize = 1000 * Node::WIDTH;

pub const REFERENCES: usize = 4000;

pub const BYTES: usize = 16384;

pub const NUMBERED: usize = 1000;

// The level limit of load and dump.
pub const LIMIT: u32 = 64;

// A column's width, the least number that is wider, and an empty column.
const COLUMN: usize = 11;

const WIDE: u64 = 100000000000;

const SPACES: [u8; COLUMN] = [b' '; COLUMN];

// ---- text for standard output

// Text, in a lent buffer that is written when it is full.
#[derive(Drop)]
pub struct Output<'a> {
    buffer: &'a mut [u8],
    length: usize,
}

impl<'a> Output<'a> {
    pub fn new(buffer: &'a mut [u8]) -> Output<'a>
        ensures { result.length ≡ 0 }
    {
        Output { buffer, length: 0 }
    }

    // Writes what the buffer holds, and empties it.
    pub fn flush(&mut self) -> fmt::Result
        ensures { self.new.length ≡ 0 }
    {
        let n = self.length;
        self.length = 0;
        if n <= self.buffer.len() && io::write_all(1, &self.buffer[..n]) {
            return Ok(());
        }
        Err(fmt::Error)
    }

    fn put(&mut self, b: u8) -> fmt::Result {
        if self.buffer.len() <= self.length {
            self.flush()?;
        }
        let at = self.length;
        if at < self.buffer.len() {
            self.buffer[at] = b;
            self.length = at + 1;
        }
        Ok(())
    }

    // Text that does not fit into what is left of the buffer.
    #[inline(never)]
    fn put_past(&mut self, text: &[u8]) -> fmt::Result {
        for b in text {
            self.put(*b)?;
        }
        Ok(())
    }

    // Text that fits, as most does, is copied at once: put byte by byte a listing takes twice as long.
    pub fn put_all(&mut self, text: &[u8]) -> fmt::Result {
        let at = self.length;
        if at <= self.buffer.len() && text.len() <= self.buffer.len() - at {
            let end = at + text.len();
            self.buffer[at..end].copy_from_slice(text);
            self.length = end;
            return Ok(());
        }
        self.put_past(text)
    }

    // A number in a column, as `{:>11}` writes it. By that a listing takes up to three times as long.
    pub fn put_number(&mut self, n: u64) -> fmt::Result {
        let at = self.length;
        if n < WIDE && at <= self.buffer.len() && COLUMN <= self.buffer.len() - at {
            let end = at + COLUMN;
            let column = &mut self.buffer[at..end];
            column.copy_from_slice(&SPACES);
            let mut rest = n;
            for place in column.iter_mut().rev() {
                *place = b'0' + (rest % 10) as u8;
                rest /= 10;
                if rest == 0 {
                    break;
                }
            }
            self.length = end;
            return Ok(());
        }
        write!(self, "{n:>11}")
    }
}

impl Write for Output<'_> {
    fn write_str(&mut self, s: &str) -> fmt::Result {
        self.put_all(s.as_bytes())
    }
}

// A refusal's row: its number and two details.
pub fn write_refusal(out: &mut Output<'_>, q: Refusal) -> fmt::Result {
    let n = numbers_of(q);
    writeln!(out, "{:>11}{:>11}{:>11}", n.number, n.first, n.second)
}

// ---- the input

// Standard input, as far as it goes into the buffer: how many bytes.
pub fn read_input(stdin: Stdin, input: &mut [u8]) -> IoResult<usize>
    ensures { IfOk result (λ n. n ≤ length input.new) }
{
    let mut from = stdin;
    let mut at = 0;
    // a `while`: each read says how far it went
    while at < input.len() {
        let n = from.read(&mut input[at..])?;
        if n == 0 {
            break;
        }
        at += n;
    }
    Ok(at)
}

// An input loaded under the programs' limit, if it is not too long.
pub fn load_input(
    input: &[u8],
    nodes: &mut [u32],
    references: &mut [u32],
    bytes: &mut [u8],
    symbols: &mut [u32],
    objects: &mut [u32],
) -> Result<Loaded, Refusal>
    ensures answer { input_answer input.now result ≡ (input_call input.now (lists nodes.old references.old bytes.old symbols.old objects.old)).answer }
    ensures lent { lists nodes.new references.new bytes.new symbols.new objects.new ≡ (input_call input.now (lists nodes.old references.old bytes.old symbols.old objects.old)).lent }
{
    if LONGEST < input.len() {
        return Err(Refusal::NoSpace(Slice::INPUT));
    }
    load(input, nodes, references, bytes, symbols, objects, LIMIT)
}

// The tables and lists that the programs lend.
#[derive(Drop)]
pub struct Tables {
    pub nodes: [u32; NODES],
    pub references: [u32; REFERENCES],
    pub bytes: [u8; BYTES],
    pub symbols: [u32; NUMBERED],
    pub objects: [u32; NUMBERED],
}

impl Tables {
    pub fn new() -> Tables
        ensures { lists result.nodes result.references result.bytes result.symbols result.objects ≡ lists (replicate 8000 0) (replicate 4000 0) (replicate 16384 0) (replicate 1000 0) (replicate 1000 0) }
    {
        Tables {
            nodes: [0; NODES],
            references: [0; REFERENCES],
            bytes: [0; BYTES],
            symbols: [0; NUMBERED],
            objects: [0; NUMBERED],
        }
    }

    // load_input into them.
    pub fn load(&mut self, input: &[u8]) -> Result<Loaded, Refusal>
        ensures answer { input_answer input.now result ≡ (input_call input.now (lists self.old.nodes self.old.references self.old.bytes self.old.symbols self.old.objects)).answer }
        ensures lent { lists self.new.nodes self.new.references self.new.bytes self.new.symbols self.new.objects ≡ (input_call input.now (lists self.old.nodes self.old.references self.old.bytes self.old.symbols self.old.objects)).lent }
    {
        load_input(
            input,
            &mut self.nodes,
            &mut self.references,
            &mut self.bytes,
            &mut self.symbols,
            &mut self.objects,
        )
    }
}
