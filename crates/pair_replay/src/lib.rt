// Pairs of inputs through load and then dump, as redump calls them, over junk; their dumps are equal exactly where the graphs are
// the same.
//
// A case, from word 2 on: 1 where they hold the same graph, else 0; the answer's number and two details, of both; and of the first
// input, the second, the first dump and the second the length and the byte at which it stands.
#![tactic(auto)]

use console::{NUMBERED, Tables};
use definition::Refusal;
use redumping::redump;
use replay_cases::{Case, Held, plus};

// Places in a case.
const SAME: usize = 2;

const ANSWER: usize = 3;

const INPUTS: usize = 6;

const DUMPS: usize = 10;

// The dump is that of which length and place stand from word `at` on.
fn dumped_agrees(
    case: Case<'_>,
    at: usize,
    r: Result<usize, Refusal>,
    scratch: &[u32],
    output: &[u8],
) -> bool {
    let n = case.place(at);
    let dumped = Held::Laid {
        at: case.place(plus(at, 1)),
        n,
    };
    case.answers(ANSWER, r)
        && r.unwrap_or(0) == n
        && Held::ZEROS.agrees(case, scratch)
        && dumped.agrees(case, output)
}

// An input, loaded and dumped into `output`.
fn input_agrees(case: Case<'_>, at: usize, input: &[u8], output: &mut [u8]) -> bool {
    let mut tables = Tables::new();
    let mut scratch = [0u32; NUMBERED];
    Held::Junk.set(case, &mut tables.nodes);
    Held::Junk.set(case, &mut tables.references);
    Held::Junk.set(case, &mut tables.bytes);
    Held::Junk.set(case, &mut tables.symbols);
    Held::Junk.set(case, &mut tables.objects);
    Held::Junk.set(case, &mut scratch);
    Held::Junk.set(case, output);
    let r = redump(
        input,
        &mut tables.nodes,
        &mut tables.references,
        &mut tables.bytes,
        &mut tables.symbols,
        &mut tables.objects,
        &mut scratch,
        output,
    );
    dumped_agrees(case, at, r, &scratch, output)
}

// The input and its dump whose lengths stand k words after the first ones.
fn part_agrees(case: Case<'_>, k: usize, output: &mut [u8]) -> bool {
    match case.part(plus(k, INPUTS), plus(k, INPUTS + 1)) {
        Some(input) => input_agrees(case, plus(k, DUMPS), input, output),
        None => false,
    }
}

pub fn agree(case: Case<'_>) -> bool {
    let mut first = io::large_buffer();
    let mut second = io::large_buffer();
    part_agrees(case, 0, &mut first)
        & part_agrees(case, 2, &mut second)
        & ((first[..] == second[..]) == (case.word(SAME) == 1))
}
