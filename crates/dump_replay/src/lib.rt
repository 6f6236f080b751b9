// Cases of dump, over junk in scratch and output.
//
// A case, from word 2 on: the lengths of the three tables; the four counts; the lengths of scratch and output; the limit; the byte
// at which the byte table stands; what is expected: the answer's number and two details, the number of bytes written, how many
// bytes are given, and the byte at which these stand; then the node words and references.
#![tactic(auto)]

use console::{BYTES, NODES, NUMBERED, REFERENCES};
use definition::Refusal;
use dump::dump;
use replay_cases::{Case, Held, plus};

// Places in a case.
const SIZES: usize = 2;

const COUNTS: usize = 5;

const SCRATCH: usize = 9;

const OUTPUT: usize = 10;

const LIMIT: usize = 11;

const BYTES_AT: usize = 12;

const ANSWER: usize = 13;

const WRITTEN: usize = 16;

const GIVEN: usize = 17;

const GIVEN_AT: usize = 18;

const TABLES: usize = 19;

fn dumped_agrees(
    case: Case<'_>,
    r: Result<usize, Refusal>,
    scratch: &[u32],
    output: &[u8],
) -> bool {
    let number = case.word(ANSWER);
    let answered = number == 0 || 2 < number;
    let dumped = Held::Laid {
        at: case.place(GIVEN_AT),
        n: case.place(GIVEN),
    };
    case.answers(ANSWER, r)
        && case.place(WRITTEN) == r.unwrap_or(0)
        && Held::ZEROS.if_touched(answered).agrees(case, scratch)
        && dumped.if_touched(answered).agrees(case, output)
}

// A case in tables, scratch and output of just its lengths.
fn fitted_agrees(
    case: Case<'_>,
    bytes: &[u8],
    nodes: &mut [u32],
    references: &mut [u32],
    scratch: &mut [u32],
    output: &mut [u8],
) -> bool {
    let n = nodes.len();
    let r = references.len();
    Held::Laid { at: TABLES, n }.set(case, nodes);
    Held::Laid {
        at: plus(n, TABLES),
        n: r,
    }
    .set(case, references);
    Held::Junk.set(case, scratch);
    Held::Junk.set(case, output);
    let done = dump(
        nodes,
        references,
        bytes,
        case.counts(COUNTS),
        scratch,
        output,
        case.word(LIMIT),
    );
    dumped_agrees(case, done, scratch, output)
}

pub fn agree(case: Case<'_>) -> bool {
    let mut nodes = [0u32; NODES];
    let mut references = [0u32; REFERENCES];
    let mut scratch = [0u32; NUMBERED];
    let mut output = [0u8; BYTES];
    let n = case.place(SIZES).min(NODES);
    let r = case.place(SIZES + 1).min(REFERENCES);
    let s = case.place(SCRATCH).min(NUMBERED);
    let o = case.place(OUTPUT).min(BYTES);
    match case.part(SIZES + 2, BYTES_AT) {
        Some(bytes) => fitted_agrees(
            case,
            bytes,
            &mut nodes[..n],
            &mut references[..r],
            &mut scratch[..s],
            &mut output[..o],
        ),
        None => false,
    }
}
