// Cases of load, each through load, load_measured and load_hashed, over junk.
//
// A case, from word 2 on: the lengths of the five tables and lists and of the bucket table; the limit; the input's length, and the
// byte at which it stands; what is expected: the answer, which is its number and two details, four counts, the bytes used, and 1
// where they are in dump form and else 0; the hashed load's answer, likewise; the bytes copied, the bytes compared and the bucket
// words looked at, two words each; how much of nodes, references and bytes is laid out, and the byte at which these bytes stand;
// then those node words and references.
#![tactic(auto)]

use console::{BYTES, NODES, NUMBERED, REFERENCES};
use definition::{Counts, Loaded, Refusal};
use load::{load, load_hashed, load_measured};
use refusal::counts_left;
use replay_cases::{Case, Held, plus};

// Places in a case.
const SIZES: usize = 2;

const LIMIT: usize = 8;

const INPUT: usize = 9;

const INPUT_AT: usize = 10;

const ANSWER: usize = 11;

const HASHED: usize = 20;

const COPIED: usize = 29;

const COMPARED: usize = 31;

const LOOKED: usize = 33;

const LAID: usize = 35;

const BYTES_AT: usize = 38;

const TABLES: usize = 39;

// The calls.
#[derive(Clone, Copy, PartialEq, Eq)]
enum Call {
    Load,
    Measured,
    Hashed,
}

impl Call {
    // Where its answer stands.
    fn answer(self) -> usize {
        match self {
            Call::Hashed => HASHED,
            _ => ANSWER,
        }
    }

    // Are the counts that it adds 0 in the case, as they are where it is refused?
    fn nothing_counted(self, case: Case<'_>) -> bool {
        match self {
            Call::Load => true,
            Call::Measured => case.long(COPIED) == 0 && case.long(COMPARED) == 0,
            Call::Hashed => case.long(LOOKED) == 0,
        }
    }
}

// What a call answers, with the counts that it may add.
#[derive(Clone, Copy)]
enum Called {
    Load(Loaded),
    Measured(Loaded, u64, u64),
    Hashed(Loaded, u64),
}

impl Called {
    fn load(self) -> Loaded {
        match self {
            Called::Load(r) | Called::Measured(r, _, _) | Called::Hashed(r, _) => r,
        }
    }

    // Do the counts that it adds stand in the case?
    fn counts_agree(self, case: Case<'_>) -> bool {
        match self {
            Called::Load(_) => true,
            Called::Measured(_, copied, compared) => {
                case.long(COPIED) == copied && case.long(COMPARED) == compared
            }
            Called::Hashed(_, looked) => case.long(LOOKED) == looked,
        }
    }
}

fn load_case(
    which: Call,
    input: &[u8],
    nodes: &mut [u32],
    references: &mut [u32],
    bytes: &mut [u8],
    symbols: &mut [u32],
    objects: &mut [u32],
    buckets: &mut [u32],
    limit: u32,
) -> Result<Called, Refusal> {
    match which {
        Call::Load => {
            let r = load(input, nodes, references, bytes, symbols, objects, limit)?;
            Ok(Called::Load(r))
        }
        Call::Measured => {
            let r = load_measured(input, nodes, references, bytes, symbols, objects, limit)?;
            Ok(Called::Measured(r.load, r.copied, r.compared))
        }
        Call::Hashed => {
            let r = load_hashed(
                input, nodes, references, bytes, symbols, objects, buckets, limit,
            )?;
            Ok(Called::Hashed(r.load, r.looked))
        }
    }
}

// The counts, the bytes used and the form stand from word `at` on.
fn loaded_agrees(case: Case<'_>, at: usize, counts: Counts, used: usize, form: bool) -> bool {
    case.counts(at) == counts
        && case.place(plus(at, 4)) == used
        && (case.word(plus(at, 5)) == 1) == form
}

fn called_agrees(case: Case<'_>, which: Call, r: Result<Called, Refusal>) -> bool {
    let at = which.answer();
    if !case.answers(at, r) {
        return false;
    }
    match r {
        Ok(called) => {
            let l = called.load();
            loaded_agrees(case, plus(at, 3), l.counts, l.used, l.form) && called.counts_agree(case)
        }
        Err(q) => {
            loaded_agrees(case, plus(at, 3), counts_left(q), 0, false)
                && which.nothing_counted(case)
        }
    }
}

// The tables and lists as they are after a call.
fn tables_agree(
    case: Case<'_>,
    which: Call,
    nodes: &[u32],
    references: &[u32],
    bytes: &[u8],
    symbols: &[u32],
    objects: &[u32],
    buckets: &[u32],
) -> bool {
    let answered = case.word(which.answer()) != 1;
    let n = case.place(LAID);
    let laid_nodes = Held::Laid { at: TABLES, n };
    let laid_references = Held::Laid {
        at: plus(n, TABLES),
        n: case.place(LAID + 1),
    };
    let laid_bytes = Held::Laid {
        at: case.place(BYTES_AT),
        n: case.place(LAID + 2),
    };
    let zeros = Held::ZEROS.if_touched(answered);
    laid_nodes.if_touched(answered).agrees(case, nodes)
        && laid_references
            .if_touched(answered)
            .agrees(case, references)
        && laid_bytes.if_touched(answered).agrees(case, bytes)
        && zeros.agrees(case, symbols)
        && zeros.agrees(case, objects)
        && zeros
            .if_touched(which == Call::Hashed)
            .agrees(case, buckets)
}

// A case through one of the calls, in tables and lists of just its lengths.
fn fitted_agrees(
    case: Case<'_>,
    which: Call,
    input: &[u8],
    nodes: &mut [u32],
    references: &mut [u32],
    bytes: &mut [u8],
    symbols: &mut [u32],
    objects: &mut [u32],
    buckets: &mut [u32],
) -> bool {
    Held::Junk.set(case, nodes);
    Held::Junk.set(case, references);
    Held::Junk.set(case, bytes);
    Held::Junk.set(case, symbols);
    Held::Junk.set(case, objects);
    Held::Junk.set(case, buckets);
    let r = load_case(
        which,
        input,
        nodes,
        references,
        bytes,
        symbols,
        objects,
        buckets,
        case.word(LIMIT),
    );
    called_agrees(case, which, r)
        & tables_agree(
            case, which, nodes, references, bytes, symbols, objects, buckets,
        )
}

fn call_agrees(case: Case<'_>, which: Call) -> bool {
    let mut nodes = [0u32; NODES];
    let mut references = [0u32; REFERENCES];
    let mut bytes = [0u8; BYTES];
    let mut symbols = [0u32; NUMBERED];
    let mut objects = [0u32; NUMBERED];
    let mut buckets = [0u32; NUMBERED];
    let n = case.place(SIZES).min(NODES);
    let r = case.place(SIZES + 1).min(REFERENCES);
    let b = case.place(SIZES + 2).min(BYTES);
    let s = case.place(SIZES + 3).min(NUMBERED);
    let o = case.place(SIZES + 4).min(NUMBERED);
    let k = case.place(SIZES + 5).min(NUMBERED);
    match case.part(INPUT, INPUT_AT) {
        Some(input) => fitted_agrees(
            case,
            which,
            input,
            &mut nodes[..n],
            &mut references[..r],
            &mut bytes[..b],
            &mut symbols[..s],
            &mut objects[..o],
            &mut buckets[..k],
        ),
        None => false,
    }
}

pub fn agree(case: Case<'_>) -> bool {
    call_agrees(case, Call::Load)
        && call_agrees(case, Call::Measured)
        && call_agrees(case, Call::Hashed)
}
