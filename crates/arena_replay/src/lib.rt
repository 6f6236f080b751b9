// Cases of the calls over an arena: getters, builder, readings, weighings and batch costs. Their numbers stand in `getter_agrees`
// and in `builder_calls`.
//
// A case, from word 2 on: the lengths of the three tables; the four counts; two numbers; the lengths of a list and of a byte
// string; the words at which the list stands, and the tables as they are expected afterwards; the bytes at which the byte table
// stands, the byte string, and the byte table as expected; what is expected: the answer's number and two details, four counts, and
// as many words as a node has, which hold what else the call answers; then the tables. Of a Bignum the first number is 1 for
// minus, and the list is its low and its high word; of replace_class the list is the class.
#![tactic(auto)]

ghost use Rattle.std.specs.Prelude.{not, T};
ghost use Rattle.std.specs.Float.Ieee.{is_nan};

use batch_cost::batch_cost;
use builder_calls::create;
use console::{BYTES, NODES, NUMBERED, REFERENCES};
use definition::{Counts, Created, Name, Node, Reading, Refusal};
use replay_cases::{Case, Held, plus};
use value_arena::{get, get_symbol, kind, replace_root, root};
use weight::{reading, wet_weight};

// Places in a case.
const CALL: usize = 1;

const SIZES: usize = 2;

const COUNTS: usize = 5;

const FIRST: usize = 9;

const SECOND: usize = 10;

const LIST: usize = 11;

const TEXT: usize = 12;

const LIST_AT: usize = 13;

const TABLES_AFTER_AT: usize = 14;

const BYTES_AT: usize = 15;

const TEXT_AT: usize = 16;

const BYTES_AFTER_AT: usize = 17;

const ANSWER: usize = 18;

const COUNTS_AFTER: usize = 21;

const WORDS: usize = 25;

const TABLES: usize = WORDS + Node::WIDTH;

// The calls from here on are the builder's, the last of them `new`.
const BUILDER: u32 = 21;

const NEW: u32 = 34;

const NONE: Counts = Counts {
    nodes: 0,
    references: 0,
    bytes: 0,
    root: 0,
};

// The first word, or the only one, that is answered; 0 where the call is refused.
fn value_agrees(case: Case<'_>, r: Result<u32, Refusal>) -> bool {
    case.answers(ANSWER, r) && case.word(WORDS) == r.unwrap_or(0)
}

// A refused builder's counts are those given.
fn created_agrees(case: Case<'_>, given: Counts, r: Result<Created, Refusal>) -> bool {
    let created = r.unwrap_or(Created {
        handle: 0,
        counts: given,
    });
    case.answers(ANSWER, r)
        && case.word(WORDS) == created.handle
        && case.counts(COUNTS_AFTER) == created.counts
}

// The double's bits stand at `at`.
fn same_double(case: Case<'_>, at: usize, x: f64) -> bool
    requires { T (not (is_nan x)) }
{
    case.long(at) == x.to_bits()
}

// What node h reads as: 0 for no number, 1 for a whole one, 2 for a double, and that number.
fn reading_agrees(
    case: Case<'_>,
    nodes: &[u32],
    references: &[u32],
    bytes: &[u8],
    counts: Counts,
    h: u32,
) -> bool {
    let r = reading(nodes, references, bytes, counts, h);
    if !case.answers(ANSWER, r) {
        return false;
    }
    let kind = case.word(WORDS);
    match r {
        Ok(reads) => match reads {
            Reading::Whole(n) => kind == 1 && case.word(WORDS + 1).cast_signed() == n,
            Reading::Double(x) => kind == 2 && same_double(case, WORDS + 1, x),
            Reading::NotANumber => kind == 0,
        },
        Err(_) => kind == 0,
    }
}

// The three doubles of a weighing, zeros where the call is refused.
fn weighing_agrees(
    case: Case<'_>,
    nodes: &[u32],
    references: &[u32],
    bytes: &[u8],
    counts: Counts,
    dry: u32,
    moisture: u32,
) -> bool {
    let r = wet_weight(nodes, references, bytes, counts, dry, moisture);
    if !case.answers(ANSWER, r) {
        return false;
    }
    match r {
        Ok(w) => {
            same_double(case, WORDS, w.dry)
                && same_double(case, WORDS + 2, w.moisture)
                && same_double(case, WORDS + 4, w.wet)
        }
        Err(_) => case.long(WORDS) == 0 && case.long(WORDS + 2) == 0 && case.long(WORDS + 4) == 0,
    }
}

// A call that changes no table, by its number.
fn getter_agrees(
    case: Case<'_>,
    call: u32,
    nodes: &[u32],
    references: &[u32],
    bytes: &[u8],
    counts: Counts,
    x: u32,
    y: u32,
) -> bool {
    match call {
        11 => value_agrees(case, root(nodes, references, bytes, counts)),
        12 => value_agrees(case, kind(nodes, references, bytes, counts, x)),
        13 => {
            let r = get(nodes, references, bytes, counts, x);
            let expected = Held::Laid {
                at: WORDS,
                n: Node::WIDTH,
            };
            case.answers(ANSWER, r) && expected.agrees(case, &r.unwrap_or([0; Node::WIDTH]))
        }
        14 => {
            let r = get_symbol(nodes, references, bytes, counts, x);
            let name = r.unwrap_or(Name {
                start: 0,
                length: 0,
            });
            case.answers(ANSWER, r)
                && case.word(WORDS) == name.start
                && case.word(WORDS + 1) == name.length
        }
        15 => created_agrees(
            case,
            counts,
            replace_root(nodes, references, bytes, counts, x),
        ),
        16 => reading_agrees(case, nodes, references, bytes, counts, x),
        17 => weighing_agrees(case, nodes, references, bytes, counts, x, y),
        18 => {
            let r = batch_cost(nodes, references, bytes, counts, x, y);
            case.answers(ANSWER, r) && case.long(WORDS) == r.unwrap_or(0)
        }
        _ => false,
    }
}

fn call_agrees(
    case: Case<'_>,
    nodes: &mut [u32],
    references: &mut [u32],
    bytes: &mut [u8],
    list: &[u32],
    text: &[u8],
) -> bool {
    let call = case.word(CALL);
    let counts = case.counts(COUNTS);
    let x = case.word(FIRST);
    if call < BUILDER {
        let y = case.word(SECOND);
        return getter_agrees(case, call, nodes, references, bytes, counts, x, y);
    }
    let low = case.word(case.place(LIST_AT));
    let high = case.word(plus(case.place(LIST_AT), 1));
    let r = create(
        call, nodes, references, bytes, counts, x, low, high, list, text,
    );
    // a refused `new` leaves no counts
    let given = if call < NEW { counts } else { NONE };
    created_agrees(case, given, r)
}

// A case in tables and list of just its lengths.
fn fitted_agrees(
    case: Case<'_>,
    nodes: &mut [u32],
    references: &mut [u32],
    bytes: &mut [u8],
    list: &mut [u32],
    text: &[u8],
) -> bool {
    let n = nodes.len();
    let r = references.len();
    let b = bytes.len();
    let l = list.len();
    let laid = |at: usize, n: usize| Held::Laid { at, n };
    let after = case.place(TABLES_AFTER_AT);
    laid(TABLES, n).set(case, nodes);
    laid(plus(n, TABLES), r).set(case, references);
    laid(case.place(BYTES_AT), b).set(case, bytes);
    laid(case.place(LIST_AT), l).set(case, list);
    call_agrees(case, nodes, references, bytes, list, text)
        & laid(after, n).agrees(case, nodes)
        & laid(plus(after, n), r).agrees(case, references)
        & laid(case.place(BYTES_AFTER_AT), b).agrees(case, bytes)
}

pub fn agree(case: Case<'_>) -> bool {
    let mut nodes = [0u32; NODES];
    let mut references = [0u32; REFERENCES];
    let mut bytes = [0u8; BYTES];
    let mut list = [0u32; NUMBERED];
    let n = case.place(SIZES).min(NODES);
    let r = case.place(SIZES + 1).min(REFERENCES);
    let b = case.place(SIZES + 2).min(BYTES);
    let l = case.place(LIST).min(NUMBERED);
    match case.part(TEXT, TEXT_AT) {
        Some(text) => fitted_agrees(
            case,
            &mut nodes[..n],
            &mut references[..r],
            &mut bytes[..b],
            &mut list[..l],
            text,
        ),
        None => false,
    }
}
