// Cases of the reader's functions, each at an offset of an input.
//
// A case, from word 2 on: where a reader is started, and the offset to which it is moved; the input's length, and the byte at which it stands; what is expected: the answer's number and
// two details, the value or a byte string's start, a byte string's length, the offset afterwards, and 1 where dump writes the bytes
// read and else 0.
use definition::{Refusal, Taken, Text};
use reader_calls::{byte_at, byte_string_at, header_at, integer_at, left_at, offset_at};
use replay_cases::Case;

// Places in a case.
const CALL: usize = 1;

const FROM: usize = 2;

const OFFSET: usize = 3;

const INPUT: usize = 4;

const INPUT_AT: usize = 5;

const ANSWER: usize = 6;

const VALUE: usize = 9;

const LENGTH: usize = 10;

const AFTER: usize = 11;

const FORM: usize = 12;

// What is found at an offset.
#[derive(Clone, Copy)]
struct Found {
    value: usize,
    length: usize,
    offset: usize,
    form: bool,
}

impl From<Taken> for Found {
    fn from(t: Taken) -> Found {
        Found {
            value: t.value as usize,
            length: 0,
            offset: t.offset,
            form: t.form,
        }
    }
}

impl From<Text> for Found {
    fn from(t: Text) -> Found {
        Found {
            value: t.start,
            length: t.length,
            offset: t.offset,
            form: t.form,
        }
    }
}

// A number that nothing was read for, or what a refused call leaves.
fn number(n: usize, at: usize) -> Found {
    Found {
        value: n,
        length: 0,
        offset: at,
        form: false,
    }
}

fn find(call: u32, input: &[u8], from: usize, at: usize) -> Result<Found, Refusal> {
    match call {
        41 => byte_at(input, from, at).map(Found::from),
        42 => header_at(input, from, at).map(Found::from),
        43 => integer_at(input, from, at).map(Found::from),
        44 => byte_string_at(input, from, at).map(Found::from),
        45 => Ok(number(left_at(input, from, at), at)),
        _ => Ok(number(offset_at(input, from, at), at)),
    }
}

// Where the call is refused the offset is the one given, and the rest 0.
fn found_agrees(case: Case<'_>, at: usize, r: Result<Found, Refusal>) -> bool {
    let found = r.unwrap_or(number(0, at));
    case.answers(ANSWER, r)
        && case.place(VALUE) == found.value
        && case.place(LENGTH) == found.length
        && case.place(AFTER) == found.offset
        && (case.word(FORM) == 1) == found.form
}

pub fn agree(case: Case<'_>) -> bool {
    let from = case.place(FROM);
    let at = case.place(OFFSET);
    match case.part(INPUT, INPUT_AT) {
        Some(input) => found_agrees(case, at, find(case.word(CALL), input, from, at)),
        None => false,
    }
}
