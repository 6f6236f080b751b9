// Replays stored cases of calls through the public functions, and prints those that disagree.
//
// Standard input is cases, in sections by the kind of call: words of 32 bits, low byte first, then bytes, padded to a word. Word 0
// of a case is its length in words, word 1 its call. The call END closes a section, whose count is then printed: one that is cut
// short has none. A case has at most LONGEST bytes.
#![tactic(auto)]

mod readers;

use console::Output;
use replay_cases::{Case, read_case};
use std::fmt;
use std::fmt::Write;

// The calls; those over an arena are numbered up to LAST_OF_ARENAS, the reader's from there on.
const END: u32 = 0;

const LOAD: u32 = 1;

const DUMP: u32 = 2;

const PAIR: u32 = 3;

const LAST_OF_ARENAS: u32 = 40;

const LONGEST: usize = 4096;

fn case_agrees(case: Case<'_>) -> bool {
    match case.word(1) {
        LOAD => load_replay::agree(case),
        DUMP => dump_replay::agree(case),
        PAIR => pair_replay::agree(case),
        4..=LAST_OF_ARENAS => arena_replay::agree(case),
        _ => readers::agree(case),
    }
}

// A case that disagrees, by its number in its section; written at once.
fn write_disagreeing(out: &mut Output<'_>, number: u64) -> fmt::Result {
    writeln!(out, "case {number} disagrees")?;
    out.flush()
}

// How many cases a section has, and how many disagree; written as it ends, before the next one is read.
fn write_counts(out: &mut Output<'_>, cases: u64, wrong: u64) -> fmt::Result {
    writeln!(out, "{cases} cases, {wrong} disagree")?;
    out.flush()
}

// Each case that disagrees, and the counts of each section. Cases are read on though a write fails.
fn replay_all(out: &mut Output<'_>) {
    let mut data = [0u8; LONGEST];
    let mut cases: u64 = 0;
    let mut wrong: u64 = 0;
    for _ in 0u64..100000 {
        if !read_case(&mut data) {
            return;
        }
        let case = Case { data: &data };
        if case.word(1) == END {
            let _ = write_counts(out, cases, wrong);
            cases = 0;
            wrong = 0;
        } else {
            if !case_agrees(case) {
                let _ = write_disagreeing(out, cases);
                wrong = wrong.saturating_add(1);
            }
            cases = cases.saturating_add(1);
        }
    }
}

fn main() {
    let mut buffer = io::buffer();
    replay_all(&mut Output::new(&mut buffer));
}
