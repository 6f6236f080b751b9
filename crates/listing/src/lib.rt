// What the programs list and list_all print: an input loaded, or all that stands in it one after the other, and the arena or
// the refusal as rows of columns.
#![tactic(auto)]

use console::{LIMIT, LONGEST, Output, Tables, write_refusal};
use definition::{Counts, Loaded, Node, Refusal, Slice};
use load::load_at;
use std::fmt;
use std::fmt::Write;

// Each used node, its number first; each used reference; each used byte.
fn write_arena(out: &mut Output<'_>, counts: Counts, tables: &Tables) -> fmt::Result {
    for (i, node) in tables
        .nodes
        .chunks_exact(Node::WIDTH)
        .take(counts.nodes)
        .enumerate()
    {
        out.put_number(i as u64)?;
        for word in node {
            out.put_number(u64::from(*word))?;
        }
        out.put_all(b"\n")?;
    }
    for reference in tables.references.iter().take(counts.references) {
        out.put_number(u64::from(*reference))?;
        out.put_all(b"\n")?;
    }
    for byte in tables.bytes.iter().take(counts.bytes) {
        out.put_number(u64::from(*byte))?;
        out.put_all(b"\n")?;
    }
    Ok(())
}

// What load filled: the counts, the bytes used, and the arena.
fn write_loaded(out: &mut Output<'_>, loaded: Loaded, tables: &Tables) -> fmt::Result {
    let counts = loaded.counts;
    writeln!(
        out,
        "{:>11}{:>11}{:>11}{:>11}{:>11}",
        counts.nodes, counts.references, counts.bytes, counts.root, loaded.used
    )?;
    write_arena(out, counts, tables)
}

// The input's listing.
pub fn write_listing(out: &mut Output<'_>, input: &[u8]) -> fmt::Result {
    let mut tables = Tables::new();
    match tables.load(input) {
        Ok(loaded) => write_loaded(out, loaded, &tables),
        Err(q) => write_refusal(out, q),
    }
}

// The listings of what stands one after the other, up to the first that is refused.
pub fn write_listings(out: &mut Output<'_>, input: &[u8]) -> fmt::Result {
    if LONGEST < input.len() {
        return write_refusal(out, Refusal::NoSpace(Slice::INPUT));
    }
    let mut tables = Tables::new();
    let mut at = 0;
    // a `while`: each load says how far it went
    while at < input.len() {
        match load_at(
            input,
            at,
            &mut tables.nodes,
            &mut tables.references,
            &mut tables.bytes,
            &mut tables.symbols,
            &mut tables.objects,
            LIMIT,
        ) {
            Ok(loaded) => {
                write_loaded(out, loaded, &tables)?;
                let used = loaded.used;
                if used == 0 || input.len() - at < used {
                    break;
                }
                at += used;
            }
            Err(q) => return write_refusal(out, q),
        }
    }
    Ok(())
}
