// dump: the writers that call one another, and the call.
#![tactic(auto)]

ghost use Rattle.std.specs.Prelude.{◌≡◌, ℕ, ◌-◌, ◌<◌, length};
ghost use Rattle.definition.specs.Arena.{Arena, range};
ghost use Rattle.definition.specs.Dump.{write_elements, write_value, dump_answer, dump_call, dump_call_of};
ghost use Rattle.well_formed.specs.Right.{ListIn};
ghost use Rattle.writer.specs.Held.{buffers, Lent, Listed, Ready, Meets, stopped};
ghost use Rattle.dump.specs.Whole.{whole};

use arena_check::check;
use definition::{Counts, Node, Refusal, Slice};
use dumper::{list_words, open_value, wrong_slice};
use object_writer::Opened;
use store::fill_from;
use writer::{Progress, Stop, write_byte, write_shorts};

// The n values from reference `start` on, in order. Integers and links to symbols are most of a recipe: as many of them as come
// next are written in a loop of their own, and then the value after them.
#[cycle(write_elements_write_value)]
fn write_elements(
    nodes: &[u32],
    references: &[u32],
    bytes: &[u8],
    scratch: &mut [u32],
    output: &mut [u8],
    c: &mut Progress,
    start: usize,
    n: usize,
    levels: u32,
) -> Result<(), Stop>
    requires { Ready (λ A. Lent A nodes.now bytes.now × Listed A references.now × ListIn A start n) (buffers scratch.old output.old) c.old }
    ensures { (A : Arena) (room limit : ℕ) → Lent A nodes.now bytes.now → Listed A references.now → ListIn A start n → Meets A room limit (write_elements (write_value room A limit levels) (range A.references start n)) (buffers scratch.old output.old) c.old result (buffers scratch.new output.new) c.new }
{
    // a `while`: the index goes on behind what was written
    let mut i = 0;
    while i < n {
        if levels == 0 {
            return Err(Stop::TooDeep);
        }
        let j = i + write_shorts(nodes, references, &scratch[..], output, c, start + i, n - i);
        if n <= j {
            return Ok(());
        }
        write_value(
            nodes,
            references,
            bytes,
            scratch,
            output,
            c,
            references[start + j] as usize,
            levels,
        )?;
        i = j + 1;
    }
    Ok(())
}

// The value of node v, with so many levels left. The members of every kind are written by one call, so that a level of nesting
// is one call deep; a hash's default comes last, so it is written in a turn of its own and is no call.
#[cycle(write_elements_write_value)]
fn write_value(
    nodes: &[u32],
    references: &[u32],
    bytes: &[u8],
    scratch: &mut [u32],
    output: &mut [u8],
    c: &mut Progress,
    v: usize,
    levels: u32,
) -> Result<(), Stop>
    requires { Ready (λ A. Lent A nodes.now bytes.now × Listed A references.now × (v < length A.nodes)) (buffers scratch.old output.old) c.old }
    ensures { (A : Arena) (room limit : ℕ) → Lent A nodes.now bytes.now → Listed A references.now → v < length A.nodes → Meets A room limit (write_value room A limit levels v) (buffers scratch.old output.old) c.old result (buffers scratch.new output.new) c.new }
{
    let mut h = v;
    let mut left = levels;
    // a `while`: there are as many turns as defaults in a row
    while left != 0 {
        if let Opened::Whole = open_value(
            nodes,
            references,
            bytes,
            scratch,
            output,
            c,
            h,
            left - 1,
        )? {
            return Ok(());
        }
        let k = nodes[h * Node::WIDTH];
        write_elements(
            nodes,
            references,
            bytes,
            scratch,
            output,
            c,
            nodes[h * Node::WIDTH + Node::LIST] as usize,
            list_words(k, nodes[h * Node::WIDTH + Node::COUNT]),
            left - 1,
        )?;
        if k != Node::HASH {
            return Ok(());
        }
        let d = nodes[h * Node::WIDTH + Node::DEFAULT];
        if d == 0 {
            return Ok(());
        }
        h = d as usize - 1;
        left -= 1;
    }
    Err(Stop::TooDeep)
}

// 04 08, then the root.
fn write_root(
    nodes: &[u32],
    references: &[u32],
    bytes: &[u8],
    scratch: &mut [u32],
    output: &mut [u8],
    c: &mut Progress,
    root: usize,
    limit: u32,
) -> Result<(), Stop>
    requires { Ready (λ A. Lent A nodes.now bytes.now × Listed A references.now × (root < length A.nodes)) (buffers scratch.old output.old) c.old }
    ensures { (A : Arena) (room : ℕ) → Lent A nodes.now bytes.now → Listed A references.now → root < length A.nodes → root ≡ A.root → Meets A room limit (whole room A limit) (buffers scratch.old output.old) c.old result (buffers scratch.new output.new) c.new }
{
    write_byte(output, c, 4)?;
    write_byte(output, c, 8)?;
    write_value(nodes, references, bytes, scratch, output, c, root, limit)
}

// The refusal of a writer that stopped.
fn refusal(stop: Stop, limit: u32) -> Refusal
    ensures { result ≡ stopped limit stop }
{
    match stop {
        Stop::NoSpace => Refusal::NoSpace(Slice::OUTPUT),
        Stop::TooDeep => Refusal::TooDeep(limit)
    }
}

// Dumps the arena into output, whose rest is zeroed last; numbers by node stand in scratch meanwhile.
pub fn dump(
    nodes: &[u32],
    references: &[u32],
    bytes: &[u8],
    counts: Counts,
    scratch: &mut [u32],
    output: &mut [u8],
    limit: u32,
) -> Result<usize, Refusal>
    ensures { dump_call_of (dump_answer result).answer (dump_answer result).written scratch.new output.new ≡ dump_call (record { nodes = nodes.entry.now; references = references.now; bytes = bytes.now }) counts scratch.old output.old limit }
{
    let w = wrong_slice(
        nodes.len(),
        references.len(),
        bytes.len(),
        output.len(),
        limit,
        scratch.len(),
    );
    if w != 0 {
        return Err(Refusal::BadTables(w));
    }
    let root = counts.root as usize;
    check(nodes, references, bytes, counts).map_err(Refusal::BadArena)?;
    fill_from(scratch, 0, 0);
    let mut c = Progress {
        written: 0,
        symbols: 0,
        objects: 0,
    };
    let w = write_root(
        nodes, references, bytes, scratch, output, &mut c, root, limit,
    );
    fill_from(scratch, 0, 0);
    match w {
        Ok(()) => {
            let written = c.written;
            fill_from(output, written, 0);
            Ok(written)
        }
        Err(stop) => {
            fill_from(output, 0, 0);
            Err(refusal(stop, limit))
        }
    }
}
