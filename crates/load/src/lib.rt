// load: the calls, from the test of what is lent to the zeros behind what was read. Tables and lists are slices of their own,
// since C lends them so.
#![tactic(auto)]

ghost use Rattle.std.specs.Prelude.{◌≡◌, false, ◌⊎◌, ◌/◌, ◌<◌, ◌≤◌, Some, None, IfSome, unwrap_or, length};
ghost use Rattle.definition.specs.Node.{width};
ghost use Rattle.definition.specs.Slice.{greatest_length};
ghost use Rattle.definition.specs.Load.{lists, load_answer, load_call, load_call_of};
ghost use Rattle.definition.specs.LoadMeasured.{measured_answer, measured_call, measured_call_of};
ghost use Rattle.definition.specs.LoadHashed.{bad_buckets, hashed_answer, hashed_call, hashed_call_of};
ghost use Rattle.definition.specs.Reader.{load_next};
ghost use Rattle.load.specs.Call.{load_of, measured_of, hashed_of};

use definition::{Counts, Hashed, Loaded, Measured, Node, Refusal, Slice};
use load_state::Progress;
use loader::{wrong_buckets, wrong_slice};
use reader::{Reader, start};
use store::{fill_from, put_node};
use value_reader::read_root;

// Where no bucket table is lent none is wrong.
const NONE_WRONG: bool = false;

// What load answers, and what the measuring and the hashed load add to it.
#[derive(Clone, Copy)]
struct Counted {
    load: Loaded,
    copied: u64,
    compared: u64,
    looked: u64,
}

// The bytes compared, or 0 where they were not counted.
fn number(compared: Option<usize>) -> u64
    ensures { result ≡ unwrap_or compared 0 }
{
    match compared {
        None => 0,
        Some(n) => n as u64,
    }
}

// Loads a whole input. `compared` is what the count of the bytes compared begins with: Some(0), or None where they are not
// counted. Names are searched for by the bucket table if it has words, else on the symbol list; `wrong` tells whether the
// bucket table is refused. Nothing is zeroed that is written over: of the tables what is left at the end, of the lists all
// at the end; only the bucket table is zeroed before too.
fn load_whole(
    input: &[u8],
    nodes: &mut [u32],
    references: &mut [u32],
    bytes: &mut [u8],
    symbols: &mut [u32],
    objects: &mut [u32],
    buckets: &mut [u32],
    limit: u32,
    compared: Option<usize>,
    wrong: bool,
) -> Result<Counted, Refusal>
    requires { IfSome compared (λ k. k ≡ 0) × (((length buckets.old ≡ 0) × (wrong ≡ false)) ⊎ ((compared ≡ None) × (wrong ≡ bad_buckets (length nodes.old / width) (length buckets.old)))) }
    ensures objects_after { wrong ≡ false → load_call_of (load_of result) (lists nodes.new references.new bytes.new symbols.new objects.new) ≡ load_call input.now (lists nodes.old references.old bytes.old symbols.old objects.old) limit }
    ensures objects_after_2 { wrong ≡ false → compared ≡ Some 0 → measured_call_of (measured_of result) (lists nodes.new references.new bytes.new symbols.new objects.new) ≡ measured_call input.now (lists nodes.old references.old bytes.old symbols.old objects.old) limit }
    ensures buckets_after { wrong ≡ bad_buckets (length nodes.old / width) (length buckets.old) → hashed_call_of (hashed_of result) (lists nodes.new references.new bytes.new symbols.new objects.new) buckets.new ≡ hashed_call input.now (lists nodes.old references.old bytes.old symbols.old objects.old) buckets.old limit }
{
    let w = wrong_slice(
        nodes.len(),
        references.len(),
        bytes.len(),
        symbols.len(),
        objects.len(),
        limit,
        input.len(),
        wrong,
    );
    if w != 0 {
        return Err(Refusal::BadTables(w));
    }
    let mut c = Progress {
        at: 0,
        nodes: 1,
        references: 0,
        bytes: 0,
        symbols: 0,
        objects: 0,
        form: true,
        compared,
        looked: 0,
        room: nodes.len() / Node::WIDTH,
    };
    put_node(nodes, 0, Node::NIL, 0, 0, 0, 0, 0, 0, 0);
    fill_from(buckets, 0, 0);
    let root = read_root(
        input, nodes, references, bytes, symbols, objects, buckets, &mut c, limit,
    );
    fill_from(symbols, 0, 0);
    fill_from(objects, 0, 0);
    fill_from(buckets, 0, 0);
    match root {
        Ok(h) => {
            fill_from(nodes, c.nodes * Node::WIDTH, 0);
            fill_from(references, c.references, 0);
            fill_from(bytes, c.bytes, 0);
            Ok(Counted {
                load: Loaded {
                    counts: Counts {
                        nodes: c.nodes,
                        references: c.references,
                        bytes: c.bytes,
                        root: h as u32,
                    },
                    used: c.at,
                    form: c.form,
                },
                copied: c.bytes as u64,
                compared: number(c.compared),
                looked: c.looked as u64,
            })
        }
        Err(stop) => {
            fill_from(nodes, 0, 0);
            fill_from(references, 0, 0);
            fill_from(bytes, 0, 0);
            Err(stop.refusal(limit))
        }
    }
}

// Where to load from: the offset, or the end where it is past it; of an input that is too long the start, since its whole
// length is tested.
fn inside(at: usize, length: usize) -> usize
    ensures { (result ≤ length) × (greatest_length < length → result ≡ 0) × (length ≤ greatest_length → (at ≤ length → result ≡ at) × (length < at → result ≡ length)) }
{
    if Slice::GREATEST < length {
        return 0;
    }
    if at < length {
        return at;
    }
    length
}

// Loads what stands at an offset of an input, past the end nothing: names on the symbol list, nothing counted.
pub fn load_at(
    input: &[u8],
    at: usize,
    nodes: &mut [u32],
    references: &mut [u32],
    bytes: &mut [u8],
    symbols: &mut [u32],
    objects: &mut [u32],
    limit: u32,
) -> Result<Loaded, Refusal>
    ensures { load_call_of (load_answer result) (lists nodes.new references.new bytes.new symbols.new objects.new) ≡ load_next input.now at (lists nodes.old references.old bytes.old symbols.old objects.old) limit }
{
    let from = inside(at, input.len());
    let mut no_buckets = [0u32; 1];
    let w = load_whole(
        &input[from..],
        nodes,
        references,
        bytes,
        symbols,
        objects,
        &mut no_buckets[..0],
        limit,
        None,
        NONE_WRONG,
    )?;
    Ok(w.load)
}

// Loads what stands at a reader's offset into the tables; the two lists are scratch. The next load begins at the offset with
// the bytes used added: none where it is refused.
pub fn load_next<'a>(
    r: Reader<'a>,
    nodes: &mut [u32],
    references: &mut [u32],
    bytes: &mut [u8],
    symbols: &mut [u32],
    objects: &mut [u32],
    limit: u32,
) -> Result<Loaded, Refusal>
    ensures { load_call_of (load_answer result) (lists nodes.new references.new bytes.new symbols.new objects.new) ≡ load_next r.entry.input.now r.entry.offset (lists nodes.old references.old bytes.old symbols.old objects.old) limit }
{
    load_at(
        r.input, r.offset, nodes, references, bytes, symbols, objects, limit,
    )
}

// Loads what the input's bytes say into the tables; the two lists are scratch.
pub fn load(
    input: &[u8],
    nodes: &mut [u32],
    references: &mut [u32],
    bytes: &mut [u8],
    symbols: &mut [u32],
    objects: &mut [u32],
    limit: u32,
) -> Result<Loaded, Refusal>
    ensures { load_call_of (load_answer result) (lists nodes.new references.new bytes.new symbols.new objects.new) ≡ load_call input.now (lists nodes.old references.old bytes.old symbols.old objects.old) limit }
{
    load_next(
        start(input),
        nodes,
        references,
        bytes,
        symbols,
        objects,
        limit,
    )
}

// load, and how many bytes were copied to the byte table and compared in searches for names.
pub fn load_measured(
    input: &[u8],
    nodes: &mut [u32],
    references: &mut [u32],
    bytes: &mut [u8],
    symbols: &mut [u32],
    objects: &mut [u32],
    limit: u32,
) -> Result<Measured, Refusal>
    ensures { measured_call_of (measured_answer result) (lists nodes.new references.new bytes.new symbols.new objects.new) ≡ measured_call input.now (lists nodes.old references.old bytes.old symbols.old objects.old) limit }
{
    let mut no_buckets = [0u32; 1];
    let w = load_whole(
        input,
        nodes,
        references,
        bytes,
        symbols,
        objects,
        &mut no_buckets[..0],
        limit,
        Some(0),
        NONE_WRONG,
    )?;
    Ok(Measured {
        load: w.load,
        copied: w.copied,
        compared: w.compared,
    })
}

// load, with names searched for by the bucket table, and how many words of it were looked at.
pub fn load_hashed(
    input: &[u8],
    nodes: &mut [u32],
    references: &mut [u32],
    bytes: &mut [u8],
    symbols: &mut [u32],
    objects: &mut [u32],
    buckets: &mut [u32],
    limit: u32,
) -> Result<Hashed, Refusal>
    ensures { hashed_call_of (hashed_answer result) (lists nodes.new references.new bytes.new symbols.new objects.new) buckets.new ≡ hashed_call input.now (lists nodes.old references.old bytes.old symbols.old objects.old) buckets.old limit }
{
    let wrong = wrong_buckets(nodes.len(), buckets.len());
    let w = load_whole(
        input, nodes, references, bytes, symbols, objects, buckets, limit, None, wrong,
    )?;
    Ok(Hashed {
        load: w.load,
        looked: w.looked,
    })
}
