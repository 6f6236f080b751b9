// The reader of values, and the readers of what has members: they call one another.
//
// Contracts speak of what is held (crate load_state). `levels` are those still allowed: in the value reader for the value, in the
// others for the members. They fall from a value to its members.
#![tactic(auto)]

ghost use Rattle.std.specs.Prelude.{◌≡◌, ℕ, ◌-◌, ◌<◌, ◌≤◌, IfOk, eqb};
ghost use Rattle.definition.specs.Kind.{HASH_DEFAULT};
ghost use Rattle.definition.specs.State.{Room};
ghost use Rattle.definition.specs.Load.{read_array, read_hash, read_object, read_variables, read_value, read_symbol_like};
ghost use Rattle.load_state.specs.Holds.{lent, by_buckets, Held, Meets, Numbered};
ghost use Rattle.loader.specs.Parts.{after_i};
ghost use Rattle.run_reader.specs.Run.{members};
ghost use Rattle.value_reader.specs.Root.{whole};

use definition::{Node, ValueKind};
use input_reader::read_header;
use leaf_reader::{read_class, read_leaf};
use load_state::Progress;
use loader::{fill_node, note_inner, open_node, read_words, set_variables};
use reader::Stop;
use run_reader::read_run;
use symbol_reader::read_symbol_like;

// The parity of names in a list without names.
const NONE: usize = 2;

// The members for the reference words from `start` to `end`, of which those of parity `names` are names, and then, where
// `more` is 1, one value, which is the answer. Integers and symbol links are most of a recipe: as many of them as come
// next are read in a loop of their own. All members of all kinds are read here, and a value is read at one place, so that
// a level of nesting is one call deep.
#[cycle(readers)]
fn read_members(
    input: &[u8],
    nodes: &mut [u32],
    references: &mut [u32],
    bytes: &mut [u8],
    symbols: &mut [u32],
    objects: &mut [u32],
    buckets: &mut [u32],
    c: &mut Progress,
    start: usize,
    end: usize,
    more: usize,
    names: usize,
    levels: u32,
) -> Result<usize, Stop>
    requires { (start ≤ end) × (end ≤ c.old.references) × (more ≤ 1) × (more ≡ 1 → names ≡ 2) × Held input.now (lent nodes.old references.old bytes.old (by_buckets symbols.old buckets.old) objects.old) c.old }
    ensures meets { (room : Room) (limit : ℕ) → Meets input.now room limit (members (read_symbol_like input.now room) (read_value input.now room limit levels) names more (end - start) start) (lent nodes.old references.old bytes.old (by_buckets symbols.old buckets.old) objects.old) c.old result (lent nodes.new references.new bytes.new (by_buckets symbols.new buckets.new) objects.new) c.new }
    ensures value { IfOk result (λ v. (more ≡ 0 → v ≡ 0) × (more ≡ 1 → Numbered c.new v)) }
{
    // a `while`: the index goes on behind what the run took
    let mut to = start;
    while to < end + more {
        let next = read_run(input, nodes, references, symbols, c, to, end, names, levels);
        if to < next {
            to = next;
            continue;
        }
        if to % 2 == names {
            let name = read_symbol_like(input, nodes, bytes, symbols, buckets, c)?;
            references[to] = name as u32;
            to += 1;
            continue;
        }
        let v = read_value(
            input, nodes, references, bytes, symbols, objects, buckets, c, levels,
        )?;
        if to == end {
            return Ok(v);
        }
        references[to] = v as u32;
        to += 1;
    }
    Ok(0)
}

#[cycle(readers)]
fn read_array(
    input: &[u8],
    nodes: &mut [u32],
    references: &mut [u32],
    bytes: &mut [u8],
    symbols: &mut [u32],
    objects: &mut [u32],
    buckets: &mut [u32],
    c: &mut Progress,
    levels: u32,
    class: u32,
) -> Result<usize, Stop>
    requires { Held input.now (lent nodes.old references.old bytes.old (by_buckets symbols.old buckets.old) objects.old) c.old }
    ensures meets { (room : Room) (limit : ℕ) → Meets input.now room limit (read_array input.now room (read_value input.now room limit levels) class) (lent nodes.old references.old bytes.old (by_buckets symbols.old buckets.old) objects.old) c.old result (lent nodes.new references.new bytes.new (by_buckets symbols.new buckets.new) objects.new) c.new }
    ensures upper_bound { IfOk result (Numbered c.new) }
{
    let h = open_node(nodes, objects, c)?;
    let n = read_words(input, references, c, 1)?;
    let end = c.references;
    let start = end - n;
    read_members(
        input, nodes, references, bytes, symbols, objects, buckets, c, start, end, 0, NONE, levels,
    )?;
    fill_node(nodes, h, Node::ARRAY, start as u32, n as u32, 0, 0, class);
    Ok(h)
}

// How many defaults come after the members, by the kind byte: one after `}`.
fn defaults(k: u8) -> usize
    ensures { ((k ≡ HASH_DEFAULT → ⊥) → result ≡ 0) × (k ≡ HASH_DEFAULT → result ≡ 1) }
{
    if k == ValueKind::HASH_DEFAULT { 1 } else { 0 }
}

// A hash, with a default where `more` is 1.
#[cycle(readers)]
fn read_hash(
    input: &[u8],
    nodes: &mut [u32],
    references: &mut [u32],
    bytes: &mut [u8],
    symbols: &mut [u32],
    objects: &mut [u32],
    buckets: &mut [u32],
    c: &mut Progress,
    more: usize,
    levels: u32,
    class: u32,
) -> Result<usize, Stop>
    requires { (more ≤ 1) × Held input.now (lent nodes.old references.old bytes.old (by_buckets symbols.old buckets.old) objects.old) c.old }
    ensures meets { (room : Room) (limit : ℕ) → Meets input.now room limit (read_hash (eqb more 1) input.now room (read_value input.now room limit levels) class) (lent nodes.old references.old bytes.old (by_buckets symbols.old buckets.old) objects.old) c.old result (lent nodes.new references.new bytes.new (by_buckets symbols.new buckets.new) objects.new) c.new }
    ensures upper_bound { IfOk result (Numbered c.new) }
{
    let h = open_node(nodes, objects, c)?;
    let n = read_words(input, references, c, 2)?;
    let end = c.references;
    let start = end - n * 2;
    let d = read_members(
        input, nodes, references, bytes, symbols, objects, buckets, c, start, end, more, NONE,
        levels,
    )?;
    fill_node(
        nodes,
        h,
        Node::HASH,
        start as u32,
        n as u32,
        0,
        d as u32 + more as u32,
        class,
    );
    Ok(h)
}

#[cycle(readers)]
fn read_object(
    input: &[u8],
    nodes: &mut [u32],
    references: &mut [u32],
    bytes: &mut [u8],
    symbols: &mut [u32],
    objects: &mut [u32],
    buckets: &mut [u32],
    c: &mut Progress,
    levels: u32,
) -> Result<usize, Stop>
    requires { Held input.now (lent nodes.old references.old bytes.old (by_buckets symbols.old buckets.old) objects.old) c.old }
    ensures meets { (room : Room) (limit : ℕ) → Meets input.now room limit (read_object input.now room (read_value input.now room limit levels)) (lent nodes.old references.old bytes.old (by_buckets symbols.old buckets.old) objects.old) c.old result (lent nodes.new references.new bytes.new (by_buckets symbols.new buckets.new) objects.new) c.new }
    ensures upper_bound { IfOk result (Numbered c.new) }
{
    let h = open_node(nodes, objects, c)?;
    let name = read_symbol_like(input, nodes, bytes, symbols, buckets, c)?;
    let n = read_words(input, references, c, 2)?;
    let end = c.references;
    let start = end - n * 2;
    read_members(
        input,
        nodes,
        references,
        bytes,
        symbols,
        objects,
        buckets,
        c,
        start,
        end,
        0,
        end % 2,
        levels,
    )?;
    fill_node(
        nodes,
        h,
        Node::OBJECT,
        start as u32,
        n as u32,
        name as u32,
        0,
        0,
    );
    Ok(h)
}

// The value after `I`, which is noted where dump writes no `I` before it; a string, which is the most frequent, with no call
// of the reader of members.
#[cycle(readers)]
fn read_inner(
    input: &[u8],
    nodes: &mut [u32],
    references: &mut [u32],
    bytes: &mut [u8],
    symbols: &mut [u32],
    objects: &mut [u32],
    buckets: &mut [u32],
    c: &mut Progress,
    levels: u32,
) -> Result<usize, Stop>
    requires { Held input.now (lent nodes.old references.old bytes.old (by_buckets symbols.old buckets.old) objects.old) c.old }
    ensures meets { (room : Room) (limit : ℕ) → Meets input.now room limit (after_i input.now (read_value input.now room limit levels)) (lent nodes.old references.old bytes.old (by_buckets symbols.old buckets.old) objects.old) c.old result (lent nodes.new references.new bytes.new (by_buckets symbols.new buckets.new) objects.new) c.new }
    ensures upper_bound { IfOk result (Numbered c.new) }
{
    let at = c.at;
    if 0 < levels {
        if at < input.len() {
            if input[at] == ValueKind::STRING {
                c.at = at + 1;
                return read_leaf(
                    input,
                    nodes,
                    bytes,
                    symbols,
                    objects,
                    buckets,
                    c,
                    ValueKind::STRING,
                    0,
                );
            }
        }
    }
    note_inner(input, c);
    read_members(
        input, nodes, references, bytes, symbols, objects, buckets, c, 0, 0, 1, NONE, levels,
    )
}

// What follows `I`: a value, then its variables; only then it is tested whether it can have any.
#[cycle(readers)]
fn read_variables(
    input: &[u8],
    nodes: &mut [u32],
    references: &mut [u32],
    bytes: &mut [u8],
    symbols: &mut [u32],
    objects: &mut [u32],
    buckets: &mut [u32],
    c: &mut Progress,
    levels: u32,
) -> Result<usize, Stop>
    requires { Held input.now (lent nodes.old references.old bytes.old (by_buckets symbols.old buckets.old) objects.old) c.old }
    ensures meets { (room : Room) (limit : ℕ) → Meets input.now room limit (read_variables input.now room (read_value input.now room limit levels)) (lent nodes.old references.old bytes.old (by_buckets symbols.old buckets.old) objects.old) c.old result (lent nodes.new references.new bytes.new (by_buckets symbols.new buckets.new) objects.new) c.new }
    ensures upper_bound { IfOk result (Numbered c.new) }
{
    let h = read_inner(
        input, nodes, references, bytes, symbols, objects, buckets, c, levels,
    )?;
    let n = read_words(input, references, c, 2)?;
    let end = c.references;
    let start = end - n * 2;
    read_members(
        input,
        nodes,
        references,
        bytes,
        symbols,
        objects,
        buckets,
        c,
        start,
        end,
        0,
        end % 2,
        levels,
    )?;
    set_variables(nodes, h, start as u32, n as u32)
}

// A value, while there are levels left: its class, its kind byte, and the rest.
#[cycle(readers)]
fn read_value(
    input: &[u8],
    nodes: &mut [u32],
    references: &mut [u32],
    bytes: &mut [u8],
    symbols: &mut [u32],
    objects: &mut [u32],
    buckets: &mut [u32],
    c: &mut Progress,
    levels: u32,
) -> Result<usize, Stop>
    requires { Held input.now (lent nodes.old references.old bytes.old (by_buckets symbols.old buckets.old) objects.old) c.old }
    ensures meets { (room : Room) (limit : ℕ) → Meets input.now room limit (read_value input.now room limit levels) (lent nodes.old references.old bytes.old (by_buckets symbols.old buckets.old) objects.old) c.old result (lent nodes.new references.new bytes.new (by_buckets symbols.new buckets.new) objects.new) c.new }
    ensures upper_bound { IfOk result (Numbered c.new) }
{
    if levels == 0 {
        return Err(Stop::TOO_DEEP);
    }
    let class = read_class(input, nodes, bytes, symbols, buckets, c)?;
    let at = c.at;
    if input.len() <= at {
        return Err(Stop::SHORT_INPUT);
    }
    let k = input[at];
    c.at = at + 1;
    match k {
        ValueKind::ARRAY => read_array(
            input,
            nodes,
            references,
            bytes,
            symbols,
            objects,
            buckets,
            c,
            levels - 1,
            class as u32,
        ),
        ValueKind::HASH | ValueKind::HASH_DEFAULT => read_hash(
            input,
            nodes,
            references,
            bytes,
            symbols,
            objects,
            buckets,
            c,
            defaults(k),
            levels - 1,
            class as u32,
        ),
        ValueKind::OBJECT => read_object(
            input,
            nodes,
            references,
            bytes,
            symbols,
            objects,
            buckets,
            c,
            levels - 1,
        ),
        ValueKind::INSTANCE_VARIABLES => read_variables(
            input,
            nodes,
            references,
            bytes,
            symbols,
            objects,
            buckets,
            c,
            levels - 1,
        ),
        _ => read_leaf(
            input,
            nodes,
            bytes,
            symbols,
            objects,
            buckets,
            c,
            k,
            class as u32,
        ),
    }
}

// The header and the root value.
pub fn read_root(
    input: &[u8],
    nodes: &mut [u32],
    references: &mut [u32],
    bytes: &mut [u8],
    symbols: &mut [u32],
    objects: &mut [u32],
    buckets: &mut [u32],
    c: &mut Progress,
    limit: u32,
) -> Result<usize, Stop>
    requires { Held input.now (lent nodes.old references.old bytes.old (by_buckets symbols.old buckets.old) objects.old) c.old }
    ensures meets { (room : Room) → Meets input.now room limit (whole input.now room limit) (lent nodes.old references.old bytes.old (by_buckets symbols.old buckets.old) objects.old) c.old result (lent nodes.new references.new bytes.new (by_buckets symbols.new buckets.new) objects.new) c.new }
    ensures upper_bound { IfOk result (Numbered c.new) }
{
    read_header(input, c)?;
    read_members(
        input, nodes, references, bytes, symbols, objects, buckets, c, 0, 0, 1, NONE, limit,
    )
}
