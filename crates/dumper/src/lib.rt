// What dump's writers do before a value's members; the slices that dump takes.
#![tactic(auto)]

ghost use Rattle.std.specs.Prelude.{◌≡◌, ℕ, ◌+◌, ◌*◌, ◌<◌, length, get_or};
ghost use Rattle.std.specs.declared.result.Result.TheVariants.{Ok};
ghost use Rattle.definition.specs.Node.{width, LIST, COUNT, DEFAULT};
ghost use Rattle.definition.specs.Arena.{Arena, node, range};
ghost use Rattle.definition.specs.Dump.{write_level, write_elements, write_instance_variables, write_row, write_value};
ghost use Rattle.well_formed.specs.Right.{PairsIn};
ghost use Rattle.writer.specs.Held.{buffers, Lent, Listed, Ready};
ghost use Rattle.object_writer.specs.declared.Opened.TheVariants.{More};
ghost use Rattle.object_writer.specs.Values.{Heads};
ghost use Rattle.dumper.specs.Members.{listed, members_of, MembersIn};
ghost use Rattle.dumper.specs.Lengths.{wrong, Allowed};

use arena_check::{first_wrong, too_long, wrong_table};
use definition::{LIMIT, Node, Slice, ValueKind};
use object_writer::{
    Opened, number_object, open_bignum, open_classed, open_list, open_marked, open_text,
};
use writer::{
    Progress, Stop, write_byte_string, write_fixnum, write_named, write_scalar, write_symbol,
};

// The number of pairs. A pair's words are a name and a value, so the pairs are then written as elements; but names have no
// level: where none is left for the first value, its name still comes before the refusal.
fn open_variables(
    nodes: &[u32],
    references: &[u32],
    bytes: &[u8],
    scratch: &mut [u32],
    output: &mut [u8],
    c: &mut Progress,
    start: u32,
    n: u32,
    levels: u32,
) -> Result<Opened, Stop>
    requires { Ready (λ A. Lent A nodes.now bytes.now × Listed A references.now × PairsIn A start n) (buffers scratch.old output.old) c.old }
    ensures { (A : Arena) (room limit : ℕ) → Lent A nodes.now bytes.now → Listed A references.now → PairsIn A start n → Heads A room limit (write_instance_variables room A (write_value room A limit levels) start n) (write_elements (write_value room A limit levels) (range A.references start (n * 2))) (buffers scratch.old output.old) c.old result (buffers scratch.new output.new) c.new }
{
    write_fixnum(output, c, n)?;
    if levels != 0 {
        return Ok(Opened::More);
    }
    if n == 0 {
        return Ok(Opened::More);
    }
    write_symbol(
        nodes,
        bytes,
        scratch,
        output,
        c,
        references[start as usize] as usize,
    )?;
    Err(Stop::TooDeep)
}

// An object: its byte, its name, the number of its variables.
fn open_named(
    nodes: &[u32],
    references: &[u32],
    bytes: &[u8],
    scratch: &mut [u32],
    output: &mut [u8],
    c: &mut Progress,
    v: usize,
    levels: u32,
) -> Result<Opened, Stop>
    requires { (get_or nodes.now (v * width) 0 ≡ 6) × Ready (λ A. Lent A nodes.now bytes.now × Listed A references.now × (v < length A.nodes)) (buffers scratch.old output.old) c.old }
    ensures heads { (A : Arena) (room limit : ℕ) → Lent A nodes.now bytes.now → Listed A references.now → v < length A.nodes → Heads A room limit (write_row room A (write_level limit levels) (write_value room A limit levels) v (node A v)) (members_of room A (write_value room A limit levels) 6 (get_or nodes.now (v * width + LIST) 0) (get_or nodes.now (v * width + COUNT) 0) (get_or nodes.now (v * width + DEFAULT) 0)) (buffers scratch.old output.old) c.old result (buffers scratch.new output.new) c.new }
    ensures members_in { (A : Arena) → Lent A nodes.now bytes.now → v < length A.nodes → result ≡ Ok More → MembersIn A nodes.now v }
{
    if let Opened::Whole = number_object(scratch, output, c, v)? {
        return Ok(Opened::Whole);
    }
    write_named(
        nodes,
        bytes,
        scratch,
        output,
        c,
        ValueKind::OBJECT,
        nodes[v * Node::WIDTH + Node::NAME] as usize,
    )?;
    open_variables(
        nodes,
        references,
        bytes,
        scratch,
        output,
        c,
        nodes[v * Node::WIDTH + Node::LIST],
        nodes[v * Node::WIDTH + Node::COUNT],
        levels,
    )
}

// A string, and the number of its variables where it has a list.
fn open_string(
    nodes: &[u32],
    references: &[u32],
    bytes: &[u8],
    scratch: &mut [u32],
    output: &mut [u8],
    c: &mut Progress,
    v: usize,
    levels: u32,
) -> Result<Opened, Stop>
    requires { (get_or nodes.now (v * width) 0 ≡ 7) × Ready (λ A. Lent A nodes.now bytes.now × Listed A references.now × (v < length A.nodes)) (buffers scratch.old output.old) c.old }
    ensures heads { (A : Arena) (room limit : ℕ) → Lent A nodes.now bytes.now → Listed A references.now → v < length A.nodes → Heads A room limit (write_row room A (write_level limit levels) (write_value room A limit levels) v (node A v)) (members_of room A (write_value room A limit levels) 7 (get_or nodes.now (v * width + LIST) 0) (get_or nodes.now (v * width + COUNT) 0) (get_or nodes.now (v * width + DEFAULT) 0)) (buffers scratch.old output.old) c.old result (buffers scratch.new output.new) c.new }
    ensures members_in { (A : Arena) → Lent A nodes.now bytes.now → v < length A.nodes → result ≡ Ok More → MembersIn A nodes.now v }
{
    let f = nodes[v * Node::WIDTH + Node::VARIABLES];
    if let Opened::Whole = open_text(
        nodes,
        bytes,
        scratch,
        output,
        c,
        v,
        ValueKind::STRING,
        f,
        nodes[v * Node::WIDTH + Node::CLASS],
        levels,
    )? {
        return Ok(Opened::Whole);
    }
    if f == 0 {
        return Ok(Opened::Whole);
    }
    open_variables(
        nodes,
        references,
        bytes,
        scratch,
        output,
        c,
        nodes[v * Node::WIDTH + Node::LIST],
        nodes[v * Node::WIDTH + Node::COUNT],
        levels,
    )
}

// A user-defined value, likewise.
fn open_user_defined(
    nodes: &[u32],
    references: &[u32],
    bytes: &[u8],
    scratch: &mut [u32],
    output: &mut [u8],
    c: &mut Progress,
    v: usize,
    levels: u32,
) -> Result<Opened, Stop>
    requires { (get_or nodes.now (v * width) 0 ≡ 8) × Ready (λ A. Lent A nodes.now bytes.now × Listed A references.now × (v < length A.nodes)) (buffers scratch.old output.old) c.old }
    ensures heads { (A : Arena) (room limit : ℕ) → Lent A nodes.now bytes.now → Listed A references.now → v < length A.nodes → Heads A room limit (write_row room A (write_level limit levels) (write_value room A limit levels) v (node A v)) (members_of room A (write_value room A limit levels) 8 (get_or nodes.now (v * width + LIST) 0) (get_or nodes.now (v * width + COUNT) 0) (get_or nodes.now (v * width + DEFAULT) 0)) (buffers scratch.old output.old) c.old result (buffers scratch.new output.new) c.new }
    ensures members_in { (A : Arena) → Lent A nodes.now bytes.now → v < length A.nodes → result ≡ Ok More → MembersIn A nodes.now v }
{
    let f = nodes[v * Node::WIDTH + Node::VARIABLES];
    if let Opened::Whole = open_marked(scratch, output, c, v, f, levels)? {
        return Ok(Opened::Whole);
    }
    write_named(
        nodes,
        bytes,
        scratch,
        output,
        c,
        ValueKind::USER_DEFINED,
        nodes[v * Node::WIDTH + Node::NAME] as usize,
    )?;
    write_byte_string(
        bytes,
        output,
        c,
        nodes[v * Node::WIDTH + Node::START],
        nodes[v * Node::WIDTH + Node::LENGTH],
    )?;
    if f == 0 {
        return Ok(Opened::Whole);
    }
    open_variables(
        nodes,
        references,
        bytes,
        scratch,
        output,
        c,
        nodes[v * Node::WIDTH + Node::LIST],
        nodes[v * Node::WIDTH + Node::COUNT],
        levels,
    )
}

// A value up to its members; `levels` are those left for them. A list's class is tested here: one without is opened by a call
// of few arguments, and pays no more than that test.
pub fn open_value(
    nodes: &[u32],
    references: &[u32],
    bytes: &[u8],
    scratch: &mut [u32],
    output: &mut [u8],
    c: &mut Progress,
    v: usize,
    levels: u32,
) -> Result<Opened, Stop>
    requires { Ready (λ A. Lent A nodes.now bytes.now × Listed A references.now × (v < length A.nodes)) (buffers scratch.old output.old) c.old }
    ensures heads { (A : Arena) (room limit : ℕ) → Lent A nodes.now bytes.now → Listed A references.now → v < length A.nodes → Heads A room limit (write_row room A (write_level limit levels) (write_value room A limit levels) v (node A v)) (members_of room A (write_value room A limit levels) (get_or nodes.now (v * width) 0) (get_or nodes.now (v * width + LIST) 0) (get_or nodes.now (v * width + COUNT) 0) (get_or nodes.now (v * width + DEFAULT) 0)) (buffers scratch.old output.old) c.old result (buffers scratch.new output.new) c.new }
    ensures members_in { (A : Arena) → Lent A nodes.now bytes.now → v < length A.nodes → result ≡ Ok More → MembersIn A nodes.now v }
{
    match nodes[v * Node::WIDTH] {
        Node::ARRAY => {
            let n = nodes[v * Node::WIDTH + Node::COUNT];
            let class = nodes[v * Node::WIDTH + Node::CLASS];
            if class == 0 {
                return open_list(scratch, output, c, v, ValueKind::ARRAY, n);
            }
            open_classed(
                nodes,
                bytes,
                scratch,
                output,
                c,
                v,
                ValueKind::ARRAY,
                n,
                class,
            )
        }
        Node::HASH => {
            let k = if nodes[v * Node::WIDTH + Node::DEFAULT] == 0 {
                ValueKind::HASH
            } else {
                ValueKind::HASH_DEFAULT
            };
            let n = nodes[v * Node::WIDTH + Node::COUNT];
            let class = nodes[v * Node::WIDTH + Node::CLASS];
            if class == 0 {
                return open_list(scratch, output, c, v, k, n);
            }
            open_classed(nodes, bytes, scratch, output, c, v, k, n, class)
        }
        Node::OBJECT => open_named(nodes, references, bytes, scratch, output, c, v, levels),
        Node::STRING => open_string(nodes, references, bytes, scratch, output, c, v, levels),
        Node::USER_DEFINED => open_user_defined(
            nodes, references, bytes, scratch, output, c, v, levels,
        ),
        Node::FLOAT => {
            open_text(
                nodes,
                bytes,
                scratch,
                output,
                c,
                v,
                ValueKind::FLOAT,
                0,
                0,
                levels,
            )?;
            Ok(Opened::Whole)
        }
        Node::BIGNUM => {
            open_bignum(nodes, scratch, output, c, v)?;
            Ok(Opened::Whole)
        }
        _ => {
            write_scalar(nodes, bytes, scratch, output, c, v)?;
            Ok(Opened::Whole)
        }
    }
}

// How many words a list of n elements or pairs has, by the kind.
pub fn list_words(k: u32, n: u32) -> usize
    ensures { result ≡ listed k n }
{
    if k == Node::ARRAY {
        n as usize
    } else {
        n as usize * 2
    }
}

// BAD-TABLES: the lowest wrong slice's number, or 0.
pub fn wrong_slice(
    nodes: usize,
    references: usize,
    bytes: usize,
    output: usize,
    limit: u32,
    scratch: usize,
) -> u32
    ensures value { result ≡ wrong nodes references bytes output limit scratch }
    ensures allowed { result ≡ 0 → Allowed nodes references bytes output scratch }
{
    let few = scratch < nodes / Node::WIDTH;
    wrong_table(
        nodes,
        references,
        bytes,
        first_wrong(
            Slice::OUTPUT,
            too_long(output),
            first_wrong(
                Slice::LIMIT,
                LIMIT < limit,
                first_wrong(Slice::SCRATCH, too_long(scratch) | few, 0),
            ),
        ),
    )
}
