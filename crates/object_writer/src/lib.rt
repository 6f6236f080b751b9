// What dump writes first of an object: a link or its number, `I`, its class, its byte, a count, a byte string or a Bignum's number.
#![tactic(auto)]

ghost use Rattle.std.specs.Prelude.{◌≡◌, [], ◌∷◌, ◌++◌, ℕ, ◌+◌, ◌*◌, ◌≤◌, eqb, length, get_or, take, drop};
ghost use Rattle.definition.specs.Integer.{integer_bytes};
ghost use Rattle.definition.specs.Kind.{BIGNUM};
ghost use Rattle.definition.specs.Magnitude.{magnitude, bignum_bytes};
ghost use Rattle.definition.specs.Node.{width, START, LENGTH, COUNT};
ghost use Rattle.definition.specs.Arena.{Arena};
ghost use Rattle.definition.specs.Dump.{write_level, write_object_or_link};
ghost use Rattle.well_formed.specs.Right.{ClassRight};
ghost use Rattle.writer.specs.Held.{buffers, Noded, Lent, Ready};
ghost use Rattle.object_writer.specs.Values.{IsObject, Opens, begun, opened, classed, texted};

use definition::{Node, ValueKind};
use writer::{Progress, Stop, write_bignum, write_byte, write_class, write_tagged, write_text};

// How far a value is: more of it comes, or it is whole.
#[derive(Clone, Copy)]
pub enum Opened {
    More,
    Whole,
}

// A link where node v has a number; else its number.
pub fn number_object(
    scratch: &mut [u32],
    output: &mut [u8],
    c: &mut Progress,
    v: usize,
) -> Result<Opened, Stop>
    requires { Ready (λ A. IsObject A v) (buffers scratch.old output.old) c.old }
    ensures { (A : Arena) (room limit : ℕ) → IsObject A v → Opens A room limit (write_object_or_link room v) (buffers scratch.old output.old) c.old result (buffers scratch.new output.new) c.new }
{
    let seen = scratch[v];
    if seen == 0 {
        let number = c.objects + 1;
        scratch[v] = number as u32;
        c.objects = number;
        return Ok(Opened::More);
    }
    write_tagged(output, c, ValueKind::OBJECT_LINK, seen - 1)?;
    Ok(Opened::Whole)
}

// Arrays and hashes without a class: the number, byte k and the count n.
pub fn open_list(
    scratch: &mut [u32],
    output: &mut [u8],
    c: &mut Progress,
    v: usize,
    k: u8,
    n: u32,
) -> Result<Opened, Stop>
    requires { Ready (λ A. IsObject A v) (buffers scratch.old output.old) c.old }
    ensures { (A : Arena) (room limit : ℕ) → IsObject A v → Opens A room limit (opened room v (k ∷ integer_bytes n)) (buffers scratch.old output.old) c.old result (buffers scratch.new output.new) c.new }
{
    if let Opened::Whole = number_object(scratch, output, c, v)? {
        return Ok(Opened::Whole);
    }
    write_tagged(output, c, k, n)?;
    Ok(Opened::More)
}

// Those with a class: the number, the class, byte k and the count n.
pub fn open_classed(
    nodes: &[u32],
    bytes: &[u8],
    scratch: &mut [u32],
    output: &mut [u8],
    c: &mut Progress,
    v: usize,
    k: u8,
    n: u32,
    class: u32,
) -> Result<Opened, Stop>
    requires { Ready (λ A. Lent A nodes.now bytes.now × IsObject A v × ClassRight A class) (buffers scratch.old output.old) c.old }
    ensures { (A : Arena) (room limit : ℕ) → Lent A nodes.now bytes.now → IsObject A v → ClassRight A class → Opens A room limit (classed room A v class (k ∷ integer_bytes n)) (buffers scratch.old output.old) c.old result (buffers scratch.new output.new) c.new }
{
    if let Opened::Whole = number_object(scratch, output, c, v)? {
        return Ok(Opened::Whole);
    }
    write_class(nodes, bytes, scratch, output, c, class)?;
    write_tagged(output, c, k, n)?;
    Ok(Opened::More)
}

// Its number, then `I` and a test of the level where the mark f says that there are variables.
pub fn open_marked(
    scratch: &mut [u32],
    output: &mut [u8],
    c: &mut Progress,
    v: usize,
    f: u32,
    levels: u32,
) -> Result<Opened, Stop>
    requires { Ready (λ A. IsObject A v) (buffers scratch.old output.old) c.old }
    ensures { (A : Arena) (room limit : ℕ) → IsObject A v → Opens A room limit (λ rest. write_object_or_link room v (begun room (write_level limit levels) f rest)) (buffers scratch.old output.old) c.old result (buffers scratch.new output.new) c.new }
{
    if let Opened::Whole = number_object(scratch, output, c, v)? {
        return Ok(Opened::Whole);
    }
    if f == 0 {
        return Ok(Opened::More);
    }
    write_byte(output, c, ValueKind::INSTANCE_VARIABLES)?;
    if levels == 0 {
        return Err(Stop::TooDeep);
    }
    Ok(Opened::More)
}

// Likewise, and then the class, byte k and the byte string.
pub fn open_text(
    nodes: &[u32],
    bytes: &[u8],
    scratch: &mut [u32],
    output: &mut [u8],
    c: &mut Progress,
    v: usize,
    k: u8,
    f: u32,
    class: u32,
    levels: u32,
) -> Result<Opened, Stop>
    requires { (get_or nodes.now (v * width + START) 0 + get_or nodes.now (v * width + LENGTH) 0 ≤ length bytes.now) × Ready (λ A. Lent A nodes.now bytes.now × IsObject A v × ClassRight A class) (buffers scratch.old output.old) c.old }
    ensures { (A : Arena) (room limit : ℕ) → Lent A nodes.now bytes.now → IsObject A v → ClassRight A class → Opens A room limit (texted room A v (write_level limit levels) f class (k ∷ (integer_bytes (get_or nodes.now (v * width + LENGTH) 0) ++ take (get_or nodes.now (v * width + LENGTH) 0) (drop (get_or nodes.now (v * width + START) 0) bytes.now)))) (buffers scratch.old output.old) c.old result (buffers scratch.new output.new) c.new }
{
    if let Opened::Whole = open_marked(scratch, output, c, v, f, levels)? {
        return Ok(Opened::Whole);
    }
    write_class(nodes, bytes, scratch, output, c, class)?;
    write_text(
        bytes,
        output,
        c,
        k,
        nodes[v * Node::WIDTH + Node::START],
        nodes[v * Node::WIDTH + Node::LENGTH],
    )?;
    Ok(Opened::More)
}

// A Bignum: its byte and its number.
pub fn open_bignum(
    nodes: &[u32],
    scratch: &mut [u32],
    output: &mut [u8],
    c: &mut Progress,
    v: usize,
) -> Result<Opened, Stop>
    requires { Ready (λ A. Noded A nodes.now × IsObject A v) (buffers scratch.old output.old) c.old }
    ensures { (A : Arena) (room limit : ℕ) → IsObject A v → Opens A room limit (opened room v (BIGNUM ∷ bignum_bytes (eqb (get_or nodes.now (v * width + COUNT) 0) 1) (magnitude (get_or nodes.now (v * width + START) 0) (get_or nodes.now (v * width + LENGTH) 0)))) (buffers scratch.old output.old) c.old result (buffers scratch.new output.new) c.new }
{
    if let Opened::Whole = number_object(scratch, output, c, v)? {
        return Ok(Opened::Whole);
    }
    write_byte(output, c, ValueKind::BIGNUM)?;
    write_bignum(
        output,
        c,
        nodes[v * Node::WIDTH + Node::SIGN] == 1,
        nodes[v * Node::WIDTH + Node::LOW],
        nodes[v * Node::WIDTH + Node::HIGH],
    )?;
    Ok(Opened::More)
}
