// Dump's writers of bytes, integers, Bignums' numbers, symbols and scalars, what they count and what they answer.
#![tactic(auto)]

ghost use Rattle.std.specs.Prelude.{◌≡◌, List, [], ◌∷◌, ◌++◌, ℕ, suc, ◌+◌, ◌-◌, ◌*◌, ◌<◌, ◌≤◌, length, get_or, take, drop};
ghost use Rattle.std.proofs.lemmas.List.Edits.{sets};
ghost use Rattle.definition.specs.Integer.{integer_bytes, low_bytes, fewest};
ghost use Rattle.definition.specs.Magnitude.{magnitude, sign_byte, bignum_bytes};
ghost use Rattle.definition.specs.Node.{width, kind};
ghost use Rattle.definition.specs.Arena.{Arena, node, range};
ghost use Rattle.definition.specs.Dump.{Writer, write, write_name, write_class, write_elements, write_row, write_value};
ghost use Rattle.well_formed.specs.Right.{ListIn, ClassRight};
ghost use Rattle.writer.specs.Held.{buffers, Noded, Lent, Listed, Ready, IsSymbol, named, Meets, Shorts, Short, Goes};

use bignum::{fewest_units, magnitude_of};
use definition::{Bignum, Node, ValueKind};
use store::copy_to;

// What is counted meanwhile: bytes written, symbols and objects numbered. Tables, scratch, output and this are handed on one by
// one: as two structs, the tables and the rest, dump takes 6% longer for setpoints and 11% for names.
#[derive(Clone, Copy)]
pub struct Progress {
    pub written: usize,
    pub symbols: usize,
    pub objects: usize,
}

// Why a writer stops: the output is full, or no level is left.
#[derive(Clone, Copy)]
pub enum Stop {
    NoSpace,
    TooDeep,
}

// ---- bytes and integers

pub fn write_byte(output: &mut [u8], c: &mut Progress, b: u8) -> Result<(), Stop>
    ensures { (A : Arena) (room limit : ℕ) (sc : List ℕ) → Meets A room limit (write room (b ∷ [])) (buffers sc output.old) c.old result (buffers sc output.new) c.new }
{
    let at = c.written;
    if at < output.len() {
        output[at] = b;
        c.written = at + 1;
        return Ok(());
    }
    Err(Stop::NoSpace)
}

// The lowest n bytes of v, lowest first, from byte `at` on.
fn store_low(output: &mut [u8], at: usize, n: usize, v: u32)
    requires { at + n ≤ length output.old }
    ensures { output.new ≡ sets output.old at (low_bytes n v) }
{
    let mut w = v;
    for i in 0..n {
        output[at + i] = (w % 256) as u8;
        w /= 256;
    }
}

// The fewest data bytes, from the leading zero bits.
fn data_bytes(v: u32) -> u32
    ensures value { result ≡ fewest v }
    ensures upper_bound { (result ≤ 4) × (0 < v → 1 ≤ result) }
{
    (39 - u32::leading_zeros(v)) / 8
}

// How many bytes an integer takes.
fn fixnum_size(v: u32) -> usize
    ensures { result ≡ length (integer_bytes v) }
{
    if v < 123 {
        return 1;
    }
    if v < 2147483648 {
        return 1 + data_bytes(v) as usize;
    }
    if v < 4294967173 {
        return 1 + data_bytes(4294967295 - v) as usize;
    }
    1
}

// A size byte k and n data bytes; how many bytes that is.
fn store_data(output: &mut [u8], at: usize, k: u8, n: usize, v: u32) -> usize
    requires { at + (n + 1) ≤ length output.old }
    ensures output_after { output.new ≡ sets output.old at (k ∷ low_bytes n v) }
    ensures value { result ≡ n + 1 }
{
    output[at] = k;
    store_low(output, at + 1, n, v);
    n + 1
}

// An integer from byte `at` on; how many bytes it takes.
fn store_fixnum(output: &mut [u8], at: usize, v: u32) -> usize
    requires { at + length (integer_bytes v) ≤ length output.old }
    ensures output_after { output.new ≡ sets output.old at (integer_bytes v) }
    ensures value { result ≡ length (integer_bytes v) }
{
    if v == 0 {
        output[at] = 0;
        return 1;
    }
    if v <= 122 {
        output[at] = (v + 5) as u8;
        return 1;
    }
    if v < 2147483648 {
        let n = data_bytes(v);
        return store_data(output, at, n as u8, n as usize, v);
    }
    if v < 4294967173 {
        let n = data_bytes(4294967295 - v);
        return store_data(output, at, (256 - n) as u8, n as usize, v);
    }
    output[at] = ((v - 5) % 256) as u8;
    1
}

pub fn write_fixnum(output: &mut [u8], c: &mut Progress, v: u32) -> Result<(), Stop>
    ensures { (A : Arena) (room limit : ℕ) (sc : List ℕ) → Meets A room limit (write room (integer_bytes v)) (buffers sc output.old) c.old result (buffers sc output.new) c.new }
{
    let at = c.written;
    let n = fixnum_size(v);
    if n <= output.len() {
        if at <= output.len() - n {
            store_fixnum(output, at, v);
            c.written = at + n;
            return Ok(());
        }
    }
    Err(Stop::NoSpace)
}

// A kind byte and an integer from byte `at` on; the place after them.
fn store_tagged(output: &mut [u8], at: usize, k: u8, v: u32) -> usize
    requires { at + 1 + length (integer_bytes v) ≤ length output.old }
    ensures output_after { output.new ≡ sets output.old at (k ∷ integer_bytes v) }
    ensures value { result ≡ at + 1 + length (integer_bytes v) }
{
    output[at] = k;
    at + 1 + store_fixnum(output, at + 1, v)
}

pub fn write_tagged(output: &mut [u8], c: &mut Progress, k: u8, v: u32) -> Result<(), Stop>
    ensures { (A : Arena) (room limit : ℕ) (sc : List ℕ) → Meets A room limit (write room (k ∷ integer_bytes v)) (buffers sc output.old) c.old result (buffers sc output.new) c.new }
{
    let at = c.written;
    let n = fixnum_size(v);
    if n < output.len() {
        if at < output.len() - n {
            c.written = store_tagged(output, at, k, v);
            return Ok(());
        }
    }
    Err(Stop::NoSpace)
}

// The length n and n bytes from `start` on.
pub fn write_byte_string(
    bytes: &[u8],
    output: &mut [u8],
    c: &mut Progress,
    start: u32,
    n: u32,
) -> Result<(), Stop>
    requires { start + n ≤ length bytes.now }
    ensures { (A : Arena) (room limit : ℕ) (sc : List ℕ) → Meets A room limit (write room (integer_bytes n ++ take n (drop start bytes.now))) (buffers sc output.old) c.old result (buffers sc output.new) c.new }
{
    write_fixnum(output, c, n)?;
    let at = c.written;
    let from = start as usize;
    let count = n as usize;
    if count <= output.len() {
        if at <= output.len() - count {
            copy_to(&bytes[from..from + count], output, at);
            c.written = at + count;
            return Ok(());
        }
    }
    Err(Stop::NoSpace)
}

// Byte k, and a byte string.
pub fn write_text(
    bytes: &[u8],
    output: &mut [u8],
    c: &mut Progress,
    k: u8,
    start: u32,
    n: u32,
) -> Result<(), Stop>
    requires { start + n ≤ length bytes.now }
    ensures { (A : Arena) (room limit : ℕ) (sc : List ℕ) → Meets A room limit (write room (k ∷ (integer_bytes n ++ take n (drop start bytes.now)))) (buffers sc output.old) c.old result (buffers sc output.new) c.new }
{
    write_byte(output, c, k)?;
    write_byte_string(bytes, output, c, start, n)
}

// ---- a Bignum's number

// A unit from byte `at` on: its low byte, then its high one.
fn store_unit(output: &mut [u8], at: usize, u: u64)
    requires { at + 2 ≤ length output.old }
    ensures { output.new ≡ sets output.old at (low_bytes 2 u) }
{
    output[at] = (u % 256) as u8;
    output[at + 1] = (u / 256 % 256) as u8;
}

// The lowest n units of a magnitude, the lowest first, from byte `at` on. One after the other: with a loop here the compiler
// has fewer registers for all that dump writes.
fn store_units(output: &mut [u8], at: usize, n: u32, m: u64)
    requires { (n ≤ 4) × (at + n * 2 ≤ length output.old) }
    ensures { output.new ≡ sets output.old at (low_bytes (n * 2) m) }
{
    if n == 0 {
        return;
    }
    store_unit(output, at, m);
    if n == 1 {
        return;
    }
    store_unit(output, at + 2, m / 65536);
    if n == 2 {
        return;
    }
    store_unit(output, at + 4, m / 4294967296);
    if n == 3 {
        return;
    }
    store_unit(output, at + 6, m / 281474976710656);
}

// The lowest n units of a magnitude.
fn write_units(output: &mut [u8], c: &mut Progress, n: u32, m: u64) -> Result<(), Stop>
    requires { n ≤ 4 }
    ensures { (A : Arena) (room limit : ℕ) (sc : List ℕ) → Meets A room limit (write room (low_bytes (n * 2) m)) (buffers sc output.old) c.old result (buffers sc output.new) c.new }
{
    let at = c.written;
    let k = n as usize * 2;
    if k <= output.len() {
        if at <= output.len() - k {
            store_units(output, at, n, m);
            c.written = at + k;
            return Ok(());
        }
    }
    Err(Stop::NoSpace)
}

fn sign_byte(minus: bool) -> u8
    ensures { result ≡ sign_byte minus }
{
    if minus { Bignum::MINUS } else { Bignum::PLUS }
}

// The sign, how many units the magnitude has, and the units.
pub fn write_bignum(
    output: &mut [u8],
    c: &mut Progress,
    minus: bool,
    low: u32,
    high: u32,
) -> Result<(), Stop>
    ensures { (A : Arena) (room limit : ℕ) (sc : List ℕ) → Meets A room limit (write room (bignum_bytes minus (magnitude low high))) (buffers sc output.old) c.old result (buffers sc output.new) c.new }
{
    let m = magnitude_of(low, high);
    let n = fewest_units(m);
    write_tagged(output, c, sign_byte(minus), n)?;
    write_units(output, c, n, m)
}

// ---- symbols and scalars

// A symbol, or a link where it has a number.
pub fn write_symbol(
    nodes: &[u32],
    bytes: &[u8],
    scratch: &mut [u32],
    output: &mut [u8],
    c: &mut Progress,
    v: usize,
) -> Result<(), Stop>
    requires { Ready (λ A. Lent A nodes.now bytes.now × IsSymbol A v) (buffers scratch.old output.old) c.old }
    ensures { (A : Arena) (room limit : ℕ) → Lent A nodes.now bytes.now → IsSymbol A v → Meets A room limit (write_name room A v) (buffers scratch.old output.old) c.old result (buffers scratch.new output.new) c.new }
{
    let seen = scratch[v];
    if seen != 0 {
        return write_tagged(output, c, ValueKind::SYMBOL_LINK, seen - 1);
    }
    let number = c.symbols + 1;
    scratch[v] = number as u32;
    c.symbols = number;
    write_text(
        bytes,
        output,
        c,
        ValueKind::SYMBOL,
        nodes[v * Node::WIDTH + Node::START],
        nodes[v * Node::WIDTH + Node::LENGTH],
    )
}

// Byte k, and a name.
pub fn write_named(
    nodes: &[u32],
    bytes: &[u8],
    scratch: &mut [u32],
    output: &mut [u8],
    c: &mut Progress,
    k: u8,
    v: usize,
) -> Result<(), Stop>
    requires { Ready (λ A. Lent A nodes.now bytes.now × IsSymbol A v) (buffers scratch.old output.old) c.old }
    ensures { (A : Arena) (room limit : ℕ) → Lent A nodes.now bytes.now → IsSymbol A v → Meets A room limit (named room A k v) (buffers scratch.old output.old) c.old result (buffers scratch.new output.new) c.new }
{
    write_byte(output, c, k)?;
    write_symbol(nodes, bytes, scratch, output, c, v)
}

// A class, where there is one.
pub fn write_class(
    nodes: &[u32],
    bytes: &[u8],
    scratch: &mut [u32],
    output: &mut [u8],
    c: &mut Progress,
    class: u32,
) -> Result<(), Stop>
    requires { Ready (λ A. Lent A nodes.now bytes.now × ClassRight A class) (buffers scratch.old output.old) c.old }
    ensures { (A : Arena) (room limit : ℕ) → Lent A nodes.now bytes.now → ClassRight A class → Meets A room limit (write_class room A class) (buffers scratch.old output.old) c.old result (buffers scratch.new output.new) c.new }
{
    if class == 0 {
        return Ok(());
    }
    write_named(
        nodes,
        bytes,
        scratch,
        output,
        c,
        ValueKind::USER_CLASS,
        (class - 1) as usize,
    )
}

// nil, a bool, an integer or a symbol.
pub fn write_scalar(
    nodes: &[u32],
    bytes: &[u8],
    scratch: &mut [u32],
    output: &mut [u8],
    c: &mut Progress,
    v: usize,
) -> Result<(), Stop>
    requires { Ready (λ A. Lent A nodes.now bytes.now × (v < length A.nodes)) (buffers scratch.old output.old) c.old }
    ensures { (A : Arena) (room limit : ℕ) (level : Writer) (inner : ℕ → Writer) → Lent A nodes.now bytes.now → v < length A.nodes → kind (node A v) ≤ 3 → Meets A room limit (write_row room A level inner v (node A v)) (buffers scratch.old output.old) c.old result (buffers scratch.new output.new) c.new }
{
    match nodes[v * Node::WIDTH] {
        Node::FIXNUM => write_tagged(
            output,
            c,
            ValueKind::FIXNUM,
            nodes[v * Node::WIDTH + Node::VALUE],
        ),
        Node::SYMBOL => write_symbol(nodes, bytes, scratch, output, c, v),
        Node::BOOL => {
            let k = if nodes[v * Node::WIDTH + Node::VALUE] == 1 {
                ValueKind::TRUE
            } else {
                ValueKind::FALSE
            };
            write_byte(output, c, k)
        }
        _ => write_byte(output, c, ValueKind::NIL),
    }
}

// Node v from byte `at` on, where it is an integer or a symbol with a number and six bytes are free: the place after it, else 0.
fn write_short(nodes: &[u32], scratch: &[u32], output: &mut [u8], at: usize, v: usize) -> usize
    requires { (v * width + width ≤ length nodes.now) × (v < length scratch.now) }
    ensures shorts { (A : Arena) (room limit levels : ℕ) (counts : Progress) → Noded A nodes.now → v < length A.nodes → counts.written ≡ at → Shorts A room (write_value room A limit (suc levels) v) scratch.now output.old counts result output.new }
    ensures fact { Short nodes.now scratch.now (length output.old) at v → result ≡ 0 → ⊥ }
{
    if output.len() < 6 {
        return 0;
    }
    if output.len() - 6 < at {
        return 0;
    }
    let k = nodes[v * Node::WIDTH];
    if k == Node::FIXNUM {
        return store_tagged(
            output,
            at,
            ValueKind::FIXNUM,
            nodes[v * Node::WIDTH + Node::VALUE],
        );
    }
    if k != Node::SYMBOL {
        return 0;
    }
    let seen = scratch[v];
    if seen == 0 {
        return 0;
    }
    store_tagged(output, at, ValueKind::SYMBOL_LINK, seen - 1)
}

// Integers and links to symbols among the n values from reference `start` on, as far as they come one after the other: how many.
pub fn write_shorts(
    nodes: &[u32],
    references: &[u32],
    scratch: &[u32],
    output: &mut [u8],
    c: &mut Progress,
    start: usize,
    n: usize,
) -> usize
    requires { Ready (λ A. Noded A nodes.now × Listed A references.now × ListIn A start n) (buffers scratch.now output.old) c.old }
    ensures upper_bound { result ≤ n }
    ensures goes { (A : Arena) (room limit levels : ℕ) → Noded A nodes.now → Listed A references.now → ListIn A start n → Goes A room (write_elements (write_value room A limit (suc levels)) (range A.references start n)) (buffers scratch.now output.old) c.old (write_elements (write_value room A limit (suc levels)) (range A.references (start + result) (n - result))) (buffers scratch.now output.new) c.new }
    ensures fact { result < n → Short nodes.now scratch.now (length output.new) (c.new.written) (get_or references.now (start + result) 0) → ⊥ }
{
    let mut at = c.written;
    for i in 0..n {
        let p = write_short(
            nodes,
            &scratch[..],
            output,
            at,
            references[start + i] as usize,
        );
        if p == 0 {
            c.written = at;
            return i;
        }
        at = p;
    }
    c.written = at;
    n
}
