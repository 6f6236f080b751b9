// Values without members, and the class before a value.
//
// What is lent and how far the load has come, `c`, hold a state of the definition before a call. What is answered is the
// value that the definition's reader gives there, and a state is held again; or it is the reader's refusal.
#![tactic(auto)]

ghost use Rattle.std.specs.Prelude.{◌≡◌, List, [], ◌∷◌, ℕ, ◌+◌, ◌*◌, ◌/◌, ◌%◌, ◌<◌, ◌≤◌, ◌⊎◌, eqb, IfOk, length, get_or};
ghost use Rattle.definition.specs.Integer.{low_bytes};
ghost use Rattle.definition.specs.Magnitude.{sign, sign_byte, bignum_row};
ghost use Rattle.definition.specs.Kind.{STRING, USER_CLASS, PLUS, MINUS};
ghost use Rattle.definition.specs.Node.{Row, words};
ghost use Rattle.definition.specs.State.{Room, Reader};
ghost use Rattle.definition.specs.Load.{read_fixnum, read_object_link, read_text, read_user_defined, read_sign, read_magnitude, read_bignum, add_bignum, add_object_node};
ghost use Rattle.load_state.specs.Holds.{Symbols, Lent, lent, by_buckets, Held, Somewhere, Goes, Leads, Meets, Plain, Numbered};
ghost use Rattle.leaf_reader.specs.Parts.{Leaf, read_number, WORD};
ghost use Rattle.leaf_reader.specs.Classes.{wrappable, named_class, read_class, valued, Follows};

use bignum::{fewest_units, magnitude_at};
use definition::{Bignum, Node, ValueKind};
use input_reader::{read_byte_string, read_count, read_integer};
use load_state::Progress;
use reader::{Stop, sign_byte};
use symbol_reader::{read_symbol, read_symbol_like, read_symbol_link};
use table_writer::{add_bytes, add_node, add_object_node};

// A magnitude is two words of its node, each below this.
const WORD: u64 = 4294967296;

// The entry of the object list that the index read names.
fn read_object_link(input: &[u8], objects: &[u32], c: &mut Progress) -> Result<usize, Stop>
    requires { (no : List ℕ) × (re : List ℕ) × (by : List ℕ) × (sy : Symbols) × Held input.now (lent no re by sy objects.now) c.old }
    ensures meets { (room : Room) (limit : ℕ) (no re by : List ℕ) (sy : Symbols) → Meets input.now room limit (read_object_link input.now) (lent no re by sy objects.now) c.old result (lent no re by sy objects.now) c.new }
    ensures upper_bound { IfOk result (Numbered c.new) }
{
    let n = read_count(input, c)?;
    if c.objects <= n {
        return Err(Stop::missing_object(n as u32));
    }
    Ok(objects[n] as usize)
}

// A node of the integer read.
fn read_fixnum(input: &[u8], nodes: &mut [u32], c: &mut Progress) -> Result<usize, Stop>
    requires { (re : List ℕ) × (by : List ℕ) × (sy : Symbols) × (ob : List ℕ) × Held input.now (lent nodes.old re by sy ob) c.old }
    ensures meets { (room : Room) (limit : ℕ) (re by : List ℕ) (sy : Symbols) (ob : List ℕ) → Meets input.now room limit (read_fixnum input.now room) (lent nodes.old re by sy ob) c.old result (lent nodes.new re by sy ob) c.new }
    ensures upper_bound { IfOk result (Numbered c.new) }
{
    let n = read_integer(input, c)?;
    add_node(nodes, c, Node::FIXNUM, n as u32, 0, 0, 0, 0)
}

// A byte string and its node: a string's with its class, a float's, or a user-defined's with its name.
fn read_text(
    input: &[u8],
    nodes: &mut [u32],
    bytes: &mut [u8],
    objects: &mut [u32],
    c: &mut Progress,
    kind: u32,
    name: u32,
    class: u32,
) -> Result<usize, Stop>
    requires { (re : List ℕ) × (sy : Symbols) × Held input.now (lent nodes.old re bytes.old sy objects.old) c.old }
    ensures by_index { (room : Room) (limit : ℕ) (row : ℕ → ℕ → Row) (re : List ℕ) (sy : Symbols) → ((start n : ℕ) → words (row start n) ≡ kind ∷ start ∷ n ∷ 0 ∷ 0 ∷ name ∷ 0 ∷ class ∷ []) → ((start n : ℕ) → Plain (row start n)) → Meets input.now room limit (read_text input.now room row) (lent nodes.old re bytes.old sy objects.old) c.old result (lent nodes.new re bytes.new sy objects.new) c.new }
    ensures upper_bound { IfOk result (Numbered c.new) }
{
    let n = read_byte_string(input, c)?;
    let start = add_bytes(input, bytes, c, n)?;
    add_object_node(
        nodes,
        objects,
        c,
        kind,
        start as u32,
        n as u32,
        0,
        name,
        class,
    )
}

// A Bignum's sign byte.
fn read_sign(input: &[u8], c: &mut Progress) -> Result<usize, Stop>
    requires { Somewhere input.now c.old }
    ensures meets { (room : Room) (limit : ℕ) (T : Lent) → Meets input.now room limit (read_sign input.now) T c.old result T c.new }
    ensures fact { IfOk result (λ b. (b ≡ PLUS) ⊎ (b ≡ MINUS)) }
{
    let at = c.at;
    if input.len() <= at {
        return Err(Stop::SHORT_INPUT);
    }
    c.at = at + 1;
    sign_byte(input[at])
}

// The count of a Bignum's units, which are there and are left; a count that is too great comes before units that are not.
fn read_units(input: &[u8], c: &mut Progress) -> Result<usize, Stop>
    requires { Somewhere input.now c.old }
    ensures leads { (room : Room) (limit b : ℕ) (T : Lent) → Leads input.now room limit (read_number input.now room b) (read_magnitude input.now room b) T c.old result T c.new }
    ensures upper_bound { IfOk result (λ n. (n ≤ 4) × (c.new.at + n * 2 ≤ length input.now)) }
{
    let n = read_count(input, c)?;
    if Bignum::UNITS < n as u64 {
        return Err(Stop::too_big(n as u32));
    }
    if input.len() - c.at < n * 2 {
        return Err(Stop::SHORT_INPUT);
    }
    Ok(n)
}

// A magnitude's sign as its node has it, by the sign byte: zero is plus.
fn sign_word(b: usize, m: u64) -> u32
    ensures { words (bignum_row (eqb b MINUS) m) ≡ 10 ∷ m % WORD ∷ m / WORD ∷ 0 ∷ result ∷ 0 ∷ 0 ∷ 0 ∷ [] }
{
    if b != Bignum::MINUS as usize {
        return 0;
    }
    if m == 0 {
        return 0;
    }
    1
}

// Does dump write a magnitude with the sign byte b? Not zero with a minus.
fn keeps_sign(b: usize, m: u64) -> bool
    requires { (b ≡ PLUS) ⊎ (b ≡ MINUS) }
    ensures { result ≡ eqb b (sign_byte (sign (eqb b MINUS) m)) }
{
    if b != Bignum::MINUS as usize {
        return true;
    }
    m != 0
}

// That dump writes a magnitude with another sign byte than b, or with other units than n, is noted.
fn note_bignum(c: &mut Progress, b: usize, n: usize, m: u64)
    requires { (b ≡ PLUS) ⊎ (b ≡ MINUS) }
    ensures { (input : List ℕ) (room : Room) (T : Lent) → Goes input room (add_bignum room b (low_bytes (n * 2) m) m) T c.old (add_object_node room (bignum_row (eqb b MINUS) m)) T c.new }
{
    if keeps_sign(b, m) & (n == fewest_units(m) as usize) {
        return;
    }
    c.form = false;
}

// The node of the magnitude that n units at the offset say, which are passed.
fn read_magnitude(
    input: &[u8],
    nodes: &mut [u32],
    objects: &mut [u32],
    c: &mut Progress,
    b: usize,
    n: usize,
) -> Result<usize, Stop>
    requires { ((b ≡ PLUS) ⊎ (b ≡ MINUS)) × (n ≤ 4) × (c.old.at + n * 2 ≤ length input.now) × ((re : List ℕ) × (by : List ℕ) × (sy : Symbols) × Held input.now (lent nodes.old re by sy objects.old) c.old) }
    ensures meets { (room : Room) (limit : ℕ) (re by : List ℕ) (sy : Symbols) → Meets input.now room limit (read_magnitude input.now room b n) (lent nodes.old re by sy objects.old) c.old result (lent nodes.new re by sy objects.new) c.new }
    ensures upper_bound { IfOk result (Numbered c.new) }
{
    let at = c.at;
    let k = n * 2;
    let m = magnitude_at(input, at, k);
    if Bignum::TOO_BIG <= m {
        return Err(Stop::too_big(n as u32));
    }
    c.at = at + k;
    note_bignum(c, b, n, m);
    add_object_node(
        nodes,
        objects,
        c,
        Node::BIGNUM,
        (m % WORD) as u32,
        (m / WORD) as u32,
        sign_word(b, m),
        0,
        0,
    )
}

// A Bignum: its sign byte, its count of units, its units, and its node.
fn read_bignum(
    input: &[u8],
    nodes: &mut [u32],
    objects: &mut [u32],
    c: &mut Progress,
) -> Result<usize, Stop>
    requires { (re : List ℕ) × (by : List ℕ) × (sy : Symbols) × Held input.now (lent nodes.old re by sy objects.old) c.old }
    ensures meets { (room : Room) (limit : ℕ) (re by : List ℕ) (sy : Symbols) → Meets input.now room limit (read_bignum input.now room) (lent nodes.old re by sy objects.old) c.old result (lent nodes.new re by sy objects.new) c.new }
    ensures upper_bound { IfOk result (Numbered c.new) }
{
    let b = read_sign(input, c)?;
    let n = read_units(input, c)?;
    read_magnitude(input, nodes, objects, c, b, n)
}

// A name and a byte string, and their node.
fn read_user_defined(
    input: &[u8],
    nodes: &mut [u32],
    bytes: &mut [u8],
    symbols: &mut [u32],
    objects: &mut [u32],
    buckets: &mut [u32],
    c: &mut Progress,
) -> Result<usize, Stop>
    requires { (re : List ℕ) × Held input.now (lent nodes.old re bytes.old (by_buckets symbols.old buckets.old) objects.old) c.old }
    ensures meets { (room : Room) (limit : ℕ) (re : List ℕ) → Meets input.now room limit (read_user_defined input.now room) (lent nodes.old re bytes.old (by_buckets symbols.old buckets.old) objects.old) c.old result (lent nodes.new re bytes.new (by_buckets symbols.new buckets.new) objects.new) c.new }
    ensures upper_bound { IfOk result (Numbered c.new) }
{
    let name = read_symbol_like(input, nodes, bytes, symbols, buckets, c)?;
    read_text(
        input,
        nodes,
        bytes,
        objects,
        c,
        Node::USER_DEFINED,
        name as u32,
        0,
    )
}

// The kind of the node that is a byte string alone, by the kind byte: a string's or a float's.
fn text_kind(k: u8) -> u32
    ensures { (k ≡ STRING → result ≡ 7) × ((k ≡ STRING → ⊥) → result ≡ 9) }
{
    if k == ValueKind::STRING {
        Node::STRING
    } else {
        Node::FLOAT
    }
}

// A value that has no members, after its kind byte k and with this class, which only a string may have; another kind byte is
// refused.
pub fn read_leaf(
    input: &[u8],
    nodes: &mut [u32],
    bytes: &mut [u8],
    symbols: &mut [u32],
    objects: &mut [u32],
    buckets: &mut [u32],
    c: &mut Progress,
    k: u8,
    class: u32,
) -> Result<usize, Stop>
    requires { (re : List ℕ) × Held input.now (lent nodes.old re bytes.old (by_buckets symbols.old buckets.old) objects.old) c.old }
    ensures meets { (room : Room) (limit : ℕ) (inner : Reader ℕ) (re : List ℕ) → Leaf k → (class ≡ 0) ⊎ (k ≡ STRING) → Meets input.now room limit (valued input.now room inner k class) (lent nodes.old re bytes.old (by_buckets symbols.old buckets.old) objects.old) c.old result (lent nodes.new re bytes.new (by_buckets symbols.new buckets.new) objects.new) c.new }
    ensures upper_bound { IfOk result (Numbered c.new) }
{
    match k {
        ValueKind::FIXNUM => read_fixnum(input, nodes, c),
        ValueKind::SYMBOL_LINK => read_symbol_link(input, symbols, c),
        ValueKind::STRING | ValueKind::FLOAT => {
            read_text(input, nodes, bytes, objects, c, text_kind(k), 0, class)
        }
        ValueKind::SYMBOL => read_symbol(input, nodes, bytes, symbols, buckets, c),
        ValueKind::NIL => add_node(nodes, c, Node::NIL, 0, 0, 0, 0, 0),
        ValueKind::TRUE => add_node(nodes, c, Node::BOOL, 1, 0, 0, 0, 0),
        ValueKind::FALSE => add_node(nodes, c, Node::BOOL, 0, 0, 0, 0, 0),
        ValueKind::OBJECT_LINK => read_object_link(input, objects, c),
        ValueKind::USER_DEFINED => {
            read_user_defined(input, nodes, bytes, symbols, objects, buckets, c)
        }
        ValueKind::BIGNUM => read_bignum(input, nodes, objects, c),
        _ => Err(Stop::invalid_kind(k)),
    }
}

// ---- a class

// Can a value of this kind byte have a class?
fn is_wrappable(k: u8) -> bool
    ensures { result ≡ wrappable k }
{
    (k == ValueKind::STRING)
        | (k == ValueKind::ARRAY)
        | (k == ValueKind::HASH)
        | (k == ValueKind::HASH_DEFAULT)
}

// The name after `C`, which stands at the offset: the class as a node holds it. The kind byte after it is looked at and left.
fn read_class_name(
    input: &[u8],
    nodes: &mut [u32],
    bytes: &mut [u8],
    symbols: &mut [u32],
    buckets: &mut [u32],
    c: &mut Progress,
) -> Result<usize, Stop>
    requires { (c.old.at < length input.now) × ((re : List ℕ) × (ob : List ℕ) × Held input.now (lent nodes.old re bytes.old (by_buckets symbols.old buckets.old) ob) c.old) }
    ensures meets { (room : Room) (limit : ℕ) (re ob : List ℕ) → Meets input.now room limit (named_class input.now room) (lent nodes.old re bytes.old (by_buckets symbols.old buckets.old) ob) c.old result (lent nodes.new re bytes.new (by_buckets symbols.new buckets.new) ob) c.new }
    ensures follows { IfOk result (λ w. Follows w (get_or input.now c.new.at 0) × (w < 4294967296)) }
{
    c.at += 1;
    let name = read_symbol_like(input, nodes, bytes, symbols, buckets, c)?;
    let at = c.at;
    if input.len() <= at {
        return Err(Stop::SHORT_INPUT);
    }
    let k = input[at];
    if !is_wrappable(k) {
        return Err(Stop::not_wrappable(k));
    }
    Ok(name + 1)
}

// The class of the value that comes next, as a node holds it: 0 where no `C` comes.
pub fn read_class(
    input: &[u8],
    nodes: &mut [u32],
    bytes: &mut [u8],
    symbols: &mut [u32],
    buckets: &mut [u32],
    c: &mut Progress,
) -> Result<usize, Stop>
    requires { (re : List ℕ) × (ob : List ℕ) × Held input.now (lent nodes.old re bytes.old (by_buckets symbols.old buckets.old) ob) c.old }
    ensures meets { (room : Room) (limit : ℕ) (re ob : List ℕ) → Meets input.now room limit (read_class input.now room) (lent nodes.old re bytes.old (by_buckets symbols.old buckets.old) ob) c.old result (lent nodes.new re bytes.new (by_buckets symbols.new buckets.new) ob) c.new }
    ensures follows { IfOk result (λ w. Follows w (get_or input.now c.new.at 0) × (w < 4294967296)) }
{
    let at = c.at;
    if input.len() <= at {
        return Ok(0);
    }
    if input[at] != ValueKind::USER_CLASS {
        return Ok(0);
    }
    read_class_name(input, nodes, bytes, symbols, buckets, c)
}
