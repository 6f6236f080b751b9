// The arena's getters and builder on lent tables: value_arena.rs. Tables are slices of their own, since C lends them so.
#![tactic(auto)]

ghost use Rattle.std.specs.Prelude.{◌≡◌, [], ◌∷◌, ℕ, ◌-◌, length};
ghost use Rattle.definition.specs.Run.{Run};
ghost use Rattle.definition.specs.Node.{Row, bool, words};
ghost use Rattle.definition.specs.Arena.{tables_of};
ghost use Rattle.definition.specs.Build.{Lent, lent, build_answer, new_answer, number_answer, words_answer, name_answer, build_call, number_done, words_done, name_done, new_call, get_words, get_kind, get_name, get_root, exchange_root, exchange_class, create_nil, create_bool, create_fixnum, create_new_symbol, create_symbol, create_array, create_hash, create_object, create_string, create_user_defined, create_float, create_bignum, build_call_of, new_call_of};
ghost use Rattle.call_check.specs.Tests.{Says};
ghost use Rattle.value_arena.specs.Calls.{plain, text};

use arena_check::wrong_table;
use bignum::magnitude_of;
use bits::bits_of;
pub use bits::signed;
use call_check::{
    begin, begin_class, begin_handle, check_class, check_class_name, check_handle,
    check_handles_at, check_magnitude, check_name, check_object_names, check_optional, wrong_bytes,
    wrong_members, wrong_pairs,
};
use definition::{Counts, Created, Name, Node, Refusal};
use node_adder::{add_list, add_plain, add_string, find_named};
use store::fill_from;

// ---- getters

pub fn root(nodes: &[u32], references: &[u32], bytes: &[u8], counts: Counts) -> Result<u32, Refusal>
    ensures { number_answer result ≡ number_done (get_root (lent nodes.now references.now bytes.now counts)) }
{
    begin(nodes, references, bytes, counts, 0)?;
    Ok(counts.root)
}

pub fn kind(
    nodes: &[u32],
    references: &[u32],
    bytes: &[u8],
    counts: Counts,
    h: u32,
) -> Result<u32, Refusal>
    ensures { number_answer result ≡ number_done (get_kind h (lent nodes.now references.now bytes.now counts)) }
{
    begin_handle(nodes, references, bytes, counts, h)?;
    Ok(nodes[h as usize * Node::WIDTH])
}

pub fn get(
    nodes: &[u32],
    references: &[u32],
    bytes: &[u8],
    counts: Counts,
    h: u32,
) -> Result<[u32; Node::WIDTH], Refusal>
    ensures { words_answer result ≡ words_done (get_words h (lent nodes.now references.now bytes.now counts)) }
{
    begin_handle(nodes, references, bytes, counts, h)?;
    let at = h as usize * Node::WIDTH;
    let mut words = [0; Node::WIDTH];
    words.copy_from_slice(&nodes[at..at + Node::WIDTH]);
    Ok(words)
}

pub fn get_symbol(
    nodes: &[u32],
    references: &[u32],
    bytes: &[u8],
    counts: Counts,
    h: u32,
) -> Result<Name, Refusal>
    ensures { name_answer result ≡ name_done (get_name h (lent nodes.now references.now bytes.now counts)) }
{
    begin_handle(nodes, references, bytes, counts, h)?;
    check_name(nodes, counts.nodes, h)?;
    let at = h as usize * Node::WIDTH;
    Ok(Name {
        start: nodes[at + Node::START],
        length: nodes[at + Node::LENGTH],
    })
}

pub fn replace_root(
    nodes: &[u32],
    references: &[u32],
    bytes: &[u8],
    counts: Counts,
    h: u32,
) -> Result<Created, Refusal>
    ensures { build_call_of (build_answer counts result) nodes.now references.now bytes.now ≡ build_call (exchange_root h) (lent nodes.now references.now bytes.now counts) }
{
    begin_handle(nodes, references, bytes, counts, h)?;
    Ok(Created {
        handle: counts.root,
        counts: Counts { root: h, ..counts },
    })
}

// The class is 0 for none, else its name's node + 1, as word 7 holds it; the old word is answered.
pub fn replace_class(
    nodes: &mut [u32],
    references: &[u32],
    bytes: &[u8],
    counts: Counts,
    h: u32,
    class: u32,
) -> Result<Created, Refusal>
    ensures { build_call_of (build_answer counts result) nodes.new references.now bytes.now ≡ build_call (exchange_class h class) (lent nodes.old references.now bytes.now counts) }
{
    begin_class(nodes, references, bytes, counts, h, class)?;
    check_class(nodes, counts.nodes, h)?;
    check_class_name(nodes, counts.nodes, class)?;
    let at = h as usize * Node::WIDTH + Node::CLASS;
    let old = nodes[at];
    nodes[at] = class;
    Ok(Created {
        handle: old,
        counts,
    })
}

// ---- builder

// An arena that holds nil.
pub fn new(nodes: &mut [u32], references: &mut [u32], bytes: &mut [u8]) -> Result<Counts, Refusal>
    ensures { new_call_of (new_answer result) nodes.new references.new bytes.new ≡ new_call (tables_of nodes.old references.old bytes.old) }
{
    let w = wrong_table(nodes.len(), references.len(), bytes.len(), 0);
    if w != 0 {
        return Err(Refusal::BadTables(w));
    }
    fill_from(nodes, 0, 0);
    fill_from(references, 0, 0);
    fill_from(bytes, 0, 0);
    Ok(Counts {
        nodes: 1,
        references: 0,
        bytes: 0,
        root: 0,
    })
}

// ---- creators: 1, 2, 13, 14, 16, then 12

// A node of kind k with words 1, 2 and 4 alone: 1, 2, what a test of the value answered, then 12.
fn create_plain(
    nodes: &mut [u32],
    references: &[u32],
    bytes: &[u8],
    counts: Counts,
    test: Result<(), Refusal>,
    k: u32,
    a: u32,
    b: u32,
    n: u32,
) -> Result<Created, Refusal>
    ensures { (m : Run Lent (Unit {0})) (row : Row) → Says test m (lent nodes.old references.now bytes.now counts) → words row ≡ k ∷ a ∷ b ∷ 0 ∷ n ∷ 0 ∷ 0 ∷ 0 ∷ [] → build_call_of (build_answer counts result) nodes.new references.now bytes.now ≡ build_call (plain m row) (lent nodes.old references.now bytes.now counts) }
{
    begin(nodes, references, bytes, counts, 0)?;
    test?;
    add_plain(nodes, counts, k, a, b, n)
}

pub fn create_nil(
    nodes: &mut [u32],
    references: &[u32],
    bytes: &[u8],
    counts: Counts,
) -> Result<Created, Refusal>
    ensures { build_call_of (build_answer counts result) nodes.new references.now bytes.now ≡ build_call create_nil (lent nodes.old references.now bytes.now counts) }
{
    create_plain(nodes, references, bytes, counts, Ok(()), Node::NIL, 0, 0, 0)
}

pub fn create_bool(
    nodes: &mut [u32],
    references: &[u32],
    bytes: &[u8],
    counts: Counts,
    value: bool,
) -> Result<Created, Refusal>
    ensures { build_call_of (build_answer counts result) nodes.new references.now bytes.now ≡ build_call (create_bool value) (lent nodes.old references.now bytes.now counts) }
{
    create_plain(
        nodes,
        references,
        bytes,
        counts,
        Ok(()),
        Node::BOOL,
        value as u32,
        0,
        0,
    )
}

pub fn create_fixnum(
    nodes: &mut [u32],
    references: &[u32],
    bytes: &[u8],
    counts: Counts,
    value: i32,
) -> Result<Created, Refusal>
    ensures { build_call_of (build_answer counts result) nodes.new references.now bytes.now ≡ build_call (create_fixnum value) (lent nodes.old references.now bytes.now counts) }
{
    create_plain(
        nodes,
        references,
        bytes,
        counts,
        Ok(()),
        Node::FIXNUM,
        bits_of(value),
        0,
        0,
    )
}

// A minus or not, and the magnitude's low and high word; zero is plus.
pub fn create_bignum(
    nodes: &mut [u32],
    references: &[u32],
    bytes: &[u8],
    counts: Counts,
    minus: bool,
    low: u32,
    high: u32,
) -> Result<Created, Refusal>
    ensures { build_call_of (build_answer counts result) nodes.new references.now bytes.now ≡ build_call (create_bignum minus low high) (lent nodes.old references.now bytes.now counts) }
{
    let m = magnitude_of(low, high);
    create_plain(
        nodes,
        references,
        bytes,
        counts,
        check_magnitude(m),
        Node::BIGNUM,
        low,
        high,
        (minus && m != 0) as u32,
    )
}

// A byte string as a node of kind k, with words 1 and 2 alone: 1, 2, then 12.
fn create_text(
    nodes: &mut [u32],
    references: &[u32],
    bytes: &mut [u8],
    counts: Counts,
    value: &[u8],
    k: u32,
) -> Result<Created, Refusal>
    ensures { (row : ℕ → ℕ → Row) → ((l : ℕ) → words (row counts.bytes l) ≡ k ∷ counts.bytes ∷ length value.now ∷ 0 ∷ 0 ∷ 0 ∷ 0 ∷ 0 ∷ []) → build_call_of (build_answer counts result) nodes.new references.now bytes.new ≡ build_call (text value.now row) (lent nodes.old references.now bytes.old counts) }
{
    begin(nodes, references, bytes, counts, wrong_bytes(value.len()))?;
    add_string(nodes, bytes, counts, value, k, 0)
}

pub fn create_new_symbol(
    nodes: &mut [u32],
    references: &[u32],
    bytes: &mut [u8],
    counts: Counts,
    name: &[u8],
) -> Result<Created, Refusal>
    ensures { build_call_of (build_answer counts result) nodes.new references.now bytes.new ≡ build_call (create_new_symbol name.now) (lent nodes.old references.now bytes.old counts) }
{
    create_text(nodes, references, bytes, counts, name, Node::SYMBOL)
}

// The lowest symbol with that name, or a new one.
pub fn create_symbol(
    nodes: &mut [u32],
    references: &[u32],
    bytes: &mut [u8],
    counts: Counts,
    name: &[u8],
) -> Result<Created, Refusal>
    ensures { build_call_of (build_answer counts result) nodes.new references.now bytes.new ≡ build_call (create_symbol name.now) (lent nodes.old references.now bytes.old counts) }
{
    begin(nodes, references, bytes, counts, wrong_bytes(name.len()))?;
    match find_named(nodes, bytes, counts.nodes, counts.bytes, name) {
        Some(h) => Ok(Created { handle: h, counts }),
        None => add_string(nodes, bytes, counts, name, Node::SYMBOL, 0),
    }
}

pub fn create_array(
    nodes: &mut [u32],
    references: &mut [u32],
    bytes: &[u8],
    counts: Counts,
    members: &[u32],
) -> Result<Created, Refusal>
    ensures { build_call_of (build_answer counts result) nodes.new references.new bytes.now ≡ build_call (create_array members.now) (lent nodes.old references.old bytes.now counts) }
{
    begin(
        nodes,
        references,
        bytes,
        counts,
        wrong_members(members.len()),
    )?;
    check_handles_at(members, counts.nodes)?;
    add_list(nodes, references, counts, members, Node::ARRAY, false, 0, 0)
}

// The default is 0 for none, else node + 1, as word 6 holds it.
pub fn create_hash(
    nodes: &mut [u32],
    references: &mut [u32],
    bytes: &[u8],
    counts: Counts,
    pairs: &[u32],
    default: u32,
) -> Result<Created, Refusal>
    ensures { build_call_of (build_answer counts result) nodes.new references.new bytes.now ≡ build_call (create_hash pairs.now default) (lent nodes.old references.old bytes.now counts) }
{
    begin(nodes, references, bytes, counts, wrong_pairs(pairs.len()))?;
    check_handles_at(pairs, counts.nodes)?;
    check_optional(default, counts.nodes)?;
    add_list(
        nodes,
        references,
        counts,
        pairs,
        Node::HASH,
        true,
        0,
        default,
    )
}

pub fn create_object(
    nodes: &mut [u32],
    references: &mut [u32],
    bytes: &[u8],
    counts: Counts,
    name: u32,
    pairs: &[u32],
) -> Result<Created, Refusal>
    ensures { build_call_of (build_answer counts result) nodes.new references.new bytes.now ≡ build_call (create_object name pairs.now) (lent nodes.old references.old bytes.now counts) }
{
    begin(nodes, references, bytes, counts, wrong_pairs(pairs.len()))?;
    check_handle(name, counts.nodes)?;
    check_handles_at(pairs, counts.nodes)?;
    check_object_names(nodes, counts.nodes, name, pairs)?;
    add_list(
        nodes,
        references,
        counts,
        pairs,
        Node::OBJECT,
        true,
        name,
        0,
    )
}

pub fn create_string(
    nodes: &mut [u32],
    references: &[u32],
    bytes: &mut [u8],
    counts: Counts,
    value: &[u8],
) -> Result<Created, Refusal>
    ensures { build_call_of (build_answer counts result) nodes.new references.now bytes.new ≡ build_call (create_string value.now) (lent nodes.old references.now bytes.old counts) }
{
    create_text(nodes, references, bytes, counts, value, Node::STRING)
}

pub fn create_user_defined(
    nodes: &mut [u32],
    references: &[u32],
    bytes: &mut [u8],
    counts: Counts,
    name: u32,
    value: &[u8],
) -> Result<Created, Refusal>
    ensures { build_call_of (build_answer counts result) nodes.new references.now bytes.new ≡ build_call (create_user_defined name value.now) (lent nodes.old references.now bytes.old counts) }
{
    begin(nodes, references, bytes, counts, wrong_bytes(value.len()))?;
    check_handle(name, counts.nodes)?;
    check_name(nodes, counts.nodes, name)?;
    add_string(nodes, bytes, counts, value, Node::USER_DEFINED, name)
}

pub fn create_float(
    nodes: &mut [u32],
    references: &[u32],
    bytes: &mut [u8],
    counts: Counts,
    value: &[u8],
) -> Result<Created, Refusal>
    ensures { build_call_of (build_answer counts result) nodes.new references.now bytes.new ≡ build_call (create_float value.now) (lent nodes.old references.now bytes.old counts) }
{
    create_text(nodes, references, bytes, counts, value, Node::FLOAT)
}
