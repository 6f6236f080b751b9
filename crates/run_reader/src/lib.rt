// Runs of integers and symbol links.
#![tactic(auto)]

ghost use Rattle.std.specs.Prelude.{◌≡◌, List, [], ◌∷◌, ℕ, ◌+◌, ◌-◌, ◌*◌, ◌%◌, ◌<◌, ◌≤◌, true, false, length, set};
ghost use Rattle.std.proofs.lemmas.List.Edits.{sets};
ghost use Rattle.definition.specs.Integer.{form, value, integer_bytes};
ghost use Rattle.definition.specs.Kind.{FIXNUM};
ghost use Rattle.definition.specs.Node.{width};
ghost use Rattle.definition.specs.State.{Room};
ghost use Rattle.definition.specs.Load.{read_symbol_like, read_value};
ghost use Rattle.reader.specs.Integers.{size_at, word_at, dumped_at};
ghost use Rattle.load_state.specs.Holds.{lent, by_buckets, Held, Goes};
ghost use Rattle.run_reader.specs.Run.{Link, Next, Coming, slots};

use definition::{Node, ValueKind};
use load_state::Progress;
use reader::{in_form, integer_at, integer_size, small};
use store::put_node;

// The entry that a link of the one byte b names, of `known` ones; where it names none of them, a number from `known` on.
fn link_index(b: u8, known: usize) -> usize
    ensures b_value { result < known → (form b ≡ value result) × (integer_bytes result ≡ b ∷ []) }
    ensures by_index { (n : ℕ) → Link b known n → result ≡ n }
{
    let i = small(b);
    if 122 < i {
        return known;
    }
    i
}

// May a value of kind byte k, for reference word `to`, be taken as an integer: it is one, no name is wanted there, and there
// is room for node `node`?
fn takes_integer(k: u8, to: usize, names: usize, node: usize, room: usize) -> bool
    ensures k_value { result ≡ true → (k ≡ FIXNUM) × (to % 2 ≡ names → ⊥) × (node < room) }
    ensures value { k ≡ FIXNUM → (to % 2 ≡ names → ⊥) → node < room → result ≡ true }
{
    if k != ValueKind::FIXNUM {
        return false;
    }
    if to % 2 == names {
        return false;
    }
    node < room
}

// Node `node` becomes the integer at `at`, whose bytes are all there, if dump writes it so: how many they are. Else 0.
fn put_integer(input: &[u8], nodes: &mut [u32], at: usize, node: usize) -> usize
    requires { (at + size_at input.now at ≤ length input.now) × (node * width + width ≤ length nodes.old) }
    ensures nodes_after { (result ≡ 0 → ⊥) → nodes.new ≡ sets nodes.old (node * width) (2 ∷ word_at input.now at ∷ 0 ∷ 0 ∷ 0 ∷ 0 ∷ 0 ∷ 0 ∷ []) }
    ensures value { (result ≡ 0 → ⊥) → (result ≡ size_at input.now at) × (dumped_at input.now at ≡ true) }
    ensures nodes_unchanged { result ≡ 0 → (nodes.new ≡ nodes.old) × (dumped_at input.now at ≡ false) }
    ensures at_bound { word_at input.now at < 4294967296 }
{
    let b = input[at];
    let w = integer_at(input, at);
    if !in_form(b, w) {
        return 0;
    }
    put_node(nodes, node * Node::WIDTH, Node::FIXNUM, w, 0, 0, 0, 0, 0, 0);
    integer_size(b)
}

// Does an integer or a symbol link come next, with a level for it?
fn small_next(input: &[u8], at: usize, levels: u32) -> bool
    ensures { (result ≡ true → Next input.now at levels) × (Next input.now at levels → result ≡ true) }
{
    if levels == 0 {
        return false;
    }
    if input.len() <= at {
        return false;
    }
    let k = input[at];
    if k == ValueKind::FIXNUM {
        return true;
    }
    k == ValueKind::SYMBOL_LINK
}

// The offset is what the run has come to: `to`.
fn end_run(c: &mut Progress, at: usize, to: usize) -> usize
    ensures { (result ≡ to) × (c.new ≡ record c.old { at = at }) }
{
    c.at = at;
    to
}

// Integers, and symbol links of one byte, as far as they come one after the other in dump form with six bytes there, for
// the reference words from `start` to `end`, of which those of parity `names` want a name: the first word that is left. It
// refuses and notes nothing: what it does not take is left to be read. The offset is in a local meanwhile, which is faster,
// and so is the loop over `to` than one over the range.
pub fn read_run(
    input: &[u8],
    nodes: &mut [u32],
    references: &mut [u32],
    symbols: &[u32],
    c: &mut Progress,
    start: usize,
    end: usize,
    names: usize,
    levels: u32,
) -> usize
    requires { (start ≤ end) × (end ≤ c.old.references) × ((by : List ℕ) × (ob : List ℕ) × (bu : List ℕ) × Held input.now (lent nodes.old references.old by (by_buckets symbols.now bu) ob) c.old) }
    ensures lower_bound { (start ≤ result) × (result ≤ end) }
    ensures goes { (room : Room) (limit : ℕ) (by ob bu : List ℕ) → Goes input.now room (slots (read_symbol_like input.now room) (read_value input.now room limit levels) names (end - start) start) (lent nodes.old references.old by (by_buckets symbols.now bu) ob) c.old (slots (read_symbol_like input.now room) (read_value input.now room limit levels) names (end - result) result) (lent nodes.new references.new by (by_buckets symbols.now bu) ob) c.new }
    ensures fact { (levels ≡ 0 → ⊥) → result < end → Coming input.now c.new names result → ⊥ }
{
    if !small_next(input, c.at, levels) {
        return start;
    }
    let known = c.symbols;
    let mut at = c.at;
    let mut to = start;
    while to < end {
        if input.len() - at < 6 {
            return end_run(c, at, to);
        }
        let k = input[at];
        if k == ValueKind::SYMBOL_LINK {
            let i = link_index(input[at + 1], known);
            if known <= i {
                return end_run(c, at, to);
            }
            references[to] = symbols[i];
            at += 2;
            to += 1;
            continue;
        }
        let node = c.nodes;
        if !takes_integer(k, to, names, node, c.room) {
            return end_run(c, at, to);
        }
        let n = put_integer(input, nodes, at + 1, node);
        if n == 0 {
            return end_run(c, at, to);
        }
        at = at + 1 + n;
        c.nodes = node + 1;
        references[to] = node as u32;
        to += 1;
    }
    end_run(c, at, to)
}
