// A node added behind the others, or no room for it; a symbol found by its name.
#![tactic(auto)]

ghost use Rattle.std.specs.Prelude.{◌≡◌, List, [], ◌∷◌, ℕ, ◌-◌, ◌*◌, ◌<◌, ◌≤◌, length, take};
ghost use Rattle.definition.specs.Node.{width, Row, words, rows};
ghost use Rattle.definition.specs.Arena.{Arena, node, named, find_symbol};
ghost use Rattle.definition.specs.Build.{lent, build_answer, build_call, build_call_of};
ghost use Rattle.definition.specs.Build as B;
ghost use Rattle.definition.specs.Slice.{greatest_length};
ghost use Rattle.node_adder.specs.Added.{entries, found, SymbolsIn};

use definition::{Counts, Created, Node, Refusal, Slice};
use store::{copy_to, put_node, same_bytes};

// A node of kind k with words 1, 2 and 4, and neither bytes nor a list.
pub fn add_plain(
    nodes: &mut [u32],
    counts: Counts,
    k: u32,
    a: u32,
    b: u32,
    n: u32,
) -> Result<Created, Refusal>
    requires { (counts.nodes * width ≤ length nodes.old) × (length nodes.old ≤ greatest_length) }
    ensures { (re by : List ℕ) (row : Row) → words row ≡ k ∷ a ∷ b ∷ 0 ∷ n ∷ 0 ∷ 0 ∷ 0 ∷ [] → build_call_of (build_answer counts result) nodes.new re by ≡ build_call (B.add [] [] (λ b l. row)) (lent nodes.old re by counts) }
{
    let at = counts.nodes;
    if nodes.len() / Node::WIDTH <= at {
        return Err(Refusal::NoSpace(Slice::NODES));
    }
    put_node(nodes, at * Node::WIDTH, k, a, b, 0, n, 0, 0, 0);
    Ok(Created {
        handle: at as u32,
        counts: Counts {
            nodes: at + 1,
            ..counts
        },
    })
}

// A node of kind k with a byte string, and a name in word 5.
pub fn add_string(
    nodes: &mut [u32],
    bytes: &mut [u8],
    counts: Counts,
    source: &[u8],
    k: u32,
    name: u32,
) -> Result<Created, Refusal>
    requires { (counts.nodes * width ≤ length nodes.old) × (length nodes.old ≤ greatest_length) × (counts.bytes ≤ length bytes.old) × (length bytes.old ≤ greatest_length) }
    ensures { (re : List ℕ) (row : ℕ → ℕ → Row) → ((l : ℕ) → words (row counts.bytes l) ≡ k ∷ counts.bytes ∷ length source.now ∷ 0 ∷ 0 ∷ name ∷ 0 ∷ 0 ∷ []) → build_call_of (build_answer counts result) nodes.new re bytes.new ≡ build_call (B.add source.now [] row) (lent nodes.old re bytes.old counts) }
{
    let at = counts.nodes;
    let to = counts.bytes;
    let n = source.len();
    if bytes.len() - to < n {
        return Err(Refusal::NoSpace(Slice::BYTES));
    }
    if nodes.len() / Node::WIDTH <= at {
        return Err(Refusal::NoSpace(Slice::NODES));
    }
    copy_to(source, bytes, to);
    put_node(
        nodes,
        at * Node::WIDTH,
        k,
        to as u32,
        n as u32,
        0,
        0,
        name,
        0,
        0,
    );
    Ok(Created {
        handle: at as u32,
        counts: Counts {
            nodes: at + 1,
            bytes: to + n,
            ..counts
        },
    })
}

pub fn entry_count(pairs: bool, m: usize) -> usize
    ensures value { result ≡ entries pairs m }
    ensures upper_bound { result ≤ m }
{
    if pairs { m / 2 } else { m }
}

// A node of kind k with a list of elements or pairs, a name in word 5 and a default in word 6.
pub fn add_list(
    nodes: &mut [u32],
    references: &mut [u32],
    counts: Counts,
    source: &[u32],
    k: u32,
    pairs: bool,
    name: u32,
    default: u32,
) -> Result<Created, Refusal>
    requires { (counts.nodes * width ≤ length nodes.old) × (length nodes.old ≤ greatest_length) × (counts.references ≤ length references.old) × (length references.old ≤ greatest_length) }
    ensures { (by : List ℕ) (row : ℕ → ℕ → Row) → ((b : ℕ) → words (row b counts.references) ≡ k ∷ 0 ∷ 0 ∷ counts.references ∷ entries pairs (length source.now) ∷ name ∷ default ∷ 0 ∷ []) → build_call_of (build_answer counts result) nodes.new references.new by ≡ build_call (B.add [] source.now row) (lent nodes.old references.old by counts) }
{
    let at = counts.nodes;
    let to = counts.references;
    let m = source.len();
    if references.len() - to < m {
        return Err(Refusal::NoSpace(Slice::REFERENCES));
    }
    if nodes.len() / Node::WIDTH <= at {
        return Err(Refusal::NoSpace(Slice::NODES));
    }
    copy_to(source, references, to);
    put_node(
        nodes,
        at * Node::WIDTH,
        k,
        0,
        0,
        to as u32,
        entry_count(pairs, m) as u32,
        name,
        default,
        0,
    );
    Ok(Created {
        handle: at as u32,
        counts: Counts {
            nodes: at + 1,
            references: to + m,
            ..counts
        },
    })
}

// ---- symbols by name

// Is node i a symbol with that name? (In an arena that was checked its bytes are among those stored.)
pub fn is_named(
    nodes: &[u32],
    bytes: &[u8],
    count: usize,
    stored: usize,
    i: usize,
    name: &[u8],
) -> bool
    requires { (i < count) × (count * width ≤ length nodes.now) × (stored ≤ length bytes.now) }
    ensures { (A : Arena) → A.nodes ≡ rows count nodes.now → A.bytes ≡ take stored bytes.now → SymbolsIn A → result ≡ named A.bytes name.now (node A i) }
{
    let at = i * Node::WIDTH;
    if nodes[at] != Node::SYMBOL {
        return false;
    }
    let n = nodes[at + Node::LENGTH] as usize;
    if n != name.len() {
        return false;
    }
    let from = nodes[at + Node::START] as usize;
    from + n <= stored && same_bytes(name, &bytes[from..from + n])
}

// The lowest symbol node with that name.
pub fn find_named(
    nodes: &[u32],
    bytes: &[u8],
    count: usize,
    stored: usize,
    name: &[u8],
) -> Option<u32>
    requires { (length nodes.now ≤ greatest_length) × (count * width ≤ length nodes.now) × (stored ≤ length bytes.now) }
    ensures { (A : Arena) → A.nodes ≡ rows count nodes.now → A.bytes ≡ take stored bytes.now → SymbolsIn A → found result ≡ find_symbol A.bytes name.now A.nodes 0 }
{
    for i in 0..count {
        if is_named(nodes, bytes, count, stored, i, name) {
            return Some(i as u32);
        }
    }
    None
}
