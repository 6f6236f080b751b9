// What the program cost prints: an input loaded, and the cost of the recipe in it at the prices in it.
#![tactic(auto)]

ghost use Rattle.std.specs.Prelude.{◌≡◌, ◌*◌, ◌≤◌, length};
ghost use Rattle.std.proofs.Math.Option.{none};
ghost use Rattle.definition.specs.Node.{width, rows};
ghost use Rattle.definition.specs.Arena.{Arena, fault};
ghost use Rattle.definition.specs.Build.{lent};
ghost use Rattle.definition.specs.Cost.{cost_done, cost_answer};
ghost use Rattle.definition.specs.Load.{lists};
ghost use Rattle.console.specs.Call.{input_call};
ghost use Rattle.costing.specs.Batch.{is_hash, cost_pair, cost_root, cost_call};

use batch_cost::batch_cost;
use console::{Output, Tables, load_input, write_refusal};
use definition::{Counts, Node, Refusal};
use std::fmt;
use std::fmt::Write;

// The elements that a root must have: the recipe and the prices.
const ELEMENTS: u32 = 2;

// Is node h a hash?
fn is_hash_at(nodes: &[u32], count: usize, h: u32) -> bool
    requires { count * width ≤ length nodes.now }
    ensures { (A : Arena) → A.nodes ≡ rows count nodes.now → result ≡ is_hash A h }
{
    let i = h as usize;
    i < count && nodes[i * Node::WIDTH] == Node::HASH
}

// The cost of the root's two elements, 20 with the root unless both are hashes.
fn cost_pair(
    nodes: &[u32],
    references: &[u32],
    bytes: &[u8],
    counts: Counts,
    recipe: u32,
    prices: u32,
) -> Result<u64, Refusal>
    requires { counts.nodes * width ≤ length nodes.now }
    ensures { cost_answer result ≡ cost_done (cost_pair recipe prices (lent nodes.now references.now bytes.now counts)) }
{
    let count = counts.nodes;
    if is_hash_at(nodes, count, recipe) && is_hash_at(nodes, count, prices) {
        batch_cost(nodes, references, bytes, counts, recipe, prices)
    } else {
        Err(Refusal::NotARecipe(counts.root))
    }
}

// The cost of a root that is an array of two hashes, 20 with the root for any other.
fn cost_root(
    nodes: &[u32],
    references: &[u32],
    bytes: &[u8],
    counts: Counts,
) -> Result<u64, Refusal>
    requires { fault (lent nodes.now references.now bytes.now counts).tables counts ≡ none }
    ensures { cost_answer result ≡ cost_done (cost_root (lent nodes.now references.now bytes.now counts)) }
{
    let root = counts.root;
    let at = root as usize * Node::WIDTH;
    if nodes[at] != Node::ARRAY || nodes[at + Node::COUNT] != ELEMENTS {
        return Err(Refusal::NotARecipe(root));
    }
    let start = nodes[at + Node::LIST] as usize;
    let recipe = references[start];
    let prices = references[start + 1];
    cost_pair(nodes, references, bytes, counts, recipe, prices)
}

// The cost of what the input holds, or load's refusal.
pub fn cost_input(
    input: &[u8],
    nodes: &mut [u32],
    references: &mut [u32],
    bytes: &mut [u8],
    symbols: &mut [u32],
    objects: &mut [u32],
) -> Result<u64, Refusal>
    ensures value { cost_answer result ≡ cost_call input.now (lists nodes.old references.old bytes.old symbols.old objects.old) }
    ensures objects_after { lists nodes.new references.new bytes.new symbols.new objects.new ≡ (input_call input.now (lists nodes.old references.old bytes.old symbols.old objects.old)).lent }
{
    let loaded = load_input(input, nodes, references, bytes, symbols, objects)?;
    cost_root(nodes, references, bytes, loaded.counts)
}

// The cents, or the refusal: a row.
pub fn write_cost(out: &mut Output<'_>, input: &[u8]) -> fmt::Result {
    let mut tables = Tables::new();
    match cost_input(
        input,
        &mut tables.nodes,
        &mut tables.references,
        &mut tables.bytes,
        &mut tables.symbols,
        &mut tables.objects,
    ) {
        Ok(cents) => writeln!(out, "{cents:>11}"),
        Err(q) => write_refusal(out, q),
    }
}
