// What a recipe costs at given prices, in cents.
#![tactic(auto)]

ghost use Rattle.std.specs.Prelude.{◌≡◌, List, [], ℕ, ◌+◌, ◌*◌, ◌/◌, ◌<◌, ◌≤◌, length, get_or, IfSome};
ghost use Rattle.definition.specs.Run.{ok};
ghost use Rattle.definition.specs.Node.{width, equal, rows};
ghost use Rattle.definition.specs.Arena.{Arena, node};
ghost use Rattle.definition.specs.Build.{Lent, lent};
ghost use Rattle.definition.specs.Build as B;
ghost use Rattle.definition.specs.Cost.{is_amount, check_entries, check_recipe, check_prices, surviving, sum, cost_nodes, batch_cost, cost_done, cost_answer};
ghost use Rattle.definition.specs.Cost as C;
ghost use Rattle.call_check.specs.Tests.{Says};
ghost use Rattle.batch_cost.specs.Tables.{word, Named, Amount, Judged, Listed, list_at, name_at, lines_at, last, Held, Costs};

use arena_check::is_name_at;
use call_check::begin_handles;
use definition::{Counts, Node, Recipe, Refusal};
use store::same_bytes;

// Word k of node h.
fn word_at(nodes: &[u32], h: u32, k: usize) -> usize
    requires { (h * width + width ≤ length nodes.now) × (k < width) }
    ensures { result ≡ word nodes.now h k }
{
    nodes[h as usize * Node::WIDTH + k] as usize
}

// ---- what is judged

// Is node h a Fixnum from zero up?
fn is_amount_at(nodes: &[u32], count: usize, h: u32) -> bool
    requires { count * width ≤ length nodes.now }
    ensures { (A : Arena) → A.nodes ≡ rows count nodes.now → result ≡ is_amount (node A h) }
{
    let i = h as usize;
    let at = i * Node::WIDTH;
    i < count && (nodes[at] == Node::FIXNUM) & (nodes[at + Node::VALUE] <= Recipe::GREATEST)
}

// 20 for the first of these keys and values that is wrong.
fn check_entries_at(nodes: &[u32], count: usize, entries: &[u32]) -> Result<(), Refusal>
    requires { count * width ≤ length nodes.now }
    ensures { (L : Lent) → L.tables.nodes ≡ nodes.now → L.counts.nodes ≡ count → Says result (check_entries entries.now) L }
{
    for entry in entries.chunks_exact(2) {
        let k = entry[0];
        if !is_name_at(nodes, count, k) {
            return Err(Refusal::NotARecipe(k));
        }
        let v = entry[1];
        if !is_amount_at(nodes, count, v) {
            return Err(Refusal::NotARecipe(v));
        }
    }
    Ok(())
}

// The keys and values of hash h in turn.
fn list_of<'a>(nodes: &[u32], references: &'a [u32], h: u32) -> &'a [u32]
    requires { Listed nodes.now references.now h }
    ensures { result.now ≡ list_at nodes.now references.now h }
{
    let start = word_at(nodes, h, Node::LIST);
    let n = word_at(nodes, h, Node::COUNT) * 2;
    &references[start..start + n]
}

// 20 for node h as prices: its kind, then the pairs.
fn check_prices_at(nodes: &[u32], references: &[u32], count: usize, h: u32) -> Result<(), Refusal>
    requires { (count * width ≤ length nodes.now) × (h < count) × (get_or nodes.now (h * width) 0 ≡ 5 → Listed nodes.now references.now h) }
    ensures { (L : Lent) → Held L nodes.now references.now count → Says result (check_prices h) L }
{
    if nodes[h as usize * Node::WIDTH] != Node::HASH {
        return Err(Refusal::NotARecipe(h));
    }
    check_entries_at(nodes, count, list_of(nodes, references, h))
}

// 20 for node h as a recipe: its kind, the number of pairs, then the pairs.
fn check_recipe_at(nodes: &[u32], references: &[u32], count: usize, h: u32) -> Result<(), Refusal>
    requires { (count * width ≤ length nodes.now) × (h < count) × (get_or nodes.now (h * width) 0 ≡ 5 → Listed nodes.now references.now h) }
    ensures { (L : Lent) → Held L nodes.now references.now count → Says result (check_recipe h) L }
{
    let at = h as usize * Node::WIDTH;
    if nodes[at] != Node::HASH || Recipe::PAIRS < nodes[at + Node::COUNT] {
        return Err(Refusal::NotARecipe(h));
    }
    check_entries_at(nodes, count, list_of(nodes, references, h))
}

// ---- pairs by name

// Have the symbols h and k the same name? Bytes are looked at only where the lengths agree, and one node has one name.
fn same_name(nodes: &[u32], bytes: &[u8], h: u32, k: u32) -> bool
    requires { Named nodes.now bytes.now h × Named nodes.now bytes.now k }
    ensures { result ≡ equal (name_at nodes.now bytes.now h) (name_at nodes.now bytes.now k) }
{
    let n = word_at(nodes, h, Node::LENGTH);
    if n != word_at(nodes, k, Node::LENGTH) {
        return false;
    }
    if h == k {
        return true;
    }
    let from = word_at(nodes, h, Node::START);
    let to = word_at(nodes, k, Node::START);
    same_bytes(&bytes[from..from + n], &bytes[to..to + n])
}

// The place of the last pair whose key has the name of symbol h.
fn last_named(nodes: &[u32], bytes: &[u8], entries: &[u32], h: u32) -> Option<usize>
    requires { Judged nodes.now bytes.now entries.now × Named nodes.now bytes.now h }
    ensures value { result ≡ last (name_at nodes.now bytes.now h) (lines_at nodes.now bytes.now entries.now) }
    ensures result_in_bounds { IfSome result (λ i. i * 2 + 2 ≤ length entries.now) }
{
    for i in (0..entries.len() / 2).rev() {
        if same_name(nodes, bytes, h, entries[i * 2]) {
            return Some(i);
        }
    }
    None
}

// ---- the cost

// Thousandths of a cent to a cent, an exact half going up.
fn rounded(n: u64) -> u64
    requires { n ≤ 4611686014132420609 }
    ensures { (result ≡ C.rounded n) × (result ≤ 4611686014132421) }
{
    (n + Recipe::TONNE / 2) / Recipe::TONNE
}

// What kilograms cost at so many cents per tonne.
fn line_cost(kilograms: usize, cents: usize) -> u64
    requires { (kilograms ≤ 2147483647) × (cents ≤ 2147483647) }
    ensures { (result ≡ C.line_cost kilograms cents) × (result ≤ 4611686014132421) }
{
    rounded(kilograms as u64 * cents as u64)
}

// What pair i of the recipe costs: nothing where it is superseded, 21 where it has no price.
fn pair_cost(
    nodes: &[u32],
    bytes: &[u8],
    recipe: &[u32],
    prices: &[u32],
    i: usize,
) -> Result<u64, Refusal>
    requires { Judged nodes.now bytes.now recipe.now × Judged nodes.now bytes.now prices.now × (i * 2 + 2 ≤ length recipe.now) }
    ensures { Costs (lines_at nodes.now bytes.now recipe.now) (lines_at nodes.now bytes.now prices.now) i result }
{
    let k = recipe[i * 2];
    if last_named(nodes, bytes, recipe, k) != Some(i) {
        return Ok(0);
    }
    let j = last_named(nodes, bytes, prices, k).ok_or(Refusal::NoPrice(k))?;
    let kilograms = word_at(nodes, recipe[i * 2 + 1], Node::VALUE);
    let cents = word_at(nodes, prices[j * 2 + 1], Node::VALUE);
    Ok(line_cost(kilograms, cents))
}

// The sum over the pairs that survive; 21 for the first of them without a price.
fn sum_pairs(nodes: &[u32], bytes: &[u8], recipe: &[u32], prices: &[u32]) -> Result<u64, Refusal>
    requires { Judged nodes.now bytes.now recipe.now × Judged nodes.now bytes.now prices.now × (length recipe.now ≤ 1024) }
    ensures { (L : Lent) → cost_answer result ≡ cost_done (sum (surviving (lines_at nodes.now bytes.now prices.now)) 0 (surviving (lines_at nodes.now bytes.now recipe.now)) L) }
{
    let mut cents = 0;
    for i in 0..recipe.len() / 2 {
        cents += pair_cost(nodes, bytes, recipe, prices, i)?;
    }
    Ok(cents)
}

// 20 for the recipe, then for the prices, then the cost.
fn cost_nodes(
    nodes: &[u32],
    references: &[u32],
    bytes: &[u8],
    counts: Counts,
    recipe: u32,
    prices: u32,
) -> Result<u64, Refusal>
    requires { (B.check [] (lent nodes.now references.now bytes.now counts) ≡ ok tt (lent nodes.now references.now bytes.now counts)) × (recipe < counts.nodes) × (prices < counts.nodes) }
    ensures { cost_answer result ≡ cost_done (cost_nodes recipe prices (lent nodes.now references.now bytes.now counts)) }
{
    let count = counts.nodes;
    check_recipe_at(nodes, references, count, recipe)?;
    check_prices_at(nodes, references, count, prices)?;
    sum_pairs(
        nodes,
        bytes,
        list_of(nodes, references, recipe),
        list_of(nodes, references, prices),
    )
}

// What the recipe costs at the prices: 1, 2, 13 for each, 20 for each, 21.
pub fn batch_cost(
    nodes: &[u32],
    references: &[u32],
    bytes: &[u8],
    counts: Counts,
    recipe: u32,
    prices: u32,
) -> Result<u64, Refusal>
    ensures { cost_answer result ≡ cost_done (batch_cost recipe prices (lent nodes.now references.now bytes.now counts)) }
{
    begin_handles(nodes, references, bytes, counts, recipe, prices)?;
    cost_nodes(nodes, references, bytes, counts, recipe, prices)
}
