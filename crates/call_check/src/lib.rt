// What is tested before a call over an arena: tables and arena, handles, names, a value, and the other slices that a builder takes.
#![tactic(auto)]

ghost use Rattle.std.specs.Prelude.{◌≡◌, Bool, List, [], ◌∷◌, ℕ, ◌-◌, ◌*◌, ◌/◌, ◌<◌, ◌≤◌, length};
ghost use Rattle.definition.specs.Node.{width, optional_node};
ghost use Rattle.definition.specs.Arena.{firsts, lowest};
ghost use Rattle.definition.specs.Build.{Lent, lent, check_handles, check_names};
ghost use Rattle.definition.specs.Build as B;
ghost use Rattle.call_check.specs.Tests.{Says, FitsIf, Below};

use arena_check::{check, first_wrong, is_name_at, too_long, wrong_table};
use definition::{Bignum, Counts, Node, Refusal, Slice};

// ---- tables, arena, handles and names

// 1, then 2.
pub fn begin(
    nodes: &[u32],
    references: &[u32],
    bytes: &[u8],
    counts: Counts,
    more: u32,
) -> Result<(), Refusal>
    ensures by_index { (ts : List (ℕ × Bool)) → lowest ts ≡ more → Says result (B.check ts) (lent nodes.now references.now bytes.now counts) }
    ensures fits_if { FitsIf result (length nodes.now) (length references.now) (length bytes.now) more counts }
{
    let w = wrong_table(nodes.len(), references.len(), bytes.len(), more);
    if w != 0 {
        return Err(Refusal::BadTables(w));
    }
    check(nodes, references, bytes, counts).map_err(Refusal::BadArena)
}

// 13 for a handle that is not below the node count.
pub fn check_handle(h: u32, count: usize) -> Result<(), Refusal>
    ensures says { (L : Lent) → L.counts.nodes ≡ count → Says result (check_handles (h ∷ [])) L }
    ensures below { Below result h count }
{
    if (h as usize) < count {
        Ok(())
    } else {
        Err(Refusal::BadHandle(h))
    }
}

// 13 for the first handle that is not.
pub fn check_handles_at(handles: &[u32], count: usize) -> Result<(), Refusal>
    ensures { (L : Lent) → L.counts.nodes ≡ count → Says result (check_handles handles.now) L }
{
    for h in handles {
        check_handle(*h, count)?;
    }
    Ok(())
}

// 14 for a name that is no symbol.
pub fn check_name(nodes: &[u32], count: usize, h: u32) -> Result<(), Refusal>
    requires { count * width ≤ length nodes.now }
    ensures { (L : Lent) → L.tables.nodes ≡ nodes.now → L.counts.nodes ≡ count → Says result (check_names (h ∷ [])) L }
{
    if is_name_at(nodes, count, h) {
        Ok(())
    } else {
        Err(Refusal::WrongKind(h))
    }
}

// 14 for the first of a pair that is no symbol.
pub fn check_pair_names(nodes: &[u32], count: usize, pairs: &[u32]) -> Result<(), Refusal>
    requires { (count * width ≤ length nodes.now) × (length pairs.now / 2 * 2 ≡ length pairs.now) }
    ensures { (L : Lent) → L.tables.nodes ≡ nodes.now → L.counts.nodes ≡ count → Says result (check_names (firsts pairs.now)) L }
{
    for i in 0..pairs.len() / 2 {
        check_name(nodes, count, pairs[i * 2])?;
    }
    Ok(())
}

// 16 for a magnitude that is too great.
pub fn check_magnitude(m: u64) -> Result<(), Refusal>
    ensures { (L : Lent) → Says result (B.check_magnitude m) L }
{
    if m < Bignum::TOO_BIG {
        Ok(())
    } else {
        Err(Refusal::TooBig(Bignum::UNITS as u32))
    }
}

// 1, 2, then the handle.
pub fn begin_handle(
    nodes: &[u32],
    references: &[u32],
    bytes: &[u8],
    counts: Counts,
    h: u32,
) -> Result<(), Refusal>
    ensures says { Says result (B.handles_checked (h ∷ [])) (lent nodes.now references.now bytes.now counts) }
    ensures fits_if { FitsIf result (length nodes.now) (length references.now) (length bytes.now) 0 counts × Below result h counts.nodes }
{
    begin(nodes, references, bytes, counts, 0)?;
    check_handle(h, counts.nodes)
}

// 1, 2, then two handles.
pub fn begin_handles(
    nodes: &[u32],
    references: &[u32],
    bytes: &[u8],
    counts: Counts,
    first: u32,
    second: u32,
) -> Result<(), Refusal>
    ensures says { Says result (B.handles_checked (first ∷ second ∷ [])) (lent nodes.now references.now bytes.now counts) }
    ensures below { Below result first counts.nodes × Below result second counts.nodes }
{
    begin_handle(nodes, references, bytes, counts, first)?;
    check_handle(second, counts.nodes)
}

// 13 for the node of a default or of a class, where there is one.
pub fn check_optional(word: u32, count: usize) -> Result<(), Refusal>
    ensures { (L : Lent) → L.counts.nodes ≡ count → Says result (check_handles (optional_node word)) L }
{
    if word == 0 {
        return Ok(());
    }
    check_handle(word - 1, count)
}

// 1, 2, the handle, then a class's node.
pub fn begin_class(
    nodes: &[u32],
    references: &[u32],
    bytes: &[u8],
    counts: Counts,
    h: u32,
    class: u32,
) -> Result<(), Refusal>
    ensures says { Says result (B.handles_checked (h ∷ optional_node class)) (lent nodes.now references.now bytes.now counts) }
    ensures fits_if { FitsIf result (length nodes.now) (length references.now) (length bytes.now) 0 counts × Below result h counts.nodes }
{
    begin_handle(nodes, references, bytes, counts, h)?;
    check_optional(class, counts.nodes)
}

// 14 for a node of a kind that takes no class.
pub fn check_class(nodes: &[u32], count: usize, h: u32) -> Result<(), Refusal>
    requires { (h < count) × (count * width ≤ length nodes.now) }
    ensures { (L : Lent) → L.tables.nodes ≡ nodes.now → L.counts.nodes ≡ count → Says result (B.check_class h) L }
{
    match nodes[h as usize * Node::WIDTH] {
        Node::ARRAY | Node::HASH | Node::STRING => Ok(()),
        _ => Err(Refusal::WrongKind(h)),
    }
}

// 14 for a class, where there is one, that is no symbol.
pub fn check_class_name(nodes: &[u32], count: usize, class: u32) -> Result<(), Refusal>
    requires { count * width ≤ length nodes.now }
    ensures { (L : Lent) → L.tables.nodes ≡ nodes.now → L.counts.nodes ≡ count → Says result (check_names (optional_node class)) L }
{
    if class == 0 {
        return Ok(());
    }
    check_name(nodes, count, class - 1)
}

// 14 for an object's name, then for the names of its pairs.
pub fn check_object_names(
    nodes: &[u32],
    count: usize,
    name: u32,
    pairs: &[u32],
) -> Result<(), Refusal>
    requires { (count * width ≤ length nodes.now) × (length pairs.now / 2 * 2 ≡ length pairs.now) }
    ensures { (L : Lent) → L.tables.nodes ≡ nodes.now → L.counts.nodes ≡ count → Says result (check_names (name ∷ firsts pairs.now)) L }
{
    check_name(nodes, count, name)?;
    check_pair_names(nodes, count, pairs)
}

// ---- other slices that a builder takes

// A byte string: slice 8.
pub fn wrong_bytes(n: usize) -> u32
    ensures { (bs : List ℕ) → length bs ≡ n → lowest (B.byte_slice bs ∷ []) ≡ result }
{
    first_wrong(Slice::INPUT, too_long(n), 0)
}

// A list of members: slice 9.
pub fn wrong_members(n: usize) -> u32
    ensures { (ms : List ℕ) → length ms ≡ n → lowest (B.member_slice ms ∷ []) ≡ result }
{
    first_wrong(Slice::MEMBERS, too_long(n), 0)
}

// A list of pairs: slice 9, which an odd number of words makes wrong too.
pub fn wrong_pairs(n: usize) -> u32
    ensures by_index { (ps : List ℕ) → length ps ≡ n → lowest (B.pair_slice ps ∷ []) ≡ result }
    ensures n_value { result ≡ 0 → n / 2 * 2 ≡ n }
{
    first_wrong(Slice::MEMBERS, too_long(n) || n % 2 != 0, 0)
}
