// Stores into lent tables: a node, copies, zeros; and runs of bytes compared.
#![tactic(auto)]

ghost use Rattle.std.specs.Prelude.{◌≡◌, ◌↔◌, List, [], ◌∷◌, ℕ, ◌+◌, ◌-◌, ◌≤◌, length, take, drop, replicate, IsTrue};
ghost use Rattle.std.proofs.lemmas.List.Edits.{sets};
ghost use Rattle.definition.specs.Node.{width};

use definition::Node;

// The words of a node, from word `base` on. `default` is word 6, which is the mark of a variable list in kinds 7 and 8.
pub fn put_node(
    nodes: &mut [u32],
    base: usize,
    kind: u32,
    a: u32,
    b: u32,
    list: u32,
    n: u32,
    name: u32,
    default: u32,
    class: u32,
)
    requires { base + width ≤ length nodes.old }
    ensures { nodes.new ≡ sets nodes.old base (kind ∷ a ∷ b ∷ list ∷ n ∷ name ∷ default ∷ class ∷ []) }
{
    nodes[base] = kind;
    nodes[base + Node::START] = a;
    nodes[base + Node::LENGTH] = b;
    nodes[base + Node::LIST] = list;
    nodes[base + Node::COUNT] = n;
    nodes[base + Node::NAME] = name;
    nodes[base + Node::DEFAULT] = default;
    nodes[base + Node::CLASS] = class;
}

// All of `source`, to `to` on. With `copy_from_slice` load takes a fifth longer where names are searched for: 1,334 µs for 1,108.
pub fn copy_to<T: Copy>(source: &[T], list: &mut [T], to: usize)
    requires { to + length source.now ≤ length list.old }
    ensures { list.new ≡ sets list.old to source.now }
{
    for (i, x) in source.iter().enumerate() {
        list[to + i] = *x;
    }
}

// Are the bytes the same? The last are looked at first: names mostly differ there.
pub fn same_bytes(a: &[u8], b: &[u8]) -> bool
    requires { length a.now ≡ length b.now }
    ensures { IsTrue result ↔ (a.now ≡ b.now) }
{
    a.iter().rev().zip(b.iter().rev()).all(|(x, y)| *x == *y)
}

// n times `value` from `from` on, the others as they were. `fill` asks that a clone is its value, which `Copy` does not say.
pub fn fill_range<T: Copy>(list: &mut [T], from: usize, n: usize, value: T)
    requires { from + n ≤ length list.old }
    ensures { list.new ≡ sets list.old from (replicate n value) }
{
    for x in &mut list[from..from + n] {
        *x = value;
    }
}

// `value` from `from` on, those before it as they were.
pub fn fill_from<T: Copy>(list: &mut [T], from: usize, value: T)
    requires { from ≤ length list.old }
    ensures { list.new ≡ sets list.old from (replicate (length list.old - from) value) }
{
    let n = list.len() - from;
    fill_range(list, from, n, value);
}
