// What the loader adds to tables and lists: nodes, bytes, entries.
//
// What is lent and how far the load has come, `c`, hold a state of the definition before a call. What is answered is the
// value that the definition's reader gives there, and a state is held again; or it is the reader's refusal.
#![tactic(auto)]

ghost use Rattle.std.specs.Prelude.{◌≡◌, List, [], ◌∷◌, ℕ, ◌+◌, ◌*◌, ◌<◌, ◌≤◌, IfOk, length, get_or};
ghost use Rattle.definition.specs.Node.{Row, words, nil, width, symbol_kind};
ghost use Rattle.definition.specs.State.{Room, State};
ghost use Rattle.definition.specs.Load.{add_node, add_bytes, add_symbol, add_object, add_object_node};
ghost use Rattle.definition.specs.Slice.{greatest_length};
ghost use Rattle.load_state.specs.declared.Progress.{Progress};
ghost use Rattle.load_state.specs.Holds.{Symbols, lent, by_list, Holds, Meets, Plain, Symbolic, Numbered, Free, span_of};
ghost use Rattle.table_writer.specs.Parts.{new_symbol};

use definition::Node;
use load_state::Progress;
use reader::Stop;
use store::{copy_to, put_node};

// A node of these words, the others zero: its number.
pub fn add_node(
    nodes: &mut [u32],
    c: &mut Progress,
    kind: u32,
    a: u32,
    b: u32,
    n: u32,
    name: u32,
    class: u32,
) -> Result<usize, Stop>
    requires { (length nodes.old ≤ greatest_length) × (c.old.room * width ≤ length nodes.old) }
    ensures by_index { (input : List ℕ) (room : Room) (limit : ℕ) (row : Row) (re by : List ℕ) (sy : Symbols) (ob : List ℕ) → words row ≡ kind ∷ a ∷ b ∷ 0 ∷ n ∷ name ∷ 0 ∷ class ∷ [] → Plain row → Meets input room limit (add_node room row) (lent nodes.old re by sy ob) c.old result (lent nodes.new re by sy ob) c.new }
    ensures upper_bound { IfOk result (λ h. Numbered c.new h × ((kind ≡ symbol_kind → ⊥) → Free nodes.new h)) }
{
    let at = c.nodes;
    if c.room <= at {
        return Err(Stop::NO_NODES);
    }
    put_node(nodes, at * Node::WIDTH, kind, a, b, 0, n, name, 0, class);
    c.nodes = at + 1;
    Ok(at)
}

// Node h is put on the object list: h.
fn add_object(objects: &mut [u32], c: &mut Progress, h: usize) -> Result<usize, Stop>
    requires { (h < c.old.nodes) × (h < 4294967296) }
    ensures by_index { (input : List ℕ) (room : Room) (limit : ℕ) (no re by : List ℕ) (sy : Symbols) → Meets input room limit (add_object room h) (lent no re by sy objects.old) c.old result (lent no re by sy objects.new) c.new }
    ensures value { IfOk result (λ v. (v ≡ h) × (c.new.nodes ≡ c.old.nodes)) }
{
    let at = c.objects;
    if objects.len() <= at {
        return Err(Stop::NO_OBJECTS);
    }
    objects[at] = h as u32;
    c.objects = at + 1;
    Ok(h)
}

// A node, put on the object list: its number.
pub fn add_object_node(
    nodes: &mut [u32],
    objects: &mut [u32],
    c: &mut Progress,
    kind: u32,
    a: u32,
    b: u32,
    n: u32,
    name: u32,
    class: u32,
) -> Result<usize, Stop>
    requires { (length nodes.old ≤ greatest_length) × (c.old.room * width ≤ length nodes.old) }
    ensures by_index { (input : List ℕ) (room : Room) (limit : ℕ) (row : Row) (re by : List ℕ) (sy : Symbols) → words row ≡ kind ∷ a ∷ b ∷ 0 ∷ n ∷ name ∷ 0 ∷ class ∷ [] → Plain row → Meets input room limit (add_object_node room row) (lent nodes.old re by sy objects.old) c.old result (lent nodes.new re by sy objects.new) c.new }
    ensures upper_bound { IfOk result (λ h. Numbered c.new h × ((kind ≡ symbol_kind → ⊥) → Free nodes.new h)) }
{
    let h = add_node(nodes, c, kind, a, b, n, name, class)?;
    add_object(objects, c, h)
}

// The n bytes before the offset: where they start.
pub fn add_bytes(input: &[u8], bytes: &mut [u8], c: &mut Progress, n: usize) -> Result<usize, Stop>
    requires { (n ≤ c.old.at) × (c.old.at ≤ length input.now) × (c.old.bytes ≤ length bytes.old) × (length bytes.old ≤ greatest_length) }
    ensures meets { (room : Room) (limit : ℕ) (no re : List ℕ) (sy : Symbols) (ob : List ℕ) → Meets input.now room limit (add_bytes room (span_of input.now c.old n)) (lent no re bytes.old sy ob) c.old result (lent no re bytes.new sy ob) c.new }
    ensures n_bound { IfOk result (λ start. (start + n ≤ c.new.bytes) × (start < 4294967296)) }
{
    let to = c.bytes;
    let at = c.at;
    if bytes.len() - to < n {
        return Err(Stop::NO_BYTES);
    }
    copy_to(&input[at - n..at], bytes, to);
    c.bytes = to + n;
    Ok(to)
}

// Symbol h is put on the symbol list: h.
pub fn add_symbol(symbols: &mut [u32], c: &mut Progress, h: usize) -> Result<usize, Stop>
    requires { h < 4294967296 }
    ensures by_index { (input : List ℕ) (room : Room) (limit : ℕ) (no re by ob : List ℕ) → ((s : State) → Holds input room s (lent no re by (by_list symbols.old) ob) c.old → Symbolic (get_or s.nodes h nil)) → Meets input room limit (add_symbol room h) (lent no re by (by_list symbols.old) ob) c.old result (lent no re by (by_list symbols.new) ob) c.new }
    ensures value { IfOk result (λ v. (v ≡ h) × (c.new.nodes ≡ c.old.nodes)) }
{
    let at = c.symbols;
    if symbols.len() <= at {
        return Err(Stop::NO_SYMBOLS);
    }
    symbols[at] = h as u32;
    c.symbols = at + 1;
    Ok(h)
}

// A symbol's node, put on the symbol list: its number.
pub fn add_symbol_node(
    nodes: &mut [u32],
    symbols: &mut [u32],
    c: &mut Progress,
    start: u32,
    n: u32,
) -> Result<usize, Stop>
    requires { (length nodes.old ≤ greatest_length) × (c.old.room * width ≤ length nodes.old) × (start + n ≤ c.old.bytes) }
    ensures by_index { (input : List ℕ) (room : Room) (limit l : ℕ) (re by ob : List ℕ) → l ≡ n → Meets input room limit (new_symbol room start l) (lent nodes.old re by (by_list symbols.old) ob) c.old result (lent nodes.new re by (by_list symbols.new) ob) c.new }
    ensures upper_bound { IfOk result (Numbered c.new) }
{
    let at = c.nodes;
    if c.room <= at {
        return Err(Stop::NO_NODES);
    }
    let to = c.symbols;
    if symbols.len() <= to {
        return Err(Stop::NO_SYMBOLS);
    }
    put_node(
        nodes,
        at * Node::WIDTH,
        Node::SYMBOL,
        start,
        n,
        0,
        0,
        0,
        0,
        0,
    );
    c.nodes = at + 1;
    symbols[to] = at as u32;
    c.symbols = to + 1;
    Ok(at)
}
