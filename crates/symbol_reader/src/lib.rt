// Names: a symbol read, searched for and added where it is new, or a link to one.
//
// What is lent and how far the load has come, `c`, hold a state of the definition before a call. What is answered is the
// value that the definition's reader gives there, and a state is held again; or it is the reader's refusal.
#![tactic(auto)]

ghost use Rattle.std.specs.Prelude.{◌≡◌, List, ℕ, ◌+◌, ◌<◌, ◌≤◌, Some, None, IfSome, IfOk, length, get_or};
ghost use Rattle.definition.specs.Node.{nil};
ghost use Rattle.definition.specs.State.{Room, State};
ghost use Rattle.definition.specs.Load.{read_symbol, read_symbol_link, read_symbol_like};
ghost use Rattle.load_state.specs.declared.Progress.{Progress};
ghost use Rattle.load_state.specs.Holds.{lent, by_list, by_buckets, Held, Holds, Goes, Meets, Symbolic, Numbered, span_of};
ghost use Rattle.symbol_reader.specs.Parts.{read_name, add_name};

use definition::ValueKind;
use fnv::fnv_1a;
use input_reader::{read_count, read_length};
use load_state::Progress;
use reader::Stop;
use symbol_search::{find_symbol, measure_symbol, probe, word_on};
use table_writer::{add_bytes, add_symbol, add_symbol_node};

// The entry of the symbol list that the index read names.
pub fn read_symbol_link(input: &[u8], symbols: &[u32], c: &mut Progress) -> Result<usize, Stop>
    requires { (no : List ℕ) × (re : List ℕ) × (by : List ℕ) × (ob : List ℕ) × (bu : List ℕ) × Held input.now (lent no re by (by_buckets symbols.now bu) ob) c.old }
    ensures meets { (room : Room) (limit : ℕ) (no re by ob bu : List ℕ) → Meets input.now room limit (read_symbol_link input.now) (lent no re by (by_buckets symbols.now bu) ob) c.old result (lent no re by (by_buckets symbols.now bu) ob) c.new }
    ensures upper_bound { IfOk result (Numbered c.new) }
{
    let n = read_count(input, c)?;
    if c.symbols <= n {
        return Err(Stop::missing_symbol(n as u32));
    }
    Ok(symbols[n] as usize)
}

// The first symbol that the n bytes at the offset name, which are passed.
fn search_symbol(
    input: &[u8],
    nodes: &[u32],
    bytes: &[u8],
    symbols: &[u32],
    c: &mut Progress,
    n: u32,
) -> Option<u32>
    requires { (c.old.at + n ≤ length input.now) × ((re : List ℕ) × (ob : List ℕ) × Held input.now (lent nodes.now re bytes.now (by_list symbols.now) ob) c.old) }
    ensures goes { (room : Room) (re ob : List ℕ) → Goes input.now room (read_name input.now room n) (lent nodes.now re bytes.now (by_list symbols.now) ob) c.old (add_name room (span_of input.now c.new n) result) (lent nodes.now re bytes.now (by_list symbols.now) ob) c.new }
    ensures symbolic { (room : Room) (s : State) (re ob : List ℕ) (k : Progress) → k.symbols ≡ c.new.symbols → Holds input.now room s (lent nodes.now re bytes.now (by_list symbols.now) ob) k → IfSome result (λ h. Symbolic (get_or s.nodes h nil)) }
    ensures n_bound { (n ≤ c.new.at) × (c.new.at ≤ length input.now) }
{
    let at = c.at + n as usize;
    c.at = at;
    match c.compared {
        None => find_symbol(input, nodes, bytes, symbols, at, c.symbols, n),
        Some(before) => {
            let mut total = before;
            let r = measure_symbol(input, nodes, bytes, symbols, &mut total, at, c.symbols, n);
            c.compared = Some(total);
            r
        }
    }
}

// A name, the n bytes before the offset, after the search for it, which answered `known`: the symbol, added where it is new,
// and put on the symbol list. That it is not new is noted.
fn intern_symbol(
    input: &[u8],
    nodes: &mut [u32],
    bytes: &mut [u8],
    symbols: &mut [u32],
    c: &mut Progress,
    n: u32,
    known: Option<u32>,
) -> Result<usize, Stop>
    requires { (n ≤ c.old.at) × (c.old.at ≤ length input.now) × IfSome known (λ h. h < c.old.nodes) × ((re : List ℕ) × (ob : List ℕ) × Held input.now (lent nodes.old re bytes.old (by_list symbols.old) ob) c.old) }
    ensures meets { (room : Room) (limit : ℕ) (re ob : List ℕ) → ((s : State) (k : Progress) → k.symbols ≡ c.old.symbols → Holds input.now room s (lent nodes.old re bytes.old (by_list symbols.old) ob) k → IfSome known (λ h. Symbolic (get_or s.nodes h nil))) → Meets input.now room limit (add_name room (span_of input.now c.old n) known) (lent nodes.old re bytes.old (by_list symbols.old) ob) c.old result (lent nodes.new re bytes.new (by_list symbols.new) ob) c.new }
    ensures upper_bound { IfOk result (Numbered c.new) }
{
    match known {
        Some(h) => {
            c.form = false;
            add_symbol(symbols, c, h as usize)
        }
        None => {
            let start = add_bytes(input, bytes, c, n as usize)?;
            add_symbol_node(nodes, symbols, c, start as u32, n)
        }
    }
}

// The symbol in a word of the bucket table: none where it is zero.
fn symbol_in(h: u32) -> Option<u32>
    ensures { (h ≡ 0 → result ≡ None) × ((h ≡ 0 → ⊥) → result ≡ Some h) }
{
    if h == 0 {
        return None;
    }
    Some(h)
}

// A name, the n bytes at the offset, by the bucket table: the symbol stands then where the search ended.
fn read_hashed(
    input: &[u8],
    nodes: &mut [u32],
    bytes: &mut [u8],
    symbols: &mut [u32],
    buckets: &mut [u32],
    c: &mut Progress,
    n: u32,
) -> Result<usize, Stop>
    requires { (c.old.at + n ≤ length input.now) × (length buckets.old ≡ 0 → ⊥) × ((re : List ℕ) × (ob : List ℕ) × Held input.now (lent nodes.old re bytes.old (by_buckets symbols.old buckets.old) ob) c.old) }
    ensures meets { (room : Room) (limit : ℕ) (re ob : List ℕ) → Meets input.now room limit (read_name input.now room n) (lent nodes.old re bytes.old (by_buckets symbols.old buckets.old) ob) c.old result (lent nodes.new re bytes.new (by_buckets symbols.new buckets.new) ob) c.new }
    ensures upper_bound { IfOk result (Numbered c.new) }
{
    let k = n as usize;
    let at = c.at + k;
    let m = buckets.len();
    let start = fnv_1a(input, c.at, k) as usize % m;
    let p = probe(input, nodes, bytes, buckets, start, at, n);
    let i = word_on(start, p, m);
    let looked = c.looked + (p + 1);
    c.at = at;
    let r = intern_symbol(input, nodes, bytes, symbols, c, n, symbol_in(buckets[i]))?;
    buckets[i] = r as u32;
    c.looked = looked;
    Ok(r)
}

// The symbol of the name read, added where it is new, and put on the symbol list. Without words in the bucket table the name is
// searched for on that list.
pub fn read_symbol(
    input: &[u8],
    nodes: &mut [u32],
    bytes: &mut [u8],
    symbols: &mut [u32],
    buckets: &mut [u32],
    c: &mut Progress,
) -> Result<usize, Stop>
    requires { (re : List ℕ) × (ob : List ℕ) × Held input.now (lent nodes.old re bytes.old (by_buckets symbols.old buckets.old) ob) c.old }
    ensures meets { (room : Room) (limit : ℕ) (re ob : List ℕ) → Meets input.now room limit (read_symbol input.now room) (lent nodes.old re bytes.old (by_buckets symbols.old buckets.old) ob) c.old result (lent nodes.new re bytes.new (by_buckets symbols.new buckets.new) ob) c.new }
    ensures upper_bound { IfOk result (Numbered c.new) }
{
    let n = read_length(input, c)? as u32;
    if 0 < buckets.len() {
        return read_hashed(input, nodes, bytes, symbols, buckets, c, n);
    }
    let known = search_symbol(input, nodes, bytes, symbols, c, n);
    intern_symbol(input, nodes, bytes, symbols, c, n, known)
}

// A name: a symbol or a link to one.
pub fn read_symbol_like(
    input: &[u8],
    nodes: &mut [u32],
    bytes: &mut [u8],
    symbols: &mut [u32],
    buckets: &mut [u32],
    c: &mut Progress,
) -> Result<usize, Stop>
    requires { (re : List ℕ) × (ob : List ℕ) × Held input.now (lent nodes.old re bytes.old (by_buckets symbols.old buckets.old) ob) c.old }
    ensures meets { (room : Room) (limit : ℕ) (re ob : List ℕ) → Meets input.now room limit (read_symbol_like input.now room) (lent nodes.old re bytes.old (by_buckets symbols.old buckets.old) ob) c.old result (lent nodes.new re bytes.new (by_buckets symbols.new buckets.new) ob) c.new }
    ensures upper_bound { IfOk result (Numbered c.new) }
{
    let at = c.at;
    if input.len() <= at {
        return Err(Stop::SHORT_INPUT);
    }
    let k = input[at];
    c.at = at + 1;
    match k {
        ValueKind::SYMBOL => read_symbol(input, nodes, bytes, symbols, buckets, c),
        ValueKind::SYMBOL_LINK => read_symbol_link(input, symbols, c),
        _ => Err(Stop::not_a_symbol(k)),
    }
}
