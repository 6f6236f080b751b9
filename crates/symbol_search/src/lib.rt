// The searches for a name: over the symbol list, over it with the bytes compared counted, and in the bucket table.
//
// What is lent and how far the load has come hold a state of the definition.
#![tactic(auto)]

ghost use Rattle.std.specs.Prelude.{◌≡◌, List, ℕ, suc, ◌+◌, ◌-◌, ◌*◌, ◌%◌, ◌<◌, ◌≤◌, true, false, Some, MatchResult, length, get_or, set, take, drop};
ghost use Rattle.definition.specs.Node.{nil, width, LENGTH};
ghost use Rattle.definition.specs.Arena.{named, compared_among};
ghost use Rattle.definition.specs.State.{Room, State};
ghost use Rattle.definition.specs.Slice.{greatest_length};
ghost use Rattle.load_state.specs.Holds.{Symbols, lent, by_list, by_buckets, Held, Holds, Symbolic, find_listed, span};
ghost use Rattle.load_state.specs.declared.Progress.{Progress};
ghost use Rattle.symbol_search.specs.Search.{Found, Like, Alike, Compared, Probe, Ends};

use definition::Node;
use store::same_bytes;

// The last of the n bytes before `at`, or 0 where there are none.
fn last_byte(input: &[u8], at: usize, n: u32) -> u8
    requires { (n ≤ at) × (at ≤ length input.now) }
    ensures { result ≡ get_or (span input.now at n) (n - 1) 0 }
{
    if n == 0 {
        return 0;
    }
    input[at - 1]
}

// Has the symbol h a name of n bytes, of which `last` is the last? Names of one length mostly differ there.
fn is_like(nodes: &[u32], bytes: &[u8], h: u32, n: u32, last: u8) -> bool
    requires { (room : Room) × (s : State) × (input : List ℕ) × (re : List ℕ) × (sy : Symbols) × (ob : List ℕ) × (c : Progress) × Symbolic (get_or s.nodes h nil) × Holds input room s (lent nodes.now re bytes.now sy ob) c }
    ensures like { result ≡ true → Like nodes.now bytes.now h n last }
    ensures false_value { (room : Room) (s : State) (input re : List ℕ) (sy : Symbols) (ob : List ℕ) (c : Progress) (name : List ℕ) → result ≡ false → Symbolic (get_or s.nodes h nil) → Holds input room s (lent nodes.now re bytes.now sy ob) c → Ends name n last → false ≡ named s.bytes name (get_or s.nodes h nil) }
{
    let base = (h as usize) * Node::WIDTH;
    if nodes[base + Node::LENGTH] != n {
        return false;
    }
    if n == 0 {
        return true;
    }
    let to = nodes[base + Node::START] as usize;
    if bytes[to + (n as usize - 1)] != last {
        return false;
    }
    true
}

// The first entry of the symbol list, from entry `from` to `count`, that has a name of n bytes, of which `last` is the
// last; `count` where there is none. Most of a search is here, so it is a loop of its own over little.
fn next_like(
    nodes: &[u32],
    bytes: &[u8],
    symbols: &[u32],
    from: usize,
    count: usize,
    n: u32,
    last: u8,
) -> usize
    requires { (from ≤ count) × ((room : Room) × (s : State) × (input : List ℕ) × (re : List ℕ) × (ob : List ℕ) × (c : Progress) × (c.symbols ≡ count) × Holds input room s (lent nodes.now re bytes.now (by_list symbols.now) ob) c) }
    ensures lower_bound { (from ≤ result) × (result ≤ count) × (result < count → Like nodes.now bytes.now (get_or symbols.now result 0) n last) }
    ensures symbols_value { (room : Room) (s : State) (input re ob : List ℕ) (c : Progress) (name : List ℕ) → c.symbols ≡ count → Holds input room s (lent nodes.now re bytes.now (by_list symbols.now) ob) c → Ends name n last → find_listed s.bytes name s.nodes (drop from s.symbols) ≡ find_listed s.bytes name s.nodes (drop result s.symbols) }
{
    for i in from..count {
        if is_like(nodes, bytes, symbols[i], n, last) {
            return i;
        }
    }
    count
}

// Do the n bytes before `at` name the symbol h, whose name has so many?
fn is_named(input: &[u8], nodes: &[u32], bytes: &[u8], at: usize, h: u32, n: u32) -> bool
    requires { (n ≤ at) × (at ≤ length input.now) × (get_or nodes.now (h * width + LENGTH) 0 ≡ n) × ((room : Room) × (s : State) × (re : List ℕ) × (sy : Symbols) × (ob : List ℕ) × (c : Progress) × Symbolic (get_or s.nodes h nil) × Holds input.now room s (lent nodes.now re bytes.now sy ob) c) }
    ensures { (room : Room) (s : State) (re : List ℕ) (sy : Symbols) (ob : List ℕ) (c : Progress) → Symbolic (get_or s.nodes h nil) → Holds input.now room s (lent nodes.now re bytes.now sy ob) c → result ≡ named s.bytes (span input.now at n) (get_or s.nodes h nil) }
{
    let k = n as usize;
    let to = nodes[(h as usize) * Node::WIDTH + Node::START] as usize;
    same_bytes(&input[at - k..at], &bytes[to..to + k])
}

// The first of the `count` symbols on the symbol list that the n bytes before `at` name.
pub fn find_symbol(
    input: &[u8],
    nodes: &[u32],
    bytes: &[u8],
    symbols: &[u32],
    at: usize,
    count: usize,
    n: u32,
) -> Option<u32>
    requires { (n ≤ at) × (at ≤ length input.now) × ((room : Room) × (s : State) × (re : List ℕ) × (ob : List ℕ) × (c : Progress) × (c.symbols ≡ count) × Holds input.now room s (lent nodes.now re bytes.now (by_list symbols.now) ob) c) }
    ensures { (room : Room) (s : State) (re ob : List ℕ) (c : Progress) → c.symbols ≡ count → Holds input.now room s (lent nodes.now re bytes.now (by_list symbols.now) ob) c → Found s (span input.now at n) result }
{
    let last = last_byte(input, at, n);
    let mut i: usize = 0;
    // a `while`: the index goes on behind what was found
    while i < count {
        let j = next_like(nodes, bytes, symbols, i, count, n, last);
        if count <= j {
            return None;
        }
        let h = symbols[j];
        if is_named(input, nodes, bytes, at, h, n) {
            return Some(h);
        }
        i = j + 1;
    }
    None
}

// How many of the n bytes from `from` on are those from `to` on, before the first that differs.
fn alike(input: &[u8], from: usize, bytes: &[u8], to: usize, n: usize) -> usize
    requires { (from + n ≤ length input.now) × (to + n ≤ length bytes.now) }
    ensures { Alike (take n (drop from input.now)) (take n (drop to bytes.now)) n result }
{
    for i in 0..n {
        if input[from + i] != bytes[to + i] {
            return i;
        }
    }
    n
}

// What compare_name answers for names of n bytes of which the first `alike` are the same: Ok(n) where that is all of them,
// else an error with one more, the first that differs.
fn compared(alike: usize, n: u32) -> Result<usize, usize>
    requires { alike ≤ n }
    ensures { MatchResult result (λ k. (k ≡ n) × (alike ≡ n)) (λ k. (k ≡ alike + 1) × (alike < n)) }
{
    let k = n as usize;
    if alike < k {
        return Err(alike + 1);
    }
    Ok(k)
}

// The n bytes before `at` are compared with the name of the symbol h, if that has so many: Ok where they name it, else an
// error; with how many were compared, the first that differs included.
fn compare_name(
    input: &[u8],
    nodes: &[u32],
    bytes: &[u8],
    at: usize,
    h: u32,
    n: u32,
) -> Result<usize, usize>
    requires { (n ≤ at) × (at ≤ length input.now) × ((room : Room) × (s : State) × (re : List ℕ) × (sy : Symbols) × (ob : List ℕ) × (c : Progress) × Symbolic (get_or s.nodes h nil) × Holds input.now room s (lent nodes.now re bytes.now sy ob) c) }
    ensures { (room : Room) (s : State) (re : List ℕ) (sy : Symbols) (ob : List ℕ) (c : Progress) → Symbolic (get_or s.nodes h nil) → Holds input.now room s (lent nodes.now re bytes.now sy ob) c → Compared s (span input.now at n) (get_or s.nodes h nil) result }
{
    let base = (h as usize) * Node::WIDTH;
    if nodes[base + Node::LENGTH] != n {
        return Err(0);
    }
    let k = n as usize;
    let to = nodes[base + Node::START] as usize;
    compared(alike(input, at - k, bytes, to, k), n)
}

// find_symbol, comparing from the first byte on, and the bytes compared are added to `total`. Symbols come on the list in the
// order of their numbers, and again: an entry below `next` was met already.
pub fn measure_symbol(
    input: &[u8],
    nodes: &[u32],
    bytes: &[u8],
    symbols: &[u32],
    total: &mut usize,
    at: usize,
    count: usize,
    n: u32,
) -> Option<u32>
    requires { (n ≤ at) × (at ≤ length input.now) × ((room : Room) × (s : State) × (re : List ℕ) × (ob : List ℕ) × (c : Progress) × (c.symbols ≡ count) × (c.compared ≡ Some total.old) × Holds input.now room s (lent nodes.now re bytes.now (by_list symbols.now) ob) c) }
    ensures { (room : Room) (s : State) (re ob : List ℕ) (c : Progress) → c.symbols ≡ count → Holds input.now room s (lent nodes.now re bytes.now (by_list symbols.now) ob) c → Found s (span input.now at n) result × (total.new ≡ total.old + compared_among s.bytes (span input.now at n) s.nodes) }
{
    let mut sum = *total;
    let mut next: u32 = 0;
    for i in 0..count {
        let h = symbols[i];
        if h < next {
            continue;
        }
        match compare_name(input, nodes, bytes, at, h, n) {
            Ok(k) => {
                *total = sum + k;
                return Some(h);
            }
            Err(k) => sum += k,
        }
        next = h + 1;
    }
    *total = sum;
    None
}

// The word where a search goes on after the last.
const FIRST: usize = 0;

// The word after word i of m, wrapping.
fn next_word(i: usize, m: usize) -> usize
    requires { i < m }
    ensures { (suc i < m → result ≡ suc i) × (suc i ≡ m → result ≡ 0) }
{
    if i + 1 < m {
        return i + 1;
    }
    FIRST
}

// Word i of m and p words more, wrapping.
pub fn word_on(i: usize, p: usize, m: usize) -> usize
    requires { (i < m) × (p < m) × (m ≤ greatest_length) }
    ensures { (result ≡ (i + p) % m) × (result < m) }
{
    if i + p < m {
        return i + p;
    }
    i + p - m
}

// Do the n bytes before `at`, of which `last` is the last, name the symbol h?
fn has_name(input: &[u8], nodes: &[u32], bytes: &[u8], at: usize, h: u32, n: u32, last: u8) -> bool
    requires { (n ≤ at) × (at ≤ length input.now) × Ends (span input.now at n) n last × ((room : Room) × (s : State) × (re : List ℕ) × (sy : Symbols) × (ob : List ℕ) × (c : Progress) × Symbolic (get_or s.nodes h nil) × Holds input.now room s (lent nodes.now re bytes.now sy ob) c) }
    ensures { (room : Room) (s : State) (re : List ℕ) (sy : Symbols) (ob : List ℕ) (c : Progress) → Symbolic (get_or s.nodes h nil) → Holds input.now room s (lent nodes.now re bytes.now sy ob) c → result ≡ named s.bytes (span input.now at n) (get_or s.nodes h nil) }
{
    if !is_like(nodes, bytes, h, n, last) {
        return false;
    }
    is_named(input, nodes, bytes, at, h, n)
}

// How many words of the bucket table, from word `start` on and wrapping, hold symbols with other names than the n bytes before
// `at`, up to the symbol with that name or a zero word. A word is always zero, so it is never gone round.
pub fn probe(
    input: &[u8],
    nodes: &[u32],
    bytes: &[u8],
    buckets: &[u32],
    start: usize,
    at: usize,
    n: u32,
) -> usize
    requires { (n ≤ at) × (at ≤ length input.now) × (start < length buckets.now) × ((room : Room) × (s : State) × (re : List ℕ) × (sy : List ℕ) × (ob : List ℕ) × (c : Progress) × Holds input.now room s (lent nodes.now re bytes.now (by_buckets sy buckets.now) ob) c) }
    ensures upper_bound { result < length buckets.now }
    ensures probe { (room : Room) (s : State) (re sy ob : List ℕ) (c : Progress) → Holds input.now room s (lent nodes.now re bytes.now (by_buckets sy buckets.now) ob) c → Probe s (span input.now at n) buckets.now start result }
{
    let last = last_byte(input, at, n);
    let m = buckets.len();
    let mut i = start;
    for p in 0..m {
        let h = buckets[i];
        if h == 0 {
            return p;
        }
        if has_name(input, nodes, bytes, at, h, n, last) {
            return p;
        }
        i = next_word(i, m);
    }
    m
}
