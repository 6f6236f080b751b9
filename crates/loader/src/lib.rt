// What the readers of members and the call need: values with members opened and filled, and the lengths lent.
//
// What is lent and how far the load has come, `c`, hold a state of the definition before a call. What is answered is the
// value that the definition's reader gives there, and a state is held again; or it is the reader's refusal.
#![tactic(auto)]

ghost use Rattle.std.specs.Prelude.{◌≡◌, true, List, [], ◌∷◌, ℕ, ◌+◌, ◌-◌, ◌*◌, ◌/◌, ◌<◌, ◌≤◌, IfOk, length, get_or};
ghost use Rattle.definition.specs.Node.{Row, words, nil, width};
ghost use Rattle.definition.specs.Run.{pure};
ghost use Rattle.definition.specs.State.{Room, Reader};
ghost use Rattle.definition.specs.Load.{add_object_node, counted, fill, takes_variables};
ghost use Rattle.definition.specs.LoadHashed.{bad_buckets};
ghost use Rattle.definition.specs.Slice.{greatest_length};
ghost use Rattle.load_state.specs.declared.Progress.{Progress};
ghost use Rattle.load_state.specs.Holds.{Symbols, Lent, lent, Held, Somewhere, Goes, Leads, Meets, Plain, Numbered, Free};
ghost use Rattle.loader.specs.Parts.{settle, after_i};
ghost use Rattle.loader.specs.Lengths.{wrong, Allowed};

use arena_check::{first_wrong, too_long, wrong_table};
use definition::{LIMIT, Node, Slice, ValueKind};
use input_reader::read_count;
use load_state::Progress;
use reader::Stop;
use store::{fill_range, put_node};
use table_writer::add_object_node;

// A nil node for what has members, put on the object list: its number.
pub fn open_node(nodes: &mut [u32], objects: &mut [u32], c: &mut Progress) -> Result<usize, Stop>
    requires { (length nodes.old ≤ greatest_length) × (c.old.room * width ≤ length nodes.old) }
    ensures by_index { (input : List ℕ) (room : Room) (limit : ℕ) (re by : List ℕ) (sy : Symbols) → Meets input room limit (add_object_node room nil) (lent nodes.old re by sy objects.old) c.old result (lent nodes.new re by sy objects.new) c.new }
    ensures upper_bound { IfOk result (λ h. Numbered c.new h × Free nodes.new h) }
{
    add_object_node(nodes, objects, c, Node::NIL, 0, 0, 0, 0, 0)
}

// A count, and so many times `each` reference words more, which are zero: the count.
pub fn read_words(
    input: &[u8],
    references: &mut [u32],
    c: &mut Progress,
    each: usize,
) -> Result<usize, Stop>
    requires { (each ≤ 2) × ((no : List ℕ) × (by : List ℕ) × (sy : Symbols) × (ob : List ℕ) × Held input.now (lent no references.old by sy ob) c.old) }
    ensures leads { (room : Room) (limit : ℕ) (no by : List ℕ) (sy : Symbols) (ob : List ℕ) (k : ℕ → ℕ → Reader ℕ) → Leads input.now room limit (counted input.now room each k) (λ n. k (c.new.references - n * each) n) (lent no references.old by sy ob) c.old result (lent no references.new by sy ob) c.new }
    ensures upper_bound { IfOk result (λ n. (n < 2147483648) × (n * each ≤ c.new.references)) }
{
    let n = read_count(input, c)?;
    let at = c.references;
    let k = n * each;
    if references.len() - at < k {
        return Err(Stop::NO_REFERENCES);
    }
    fill_range(references, at, k, 0);
    c.references = at + k;
    Ok(n)
}

// A container's node h is filled.
pub fn fill_node(
    nodes: &mut [u32],
    h: usize,
    kind: u32,
    list: u32,
    n: u32,
    name: u32,
    default: u32,
    class: u32,
)
    requires { h * width + width ≤ length nodes.old }
    ensures { (input : List ℕ) (room : Room) (row : Row) (re by : List ℕ) (sy : Symbols) (ob : List ℕ) (c : Progress) → words row ≡ kind ∷ 0 ∷ 0 ∷ list ∷ n ∷ name ∷ default ∷ class ∷ [] → Plain row → h < c.nodes → (sy.searched ≡ true → Free nodes.old h) → Goes input room (fill h row) (lent nodes.old re by sy ob) c (pure h) (lent nodes.new re by sy ob) c }
{
    put_node(
        nodes,
        h * Node::WIDTH,
        kind,
        0,
        0,
        list,
        n,
        name,
        default,
        class,
    );
}

// Does a string, a user-defined or a class stand at `at`? Dump writes `I` before nothing else.
fn takes_next(input: &[u8], at: usize) -> bool
    ensures { result ≡ takes_variables (get_or input.now at 0) }
{
    if input.len() <= at {
        return false;
    }
    let k = input[at];
    (k == ValueKind::STRING) | (k == ValueKind::USER_DEFINED) | (k == ValueKind::USER_CLASS)
}

// After `I`: that something else comes directly is noted.
pub fn note_inner(input: &[u8], c: &mut Progress)
    requires { Somewhere input.now c.old }
    ensures { (room : Room) (T : Lent) (inner : Reader ℕ) → Goes input.now room (after_i input.now inner) T c.old inner T c.new }
{
    if takes_next(input, c.at) {
        return;
    }
    c.form = false;
}

// The variable list of node h is this one, if it is a string or user-defined: h.
pub fn set_variables(nodes: &mut [u32], h: usize, list: u32, n: u32) -> Result<usize, Stop>
    requires { h * width + width ≤ length nodes.old }
    ensures by_index { (input : List ℕ) (room : Room) (limit : ℕ) (re by : List ℕ) (sy : Symbols) (ob : List ℕ) (c : Progress) → h < c.nodes → Meets input room limit (settle h list n) (lent nodes.old re by sy ob) c result (lent nodes.new re by sy ob) c }
    ensures value { IfOk result (λ v. v ≡ h) }
{
    let base = h * Node::WIDTH;
    let kind = nodes[base];
    if kind < Node::STRING {
        return Err(Stop::NOT_AN_OBJECT);
    }
    if Node::USER_DEFINED < kind {
        return Err(Stop::NOT_AN_OBJECT);
    }
    let a = nodes[base + Node::START];
    let b = nodes[base + Node::LENGTH];
    let name = nodes[base + Node::NAME];
    let class = nodes[base + Node::CLASS];
    put_node(nodes, base, kind, a, b, list, n, name, 1, class);
    Ok(h)
}

// Has the bucket table too few words for a node table of so many words, or too many?
pub fn wrong_buckets(nodes: usize, buckets: usize) -> bool
    ensures { result ≡ bad_buckets (nodes / width) buckets }
{
    if buckets < nodes / Node::WIDTH {
        return true;
    }
    too_long(buckets)
}

// The lowest wrong slice's number by the lengths lent, or 0; whether the bucket table is wrong is given.
pub fn wrong_slice(
    nodes: usize,
    references: usize,
    bytes: usize,
    symbols: usize,
    objects: usize,
    limit: u32,
    input: usize,
    buckets: bool,
) -> u32
    ensures value { result ≡ wrong nodes references bytes symbols objects limit input buckets }
    ensures allowed { result ≡ 0 → Allowed nodes references bytes symbols objects input buckets }
{
    wrong_table(
        nodes,
        references,
        bytes,
        first_wrong(
            Slice::SYMBOLS,
            too_long(symbols),
            first_wrong(
                Slice::OBJECTS,
                too_long(objects),
                first_wrong(
                    Slice::LIMIT,
                    LIMIT < limit,
                    first_wrong(
                        Slice::INPUT,
                        too_long(input),
                        first_wrong(Slice::BUCKETS, buckets, 0),
                    ),
                ),
            ),
        ),
    )
}
