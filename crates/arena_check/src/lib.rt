// Whether the slices lent have allowed lengths, and whether an arena is well formed.
#![tactic(auto)]

ghost use Rattle.std.specs.Prelude.{◌≡◌, true, [], ◌∷◌, ◌+◌, ◌*◌, ◌/◌, ◌<◌, ◌≤◌, eqb, length, take, drop};
ghost use Rattle.definition.specs.Node.{width, is_row, row_of, rows, vars};
ghost use Rattle.definition.specs.Magnitude.{magnitude};
ghost use Rattle.definition.specs.Run.{pick};
ghost use Rattle.definition.specs.Arena.{Arena, Tables, too_long, bad_nodes, range, firsts, all_below, all_names, is_name, bytes_right, list_right, pairs_right, vars_right, class_right, number_right, row_right, node_right, faulty, counts_fit, fault, tables_of, counts_of};
ghost use Rattle.definition.specs.Slice.{greatest_length};
ghost use Rattle.lists.specs.Slices.{Named, Small};
ghost use Rattle.arena_check.specs.Held.{Held, checked, Fits, FitIf};

mod fitted;

use bignum::magnitude_of;
use definition::{Bignum, Counts, Fault, Node, Slice};
use fitted::Fitted;

// ---- lengths of slices

pub fn too_long(n: usize) -> bool
    ensures { result ≡ too_long n }
{
    Slice::GREATEST < n
}

fn wrong_nodes(n: usize) -> bool
    ensures { result ≡ bad_nodes n }
{
    too_long(n) || n == 0 || n % Node::WIDTH != 0
}

// The number of a slice that is wrong, or else `more`, what the slices after it give.
pub fn first_wrong(number: u32, wrong: bool, more: u32) -> u32
    ensures { result ≡ pick wrong number more }
{
    if wrong { number } else { more }
}

// BAD-TABLES: the lowest wrong table, or `more` from the other slices, or 0.
pub fn wrong_table(nodes: usize, references: usize, bytes: usize, more: u32) -> u32
    ensures named { Named nodes references bytes more result }
    ensures small { result ≡ 0 → Small nodes references bytes × (more ≡ 0) }
{
    first_wrong(
        Slice::NODES,
        wrong_nodes(nodes),
        first_wrong(
            Slice::REFERENCES,
            too_long(references),
            first_wrong(Slice::BYTES, too_long(bytes), more),
        ),
    )
}

// ---- the arena

fn all_zero(a: u32, b: u32, s: u32, n: u32, c: u32, f: u32, w: u32) -> bool
    ensures { result ≡ eqb (a + b + s + n + c + f + w) 0 }
{
    a as u64 + b as u64 + s as u64 + n as u64 + c as u64 + f as u64 + w as u64 == 0
}

// Unused words are zero, flags are 0 or 1; an integer's node is tested before. A kind has an arm of its own here and in
// row_right, also where another kind's is the same: the compiler then makes one jump of the two matches.
fn is_row_of(k: u32, a: u32, b: u32, s: u32, n: u32, c: u32, f: u32, w: u32) -> bool
    requires { k ≡ 2 → ⊥ }
    ensures { result ≡ is_row (k ∷ a ∷ b ∷ s ∷ n ∷ c ∷ f ∷ w ∷ []) }
{
    match k {
        Node::NIL => all_zero(a, b, s, n, c, f, w),
        Node::BOOL => a <= 1 && all_zero(0, b, s, n, c, f, w),
        Node::SYMBOL => all_zero(0, 0, s, n, c, f, w),
        Node::ARRAY => all_zero(a, b, 0, 0, c, f, 0),
        Node::HASH => all_zero(a, b, 0, 0, c, 0, 0),
        Node::OBJECT => all_zero(a, b, 0, 0, 0, f, w),
        Node::STRING => match f {
            0 => all_zero(0, 0, s, n, c, 0, 0),
            1 => c == 0,
            _ => false,
        },
        Node::USER_DEFINED => match f {
            0 => all_zero(0, 0, s, n, 0, 0, w),
            1 => w == 0,
            _ => false,
        },
        Node::FLOAT => all_zero(0, 0, s, n, c, f, w),
        Node::BIGNUM => n <= 1 && all_zero(0, 0, s, 0, c, f, w),
        _ => false,
    }
}

// Is the entry below the node count a symbol?
pub fn is_name_at(nodes: &[u32], count: usize, i: u32) -> bool
    requires { count * width ≤ length nodes.now }
    ensures { (A : Arena) → A.nodes ≡ rows count nodes.now → result ≡ is_name A i }
{
    let at = i as usize;
    at < count && nodes[at * Node::WIDTH] == Node::SYMBOL
}

// Are the references below the count? (A for loop: `all` makes the whole check a fifth slower.)
fn all_below(references: &[u32], count: usize) -> bool
    ensures { result ≡ all_below count references.now }
{
    for m in references {
        if count <= *m as usize {
            return false;
        }
    }
    true
}

// A Bignum's magnitude fits, and zero is plus.
fn number_right_at(low: u32, high: u32, sign: u32) -> bool
    ensures { result ≡ number_right (magnitude low high) (eqb sign 1) }
{
    let m = magnitude_of(low, high);
    m < Bignum::TOO_BIG && (sign != 1 || m != 0)
}

impl Fitted<'_> {
    fn is_name(self, i: u32) -> bool
        ensures { (A : Arena) → Held A self.entry → result ≡ is_name A i }
    {
        is_name_at(self.nodes, self.count, i)
    }

    // Is the first of each of the n pairs from `start` on a symbol?
    fn all_names(self, start: usize, n: usize) -> bool
        requires { start + n * 2 ≤ self.used }
        ensures { (A : Arena) → Held A self.entry → result ≡ all_names A (firsts (range self.entry.references.now start (n * 2))) }
    {
        for i in 0..n {
            if !self.is_name(self.references[start + i * 2]) {
                return false;
            }
        }
        true
    }

    fn bytes_right(self, start: u32, n: u32) -> bool
        ensures { (A : Arena) → Held A self.entry → result ≡ bytes_right A start n }
    {
        start as usize + n as usize <= self.stored
    }

    // A list of n references from `start` on lies inside the count, and its members below the node count.
    fn list_right(self, start: u32, n: usize) -> bool
        requires { n ≤ 8589934592 }
        ensures value { (A : Arena) → Held A self.entry → result ≡ list_right A start n }
        ensures n_bound { result ≡ true → start + n ≤ self.entry.used }
    {
        let from = start as usize;
        from + n <= self.used && all_below(&self.references[from..from + n], self.count)
    }

    fn pairs_right(self, start: u32, n: u32) -> bool
        ensures { (A : Arena) → Held A self.entry → result ≡ pairs_right A start n }
    {
        let pairs = n as usize;
        self.list_right(start, pairs * 2) && self.all_names(start as usize, pairs)
    }

    fn vars_right(self, f: u32, start: u32, n: u32) -> bool
        ensures { (A : Arena) → Held A self.entry → result ≡ vars_right A (vars f start n) }
    {
        f == 0 || self.pairs_right(start, n)
    }

    // A class, where there is one, is a symbol.
    fn class_right(self, w: u32) -> bool
        ensures { (A : Arena) → Held A self.entry → result ≡ class_right A w }
    {
        w == 0 || self.is_name(w - 1)
    }

    // The ranges, members and names, and a Bignum's number, of a row of kind k with words 1 to 7.
    fn row_right(self, k: u32, a: u32, b: u32, s: u32, n: u32, c: u32, f: u32, w: u32) -> bool
        ensures { (A : Arena) → Held A self.entry → result ≡ row_right A (row_of k a b s n c f w) }
    {
        match k {
            Node::SYMBOL => self.bytes_right(a, b),
            Node::ARRAY => self.list_right(s, n as usize) && self.class_right(w),
            Node::HASH => {
                self.list_right(s, n as usize * 2)
                    && f as usize <= self.count
                    && self.class_right(w)
            }
            Node::OBJECT => self.is_name(c) && self.pairs_right(s, n),
            Node::STRING => {
                self.bytes_right(a, b) && self.vars_right(f, s, n) && self.class_right(w)
            }
            Node::USER_DEFINED => {
                self.bytes_right(a, b) && self.is_name(c) && self.vars_right(f, s, n)
            }
            Node::FLOAT => self.bytes_right(a, b),
            Node::BIGNUM => number_right_at(a, b, n),
            _ => true,
        }
    }

    // Most nodes are integers: they are tested first.
    fn node_right(self, i: usize) -> bool
        requires { i < self.count }
        ensures { (A : Arena) → Held A self.entry → result ≡ node_right A (take width (drop (i * width) self.entry.nodes.now)) }
    {
        let at = i * Node::WIDTH;
        let k = self.nodes[at];
        let a = self.nodes[at + Node::START];
        let b = self.nodes[at + Node::LENGTH];
        let s = self.nodes[at + Node::LIST];
        let n = self.nodes[at + Node::COUNT];
        let c = self.nodes[at + Node::NAME];
        let f = self.nodes[at + Node::DEFAULT];
        let w = self.nodes[at + Node::CLASS];
        if k == Node::FIXNUM {
            return all_zero(0, b, s, n, c, f, w);
        }
        is_row_of(k, a, b, s, n, c, f, w) && self.row_right(k, a, b, s, n, c, f, w)
    }

    // The lowest node that breaks a rule.
    fn check_nodes(self) -> Result<(), Fault>
        ensures { (A : Arena) → Held A self.entry → checked result ≡ faulty A self.entry.count 0 self.entry.nodes.now }
    {
        for i in 0..self.count {
            if !self.node_right(i) {
                return Err(Fault::Node(i as u32));
            }
        }
        Ok(())
    }
}

fn counts_fit(nodes: usize, references: usize, bytes: usize, counts: Counts) -> bool
    ensures value { (T : Tables) → length T.nodes ≡ nodes → length T.references ≡ references → length T.bytes ≡ bytes → result ≡ counts_fit T counts }
    ensures fits { result ≡ true → Fits nodes references bytes counts }
{
    counts.nodes != 0
        && counts.nodes <= nodes / Node::WIDTH
        && counts.references <= references
        && counts.bytes <= bytes
        && (counts.root as usize) < counts.nodes
}

// BAD-ARENA: what is not well formed, counts before nodes.
pub fn check(nodes: &[u32], references: &[u32], bytes: &[u8], counts: Counts) -> Result<(), Fault>
    requires { length nodes.now ≤ greatest_length }
    ensures result_value { checked result ≡ fault (tables_of nodes.now references.now bytes.now) counts }
    ensures fit_if { FitIf result (length nodes.now) (length references.now) (length bytes.now) counts }
{
    if !counts_fit(nodes.len(), references.len(), bytes.len(), counts) {
        return Err(Fault::Counts);
    }
    let fitted = Fitted {
        nodes,
        references,
        count: counts.nodes,
        used: counts.references,
        stored: counts.bytes,
    };
    fitted.check_nodes()
}
