// The answers of load, dump, the arena's functions, weighing and costing as words and doubles, for programs in C. Each kind has
// a function: with a trait each call would hand in what a refused answer says, and the definition's words would stand twice.
#![tactic(auto, using(crate::proofs::Words::tellings))]

ghost use Rattle.std.specs.Prelude.{◌≡◌, [], ◌∷◌, ◌++◌, ◌≤◌, length};
ghost use Rattle.std.proofs.lemmas.List.Edits.{sets};
ghost use Rattle.definition.specs.Refused.{Refused, answer_of, answer_numbers};
ghost use Rattle.definition.specs.Load.{load_answer};
ghost use Rattle.definition.specs.LoadMeasured.{measured_answer};
ghost use Rattle.definition.specs.LoadHashed.{hashed_answer};
ghost use Rattle.definition.specs.Dump.{dump_answer};
ghost use Rattle.definition.specs.Build.{build_answer, new_answer, number_answer, words_answer, name_answer};
ghost use Rattle.definition.specs.Weight.{reading_answer, weighed_answer};
ghost use Rattle.definition.specs.Cost.{cost_answer};
ghost use Rattle.reply.specs.Reply.{word, details, load_of, flag, count_words, loaded_words, measured_words, hashed_words, dumped_words, begun_words, number_words, node_words, name_words, created_words, reading_kind, reading_whole, reading_double, reading_words, weighed_words, weighing_doubles, costed_words};

use definition::{
    Counts, Created, Hashed, Loaded, Measured, Name, Node, Reading, Refusal, Weighing,
};
use refusal::{answer_numbers, counts_left};

// The counts of nothing.
const NO_COUNTS: Counts = Counts {
    nodes: 0,
    references: 0,
    bytes: 0,
    root: 0,
};

// A detail as a word, 64 bits in two's complement.
pub fn detail(n: i64) -> u64
    ensures { result ≡ word n }
{
    n.cast_unsigned()
}

// A yes or no as a word.
pub fn flag_of(b: bool) -> u64
    ensures { result ≡ flag b }
{
    if b { 1 } else { 0 }
}

// What a node reads as: its kind, the whole number as 64 bits in two's complement, and the double.
pub fn kind_of(r: Reading) -> u64
    ensures { result ≡ reading_kind r }
{
    match r {
        Reading::NotANumber => 0,
        Reading::Whole(_) => 1,
        Reading::Double(_) => 2,
    }
}

#[tactic(auto, unfolding(crate::specs::Reply::reading_whole))]
pub fn whole_of(r: Reading) -> u64
    ensures { result ≡ reading_whole r }
{
    match r {
        Reading::NotANumber => 0,
        Reading::Whole(n) => detail(i64::from(n)),
        Reading::Double(_) => 0,
    }
}

pub fn double_of(r: Reading) -> f64
    ensures { result ≡ reading_double r }
{
    match r {
        Reading::NotANumber => 0.0,
        Reading::Whole(_) => 0.0,
        Reading::Double(x) => x,
    }
}

// Words 0 and 1; the answer's number is returned.
pub fn tell<T: Copy>(answer: &mut [u64], r: Result<T, Refusal>) -> u32
    requires { 2 ≤ length answer.old }
    ensures { (result ≡ (answer_numbers (answer_of r)).0) × (answer.new ≡ sets answer.old 0 (details (answer_of r))) }
{
    let n = answer_numbers(r);
    answer[0] = detail(n.first);
    answer[1] = n.second as u64;
    n.number
}

// Words 2 to 5.
pub fn tell_counts(answer: &mut [u64], c: Counts)
    requires { 6 ≤ length answer.old }
    ensures { answer.new ≡ sets answer.old 2 (count_words c) }
{
    answer[2] = c.nodes as u64;
    answer[3] = c.references as u64;
    answer[4] = c.bytes as u64;
    answer[5] = c.root as u64;
}

// A node's words, from word 2 on.
pub fn tell_node(answer: &mut [u64], a: u32, b: u32, c: u32, d: u32, e: u32, f: u32, g: u32, h: u32)
    requires { 10 ≤ length answer.old }
    ensures { answer.new ≡ sets answer.old 2 (a ∷ b ∷ c ∷ d ∷ e ∷ f ∷ g ∷ h ∷ []) }
{
    answer[2] = a as u64;
    answer[3] = b as u64;
    answer[4] = c as u64;
    answer[5] = d as u64;
    answer[6] = e as u64;
    answer[7] = f as u64;
    answer[8] = g as u64;
    answer[9] = h as u64;
}

// What the words of a refused load say.
#[tactic(auto, unfolding(definition::specs::Load::load_answer))]
fn left(q: Refusal) -> Loaded
    ensures { load_answer (Err q) ≡ load_of (Refused q) result }
{
    Loaded {
        counts: counts_left(q),
        used: 0,
        form: false,
    }
}

// What a load's words say, a measuring one's, and a hashed one's.
#[tactic(auto, unfolding(definition::specs::Load::load_answer, definition::specs::Refused::answer_of))]
fn loaded(r: Result<Loaded, Refusal>) -> Loaded
    ensures { load_answer r ≡ load_of (answer_of r) result }
{
    match r {
        Ok(l) => l,
        Err(q) => left(q),
    }
}

#[tactic(auto, unfolding(definition::specs::LoadMeasured::measured_answer, definition::specs::Load::load_answer, definition::specs::Refused::answer_of))]
fn measured(r: Result<Measured, Refusal>) -> Measured
    ensures { measured_answer r ≡ record { load = load_of (answer_of r) result.load; copied = result.copied; compared = result.compared } }
{
    match r {
        Ok(m) => m,
        Err(q) => Measured {
            load: left(q),
            copied: 0,
            compared: 0,
        },
    }
}

#[tactic(auto, unfolding(definition::specs::LoadHashed::hashed_answer, definition::specs::Load::load_answer, definition::specs::Refused::answer_of))]
fn hashed(r: Result<Hashed, Refusal>) -> Hashed
    ensures { hashed_answer r ≡ record { load = load_of (answer_of r) result.load; looked = result.looked } }
{
    match r {
        Ok(h) => h,
        Err(q) => Hashed {
            load: left(q),
            looked: 0,
        },
    }
}

// Words 2 to 7 of a load.
fn tell_load(answer: &mut [u64], l: Loaded)
    requires { 8 ≤ length answer.old }
    ensures { answer.new ≡ sets answer.old 2 (count_words l.counts ++ (l.used ∷ flag l.form ∷ [])) }
{
    tell_counts(answer, l.counts);
    answer[6] = l.used as u64;
    answer[7] = flag_of(l.form);
}

// Each kind of answer: its words, and its number.
pub fn tell_loaded(answer: &mut [u64], r: Result<Loaded, Refusal>) -> u32
    requires { 8 ≤ length answer.old }
    ensures { (result ≡ (answer_numbers (load_answer r).answer).0) × (answer.new ≡ sets answer.old 0 (loaded_words (load_answer r))) }
{
    let n = tell(answer, r);
    tell_load(answer, loaded(r));
    n
}

pub fn tell_measured(answer: &mut [u64], r: Result<Measured, Refusal>) -> u32
    requires { 10 ≤ length answer.old }
    ensures { (result ≡ (answer_numbers (measured_answer r).load.answer).0) × (answer.new ≡ sets answer.old 0 (measured_words (measured_answer r))) }
{
    let n = tell(answer, r);
    let m = measured(r);
    tell_load(answer, m.load);
    answer[8] = m.copied;
    answer[9] = m.compared;
    n
}

pub fn tell_hashed(answer: &mut [u64], r: Result<Hashed, Refusal>) -> u32
    requires { 9 ≤ length answer.old }
    ensures { (result ≡ (answer_numbers (hashed_answer r).load.answer).0) × (answer.new ≡ sets answer.old 0 (hashed_words (hashed_answer r))) }
{
    let n = tell(answer, r);
    let h = hashed(r);
    tell_load(answer, h.load);
    answer[8] = h.looked;
    n
}

pub fn tell_dumped(answer: &mut [u64], r: Result<usize, Refusal>) -> u32
    requires { 3 ≤ length answer.old }
    ensures { (result ≡ (answer_numbers (dump_answer r).answer).0) × (answer.new ≡ sets answer.old 0 (dumped_words (dump_answer r))) }
{
    let n = tell(answer, r);
    answer[2] = r.unwrap_or(0) as u64;
    n
}

pub fn tell_begun(answer: &mut [u64], r: Result<Counts, Refusal>) -> u32
    requires { 6 ≤ length answer.old }
    ensures { (result ≡ (answer_numbers (new_answer r).answer).0) × (answer.new ≡ sets answer.old 0 (begun_words (new_answer r))) }
{
    let n = tell(answer, r);
    tell_counts(answer, r.unwrap_or(NO_COUNTS));
    n
}

pub fn tell_number(answer: &mut [u64], r: Result<u32, Refusal>) -> u32
    requires { 3 ≤ length answer.old }
    ensures { (result ≡ (answer_numbers (number_answer r).answer).0) × (answer.new ≡ sets answer.old 0 (number_words (number_answer r))) }
{
    let n = tell(answer, r);
    answer[2] = r.unwrap_or(0) as u64;
    n
}

pub fn tell_words(answer: &mut [u64], r: Result<[u32; Node::WIDTH], Refusal>) -> u32
    requires { 10 ≤ length answer.old }
    ensures { (result ≡ (answer_numbers (words_answer r).answer).0) × (answer.new ≡ sets answer.old 0 (node_words (words_answer r))) }
{
    let n = tell(answer, r);
    let w = r.unwrap_or([0; Node::WIDTH]);
    tell_node(answer, w[0], w[1], w[2], w[3], w[4], w[5], w[6], w[7]);
    n
}

pub fn tell_name(answer: &mut [u64], r: Result<Name, Refusal>) -> u32
    requires { 4 ≤ length answer.old }
    ensures { (result ≡ (answer_numbers (name_answer r).answer).0) × (answer.new ≡ sets answer.old 0 (name_words (name_answer r))) }
{
    let n = tell(answer, r);
    let name = r.unwrap_or(Name {
        start: 0,
        length: 0,
    });
    answer[2] = name.start as u64;
    answer[3] = name.length as u64;
    n
}

// Refused, the counts are those given.
pub fn tell_created(answer: &mut [u64], r: Result<Created, Refusal>, given: Counts) -> u32
    requires { 7 ≤ length answer.old }
    ensures { (result ≡ (answer_numbers (build_answer given r).answer).0) × (answer.new ≡ sets answer.old 0 (created_words (build_answer given r))) }
{
    let n = tell(answer, r);
    let a = r.unwrap_or(Created {
        handle: 0,
        counts: given,
    });
    tell_counts(answer, a.counts);
    answer[6] = a.handle as u64;
    n
}

pub fn tell_reading(answer: &mut [u64], double: &mut [f64], r: Result<Reading, Refusal>) -> u32
    requires { (4 ≤ length answer.old) × (1 ≤ length double.old) }
    ensures value { (result ≡ (answer_numbers (reading_answer r).answer).0) × (answer.new ≡ sets answer.old 0 (reading_words (reading_answer r))) }
    ensures double_after { double.new ≡ sets double.old 0 (reading_double (reading_answer r).reading ∷ []) }
{
    let n = tell(answer, r);
    let reads = r.unwrap_or(Reading::NotANumber);
    answer[2] = kind_of(reads);
    answer[3] = whole_of(reads);
    double[0] = double_of(reads);
    n
}

pub fn tell_weighed(answer: &mut [u64], weighing: &mut [f64], r: Result<Weighing, Refusal>) -> u32
    requires { (2 ≤ length answer.old) × (3 ≤ length weighing.old) }
    ensures value { (result ≡ (answer_numbers (weighed_answer r).answer).0) × (answer.new ≡ sets answer.old 0 (weighed_words (weighed_answer r))) }
    ensures weighing_after { weighing.new ≡ sets weighing.old 0 (weighing_doubles (weighed_answer r).weighing) }
{
    let w = r.unwrap_or(Weighing {
        dry: 0.0,
        moisture: 0.0,
        wet: 0.0,
    });
    weighing[0] = w.dry;
    weighing[1] = w.moisture;
    weighing[2] = w.wet;
    tell(answer, r)
}

pub fn tell_costed(answer: &mut [u64], r: Result<u64, Refusal>) -> u32
    requires { 3 ≤ length answer.old }
    ensures { (result ≡ (answer_numbers (cost_answer r).answer).0) × (answer.new ≡ sets answer.old 0 (costed_words (cost_answer r))) }
{
    let n = tell(answer, r);
    answer[2] = r.unwrap_or(0);
    n
}
