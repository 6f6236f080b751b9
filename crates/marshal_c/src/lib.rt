// load, dump, the arena's getters, weighing, costing and builder, for programs in C and in languages that call C.
//
// A slice is a pointer and a length there, and the counts are four numbers. The answer's number is returned, 0 where the call
// is accepted. Its two details and what else the call answers go into the answer words, doubles into a slice of their own
// (reply/specs/Reply). Fewer words or doubles than a call writes are refused with 1, and nothing is touched then.
#![tactic(auto, using(crate::proofs::Laws::replies))]

ghost use Rattle.std.specs.Prelude.{◌≡◌};
ghost use Rattle.definition.specs.Arena.{counts_of, tables_of};
ghost use Rattle.definition.specs.Load.{lists, load_call};
ghost use Rattle.definition.specs.LoadMeasured.{measured_call};
ghost use Rattle.definition.specs.LoadHashed.{hashed_call};
ghost use Rattle.definition.specs.Dump.{dump_call};
ghost use Rattle.definition.specs.Build.{lent, build_call, new_call, number_done, words_done, name_done, get_words, get_kind, get_name, get_root, exchange_root, exchange_class, create_nil, create_bool, create_fixnum, create_new_symbol, create_symbol, create_array, create_hash, create_object, create_string, create_user_defined, create_float, create_bignum};
ghost use Rattle.definition.specs.Weight.{get_reading, wet_weight, read_done, weighed_done};
ghost use Rattle.definition.specs.Cost.{batch_cost, cost_done};
ghost use Rattle.reply.specs.Reply.{reply, tell_load, tell_measured, tell_hashed, tell_dump, tell_new, tell_build, tell_number, tell_words, tell_name, tell_reading, tell_weighed, tell_costed};

use batch_cost::batch_cost;
use definition::Counts;
use dump::dump;
use load::{load, load_hashed, load_measured};
use reply::{
    tell_begun, tell_costed, tell_created, tell_dumped, tell_hashed, tell_loaded, tell_measured,
    tell_name, tell_number, tell_reading, tell_weighed, tell_words,
};
use value_arena::{
    create_array, create_bignum, create_bool, create_fixnum, create_float, create_hash,
    create_new_symbol, create_nil, create_object, create_string, create_symbol,
    create_user_defined, get, get_symbol, kind, new, replace_class, replace_root,
};
use weight::{reading, wet_weight};

// Too few answer words or doubles: BAD-TABLES.
const BAD_TABLES: u32 = 1;

// How many answer words each kind of answer takes.
const LOADED: usize = 8;

const MEASURED: usize = 10;

const HASHED: usize = 9;

const DUMPED: usize = 3;

const BEGUN: usize = 6;

const NUMBER: usize = 3;

const WORDS: usize = 10;

const NAME: usize = 4;

const CREATED: usize = 7;

const READ: usize = 4;

const WEIGHED: usize = 2;

const COSTED: usize = 3;

// The doubles of a weighing.
const DOUBLES: usize = 3;

// The counts, which are four numbers there.
fn counts(nodes: usize, references: usize, bytes: usize, root: u32) -> Counts
    ensures { result ≡ counts_of nodes references bytes root }
{
    Counts {
        nodes,
        references,
        bytes,
        root,
    }
}

// ---- load and dump

#[unsafe(no_mangle)]
pub extern "C" fn ruby_marshal_load(
    input: &[u8],
    nodes: &mut [u32],
    references: &mut [u32],
    bytes: &mut [u8],
    symbols: &mut [u32],
    objects: &mut [u32],
    limit: u32,
    answer: &mut [u64],
) -> u32
    ensures { reply result answer.new (lists nodes.new references.new bytes.new symbols.new objects.new) ≡ tell_load (load_call input.now (lists nodes.old references.old bytes.old symbols.old objects.old) limit) (lists nodes.old references.old bytes.old symbols.old objects.old) answer.old }
{
    if answer.len() < LOADED {
        return BAD_TABLES;
    }
    tell_loaded(
        answer,
        load(input, nodes, references, bytes, symbols, objects, limit),
    )
}

#[unsafe(no_mangle)]
pub extern "C" fn ruby_marshal_load_measured(
    input: &[u8],
    nodes: &mut [u32],
    references: &mut [u32],
    bytes: &mut [u8],
    symbols: &mut [u32],
    objects: &mut [u32],
    limit: u32,
    answer: &mut [u64],
) -> u32
    ensures { reply result answer.new (lists nodes.new references.new bytes.new symbols.new objects.new) ≡ tell_measured (measured_call input.now (lists nodes.old references.old bytes.old symbols.old objects.old) limit) (lists nodes.old references.old bytes.old symbols.old objects.old) answer.old }
{
    if answer.len() < MEASURED {
        return BAD_TABLES;
    }
    tell_measured(
        answer,
        load_measured(input, nodes, references, bytes, symbols, objects, limit),
    )
}

#[unsafe(no_mangle)]
pub extern "C" fn ruby_marshal_load_hashed(
    input: &[u8],
    nodes: &mut [u32],
    references: &mut [u32],
    bytes: &mut [u8],
    symbols: &mut [u32],
    objects: &mut [u32],
    buckets: &mut [u32],
    limit: u32,
    answer: &mut [u64],
) -> u32
    ensures { reply result answer.new (lists nodes.new references.new bytes.new symbols.new objects.new, buckets.new) ≡ tell_hashed (hashed_call input.now (lists nodes.old references.old bytes.old symbols.old objects.old) buckets.old limit) (lists nodes.old references.old bytes.old symbols.old objects.old) buckets.old answer.old }
{
    if answer.len() < HASHED {
        return BAD_TABLES;
    }
    tell_hashed(
        answer,
        load_hashed(
            input, nodes, references, bytes, symbols, objects, buckets, limit,
        ),
    )
}

#[unsafe(no_mangle)]
pub extern "C" fn ruby_marshal_dump(
    nodes: &[u32],
    references: &[u32],
    bytes: &[u8],
    node_count: usize,
    reference_count: usize,
    byte_count: usize,
    root: u32,
    scratch: &mut [u32],
    output: &mut [u8],
    limit: u32,
    answer: &mut [u64],
) -> u32
    ensures { reply result answer.new (scratch.new, output.new) ≡ tell_dump (dump_call (tables_of nodes.now references.now bytes.now) (counts_of node_count reference_count byte_count root) scratch.old output.old limit) scratch.old output.old answer.old }
{
    if answer.len() < DUMPED {
        return BAD_TABLES;
    }
    let c = counts(node_count, reference_count, byte_count, root);
    tell_dumped(
        answer,
        dump(nodes, references, bytes, c, scratch, output, limit),
    )
}

// ---- getters

#[unsafe(no_mangle)]
pub extern "C" fn ruby_marshal_root(
    nodes: &[u32],
    references: &[u32],
    bytes: &[u8],
    node_count: usize,
    reference_count: usize,
    byte_count: usize,
    root: u32,
    answer: &mut [u64],
) -> u32
    ensures { reply result answer.new tt ≡ tell_number (number_done (get_root (lent nodes.now references.now bytes.now (counts_of node_count reference_count byte_count root)))) answer.old }
{
    if answer.len() < NUMBER {
        return BAD_TABLES;
    }
    let c = counts(node_count, reference_count, byte_count, root);
    tell_number(answer, value_arena::root(nodes, references, bytes, c))
}

#[unsafe(no_mangle)]
pub extern "C" fn ruby_marshal_kind(
    nodes: &[u32],
    references: &[u32],
    bytes: &[u8],
    node_count: usize,
    reference_count: usize,
    byte_count: usize,
    root: u32,
    handle: u32,
    answer: &mut [u64],
) -> u32
    ensures { reply result answer.new tt ≡ tell_number (number_done (get_kind handle (lent nodes.now references.now bytes.now (counts_of node_count reference_count byte_count root)))) answer.old }
{
    if answer.len() < NUMBER {
        return BAD_TABLES;
    }
    let c = counts(node_count, reference_count, byte_count, root);
    tell_number(answer, kind(nodes, references, bytes, c, handle))
}

#[unsafe(no_mangle)]
pub extern "C" fn ruby_marshal_get(
    nodes: &[u32],
    references: &[u32],
    bytes: &[u8],
    node_count: usize,
    reference_count: usize,
    byte_count: usize,
    root: u32,
    handle: u32,
    answer: &mut [u64],
) -> u32
    ensures { reply result answer.new tt ≡ tell_words (words_done (get_words handle (lent nodes.now references.now bytes.now (counts_of node_count reference_count byte_count root)))) answer.old }
{
    if answer.len() < WORDS {
        return BAD_TABLES;
    }
    let c = counts(node_count, reference_count, byte_count, root);
    tell_words(answer, get(nodes, references, bytes, c, handle))
}

#[unsafe(no_mangle)]
pub extern "C" fn ruby_marshal_get_symbol(
    nodes: &[u32],
    references: &[u32],
    bytes: &[u8],
    node_count: usize,
    reference_count: usize,
    byte_count: usize,
    root: u32,
    handle: u32,
    answer: &mut [u64],
) -> u32
    ensures { reply result answer.new tt ≡ tell_name (name_done (get_name handle (lent nodes.now references.now bytes.now (counts_of node_count reference_count byte_count root)))) answer.old }
{
    if answer.len() < NAME {
        return BAD_TABLES;
    }
    let c = counts(node_count, reference_count, byte_count, root);
    tell_name(answer, get_symbol(nodes, references, bytes, c, handle))
}

// ---- numbers and weighings

#[unsafe(no_mangle)]
pub extern "C" fn ruby_marshal_reading(
    nodes: &[u32],
    references: &[u32],
    bytes: &[u8],
    node_count: usize,
    reference_count: usize,
    byte_count: usize,
    root: u32,
    handle: u32,
    double: &mut [f64],
    answer: &mut [u64],
) -> u32
    ensures { reply result answer.new double.new ≡ tell_reading (read_done (get_reading handle (lent nodes.now references.now bytes.now (counts_of node_count reference_count byte_count root)))) double.old answer.old }
{
    if answer.len() < READ {
        return BAD_TABLES;
    }
    if double.len() < 1 {
        return BAD_TABLES;
    }
    let c = counts(node_count, reference_count, byte_count, root);
    tell_reading(answer, double, reading(nodes, references, bytes, c, handle))
}

#[unsafe(no_mangle)]
pub extern "C" fn ruby_marshal_wet_weight(
    nodes: &[u32],
    references: &[u32],
    bytes: &[u8],
    node_count: usize,
    reference_count: usize,
    byte_count: usize,
    root: u32,
    dry: u32,
    moisture: u32,
    weighing: &mut [f64],
    answer: &mut [u64],
) -> u32
    ensures { reply result answer.new weighing.new ≡ tell_weighed (weighed_done (wet_weight dry moisture (lent nodes.now references.now bytes.now (counts_of node_count reference_count byte_count root)))) weighing.old answer.old }
{
    if answer.len() < WEIGHED {
        return BAD_TABLES;
    }
    if weighing.len() < DOUBLES {
        return BAD_TABLES;
    }
    let c = counts(node_count, reference_count, byte_count, root);
    tell_weighed(
        answer,
        weighing,
        wet_weight(nodes, references, bytes, c, dry, moisture),
    )
}

// ---- costs

#[unsafe(no_mangle)]
pub extern "C" fn ruby_marshal_batch_cost(
    nodes: &[u32],
    references: &[u32],
    bytes: &[u8],
    node_count: usize,
    reference_count: usize,
    byte_count: usize,
    root: u32,
    recipe: u32,
    prices: u32,
    answer: &mut [u64],
) -> u32
    ensures { reply result answer.new tt ≡ tell_costed (cost_done (batch_cost recipe prices (lent nodes.now references.now bytes.now (counts_of node_count reference_count byte_count root)))) answer.old }
{
    if answer.len() < COSTED {
        return BAD_TABLES;
    }
    let c = counts(node_count, reference_count, byte_count, root);
    tell_costed(
        answer,
        batch_cost(nodes, references, bytes, c, recipe, prices),
    )
}

// ---- builder

#[unsafe(no_mangle)]
pub extern "C" fn ruby_marshal_new(
    nodes: &mut [u32],
    references: &mut [u32],
    bytes: &mut [u8],
    answer: &mut [u64],
) -> u32
    ensures { reply result answer.new (tables_of nodes.new references.new bytes.new) ≡ tell_new (new_call (tables_of nodes.old references.old bytes.old)) (tables_of nodes.old references.old bytes.old) answer.old }
{
    if answer.len() < BEGUN {
        return BAD_TABLES;
    }
    tell_begun(answer, new(nodes, references, bytes))
}

#[unsafe(no_mangle)]
pub extern "C" fn ruby_marshal_replace_root(
    nodes: &[u32],
    references: &[u32],
    bytes: &[u8],
    node_count: usize,
    reference_count: usize,
    byte_count: usize,
    root: u32,
    handle: u32,
    answer: &mut [u64],
) -> u32
    ensures { reply result answer.new (tables_of nodes.now references.now bytes.now) ≡ tell_build (build_call (exchange_root handle) (lent nodes.now references.now bytes.now (counts_of node_count reference_count byte_count root))) (tables_of nodes.now references.now bytes.now) answer.old }
{
    if answer.len() < CREATED {
        return BAD_TABLES;
    }
    let c = counts(node_count, reference_count, byte_count, root);
    tell_created(answer, replace_root(nodes, references, bytes, c, handle), c)
}

#[unsafe(no_mangle)]
pub extern "C" fn ruby_marshal_replace_class(
    nodes: &mut [u32],
    references: &[u32],
    bytes: &[u8],
    node_count: usize,
    reference_count: usize,
    byte_count: usize,
    root: u32,
    handle: u32,
    class: u32,
    answer: &mut [u64],
) -> u32
    ensures { reply result answer.new (tables_of nodes.new references.now bytes.now) ≡ tell_build (build_call (exchange_class handle class) (lent nodes.old references.now bytes.now (counts_of node_count reference_count byte_count root))) (tables_of nodes.old references.now bytes.now) answer.old }
{
    if answer.len() < CREATED {
        return BAD_TABLES;
    }
    let c = counts(node_count, reference_count, byte_count, root);
    tell_created(
        answer,
        replace_class(nodes, references, bytes, c, handle, class),
        c,
    )
}

#[unsafe(no_mangle)]
pub extern "C" fn ruby_marshal_create_nil(
    nodes: &mut [u32],
    references: &[u32],
    bytes: &[u8],
    node_count: usize,
    reference_count: usize,
    byte_count: usize,
    root: u32,
    answer: &mut [u64],
) -> u32
    ensures { reply result answer.new (tables_of nodes.new references.now bytes.now) ≡ tell_build (build_call create_nil (lent nodes.old references.now bytes.now (counts_of node_count reference_count byte_count root))) (tables_of nodes.old references.now bytes.now) answer.old }
{
    if answer.len() < CREATED {
        return BAD_TABLES;
    }
    let c = counts(node_count, reference_count, byte_count, root);
    tell_created(answer, create_nil(nodes, references, bytes, c), c)
}

#[unsafe(no_mangle)]
pub extern "C" fn ruby_marshal_create_bool(
    nodes: &mut [u32],
    references: &[u32],
    bytes: &[u8],
    node_count: usize,
    reference_count: usize,
    byte_count: usize,
    root: u32,
    value: bool,
    answer: &mut [u64],
) -> u32
    ensures { reply result answer.new (tables_of nodes.new references.now bytes.now) ≡ tell_build (build_call (create_bool value) (lent nodes.old references.now bytes.now (counts_of node_count reference_count byte_count root))) (tables_of nodes.old references.now bytes.now) answer.old }
{
    if answer.len() < CREATED {
        return BAD_TABLES;
    }
    let c = counts(node_count, reference_count, byte_count, root);
    tell_created(answer, create_bool(nodes, references, bytes, c, value), c)
}

#[unsafe(no_mangle)]
pub extern "C" fn ruby_marshal_create_fixnum(
    nodes: &mut [u32],
    references: &[u32],
    bytes: &[u8],
    node_count: usize,
    reference_count: usize,
    byte_count: usize,
    root: u32,
    value: i32,
    answer: &mut [u64],
) -> u32
    ensures { reply result answer.new (tables_of nodes.new references.now bytes.now) ≡ tell_build (build_call (create_fixnum value) (lent nodes.old references.now bytes.now (counts_of node_count reference_count byte_count root))) (tables_of nodes.old references.now bytes.now) answer.old }
{
    if answer.len() < CREATED {
        return BAD_TABLES;
    }
    let c = counts(node_count, reference_count, byte_count, root);
    tell_created(answer, create_fixnum(nodes, references, bytes, c, value), c)
}

#[unsafe(no_mangle)]
pub extern "C" fn ruby_marshal_create_new_symbol(
    nodes: &mut [u32],
    references: &[u32],
    bytes: &mut [u8],
    node_count: usize,
    reference_count: usize,
    byte_count: usize,
    root: u32,
    name: &[u8],
    answer: &mut [u64],
) -> u32
    ensures { reply result answer.new (tables_of nodes.new references.now bytes.new) ≡ tell_build (build_call (create_new_symbol name.now) (lent nodes.old references.now bytes.old (counts_of node_count reference_count byte_count root))) (tables_of nodes.old references.now bytes.old) answer.old }
{
    if answer.len() < CREATED {
        return BAD_TABLES;
    }
    let c = counts(node_count, reference_count, byte_count, root);
    tell_created(
        answer,
        create_new_symbol(nodes, references, bytes, c, name),
        c,
    )
}

#[unsafe(no_mangle)]
pub extern "C" fn ruby_marshal_create_symbol(
    nodes: &mut [u32],
    references: &[u32],
    bytes: &mut [u8],
    node_count: usize,
    reference_count: usize,
    byte_count: usize,
    root: u32,
    name: &[u8],
    answer: &mut [u64],
) -> u32
    ensures { reply result answer.new (tables_of nodes.new references.now bytes.new) ≡ tell_build (build_call (create_symbol name.now) (lent nodes.old references.now bytes.old (counts_of node_count reference_count byte_count root))) (tables_of nodes.old references.now bytes.old) answer.old }
{
    if answer.len() < CREATED {
        return BAD_TABLES;
    }
    let c = counts(node_count, reference_count, byte_count, root);
    tell_created(answer, create_symbol(nodes, references, bytes, c, name), c)
}

#[unsafe(no_mangle)]
pub extern "C" fn ruby_marshal_create_array(
    nodes: &mut [u32],
    references: &mut [u32],
    bytes: &[u8],
    node_count: usize,
    reference_count: usize,
    byte_count: usize,
    root: u32,
    members: &[u32],
    answer: &mut [u64],
) -> u32
    ensures { reply result answer.new (tables_of nodes.new references.new bytes.now) ≡ tell_build (build_call (create_array members.now) (lent nodes.old references.old bytes.now (counts_of node_count reference_count byte_count root))) (tables_of nodes.old references.old bytes.now) answer.old }
{
    if answer.len() < CREATED {
        return BAD_TABLES;
    }
    let c = counts(node_count, reference_count, byte_count, root);
    tell_created(
        answer,
        create_array(nodes, references, bytes, c, members),
        c,
    )
}

#[unsafe(no_mangle)]
pub extern "C" fn ruby_marshal_create_hash(
    nodes: &mut [u32],
    references: &mut [u32],
    bytes: &[u8],
    node_count: usize,
    reference_count: usize,
    byte_count: usize,
    root: u32,
    pairs: &[u32],
    default: u32,
    answer: &mut [u64],
) -> u32
    ensures { reply result answer.new (tables_of nodes.new references.new bytes.now) ≡ tell_build (build_call (create_hash pairs.now default) (lent nodes.old references.old bytes.now (counts_of node_count reference_count byte_count root))) (tables_of nodes.old references.old bytes.now) answer.old }
{
    if answer.len() < CREATED {
        return BAD_TABLES;
    }
    let c = counts(node_count, reference_count, byte_count, root);
    tell_created(
        answer,
        create_hash(nodes, references, bytes, c, pairs, default),
        c,
    )
}

#[unsafe(no_mangle)]
pub extern "C" fn ruby_marshal_create_object(
    nodes: &mut [u32],
    references: &mut [u32],
    bytes: &[u8],
    node_count: usize,
    reference_count: usize,
    byte_count: usize,
    root: u32,
    name: u32,
    pairs: &[u32],
    answer: &mut [u64],
) -> u32
    ensures { reply result answer.new (tables_of nodes.new references.new bytes.now) ≡ tell_build (build_call (create_object name pairs.now) (lent nodes.old references.old bytes.now (counts_of node_count reference_count byte_count root))) (tables_of nodes.old references.old bytes.now) answer.old }
{
    if answer.len() < CREATED {
        return BAD_TABLES;
    }
    let c = counts(node_count, reference_count, byte_count, root);
    tell_created(
        answer,
        create_object(nodes, references, bytes, c, name, pairs),
        c,
    )
}

#[unsafe(no_mangle)]
pub extern "C" fn ruby_marshal_create_string(
    nodes: &mut [u32],
    references: &[u32],
    bytes: &mut [u8],
    node_count: usize,
    reference_count: usize,
    byte_count: usize,
    root: u32,
    value: &[u8],
    answer: &mut [u64],
) -> u32
    ensures { reply result answer.new (tables_of nodes.new references.now bytes.new) ≡ tell_build (build_call (create_string value.now) (lent nodes.old references.now bytes.old (counts_of node_count reference_count byte_count root))) (tables_of nodes.old references.now bytes.old) answer.old }
{
    if answer.len() < CREATED {
        return BAD_TABLES;
    }
    let c = counts(node_count, reference_count, byte_count, root);
    tell_created(answer, create_string(nodes, references, bytes, c, value), c)
}

#[unsafe(no_mangle)]
pub extern "C" fn ruby_marshal_create_user_defined(
    nodes: &mut [u32],
    references: &[u32],
    bytes: &mut [u8],
    node_count: usize,
    reference_count: usize,
    byte_count: usize,
    root: u32,
    name: u32,
    value: &[u8],
    answer: &mut [u64],
) -> u32
    ensures { reply result answer.new (tables_of nodes.new references.now bytes.new) ≡ tell_build (build_call (create_user_defined name value.now) (lent nodes.old references.now bytes.old (counts_of node_count reference_count byte_count root))) (tables_of nodes.old references.now bytes.old) answer.old }
{
    if answer.len() < CREATED {
        return BAD_TABLES;
    }
    let c = counts(node_count, reference_count, byte_count, root);
    tell_created(
        answer,
        create_user_defined(nodes, references, bytes, c, name, value),
        c,
    )
}

#[unsafe(no_mangle)]
pub extern "C" fn ruby_marshal_create_float(
    nodes: &mut [u32],
    references: &[u32],
    bytes: &mut [u8],
    node_count: usize,
    reference_count: usize,
    byte_count: usize,
    root: u32,
    value: &[u8],
    answer: &mut [u64],
) -> u32
    ensures { reply result answer.new (tables_of nodes.new references.now bytes.new) ≡ tell_build (build_call (create_float value.now) (lent nodes.old references.now bytes.old (counts_of node_count reference_count byte_count root))) (tables_of nodes.old references.now bytes.old) answer.old }
{
    if answer.len() < CREATED {
        return BAD_TABLES;
    }
    let c = counts(node_count, reference_count, byte_count, root);
    tell_created(answer, create_float(nodes, references, bytes, c, value), c)
}

#[unsafe(no_mangle)]
pub extern "C" fn ruby_marshal_create_bignum(
    nodes: &mut [u32],
    references: &[u32],
    bytes: &[u8],
    node_count: usize,
    reference_count: usize,
    byte_count: usize,
    root: u32,
    minus: bool,
    low: u32,
    high: u32,
    answer: &mut [u64],
) -> u32
    ensures { reply result answer.new (tables_of nodes.new references.now bytes.now) ≡ tell_build (build_call (create_bignum minus low high) (lent nodes.old references.now bytes.now (counts_of node_count reference_count byte_count root))) (tables_of nodes.old references.now bytes.now) answer.old }
{
    if answer.len() < CREATED {
        return BAD_TABLES;
    }
    let c = counts(node_count, reference_count, byte_count, root);
    tell_created(
        answer,
        create_bignum(nodes, references, bytes, c, minus, low, high),
        c,
    )
}
