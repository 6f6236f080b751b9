// The library that users link: load, dump, the reader of an input, the arena's getters and builder, a node read as a number
// and weighed, and a recipe's cost. What reads from a Reader is there on a slice and an offset too (load_at, byte_from ..).
#![tactic(auto)]

pub use batch_cost::batch_cost;
pub use definition::{
    Bignum, Counts, Created, Decimal, Fault, Hashed, LIMIT, Loaded, Measured, Name, Node, Numbers,
    Reading, Recipe, Refusal, Slice, Taken, Text, ValueKind, Weighing,
};
pub use dump::dump;
pub use load::{load, load_at, load_hashed, load_measured, load_next};
pub use reader::{
    Reader, byte_from, byte_string_from, bytes_left, header_from, integer_from, left_at, moved,
    offset, read_byte, read_byte_string, read_header, read_integer, start, start_at,
};
pub use refusal::{answer_numbers, counts_left, numbers_of};
pub use value_arena::{
    create_array, create_bignum, create_bool, create_fixnum, create_float, create_hash,
    create_new_symbol, create_nil, create_object, create_string, create_symbol,
    create_user_defined, get, get_symbol, kind, new, replace_class, replace_root, root,
};
pub use weight::{reading, wet_weight};
