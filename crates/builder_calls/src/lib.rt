// The builder's calls, by the numbers that stored cases have.
#![tactic(auto)]

use bits::signed;
use definition::{Counts, Created, Refusal};
use value_arena::{
    create_array, create_bignum, create_bool, create_fixnum, create_float, create_hash,
    create_new_symbol, create_nil, create_object, create_string, create_symbol,
    create_user_defined, new, replace_class,
};

// A call of the builder.
pub fn create(
    call: u32,
    nodes: &mut [u32],
    references: &mut [u32],
    bytes: &mut [u8],
    counts: Counts,
    x: u32,
    low: u32,
    high: u32,
    list: &[u32],
    text: &[u8],
) -> Result<Created, Refusal> {
    match call {
        21 => create_nil(nodes, references, bytes, counts),
        22 => create_bool(nodes, references, bytes, counts, x == 1),
        23 => create_fixnum(nodes, references, bytes, counts, signed(x)),
        24 => create_symbol(nodes, references, bytes, counts, text),
        25 => create_new_symbol(nodes, references, bytes, counts, text),
        26 => create_array(nodes, references, bytes, counts, list),
        27 => create_hash(nodes, references, bytes, counts, list, x),
        28 => create_object(nodes, references, bytes, counts, x, list),
        29 => create_string(nodes, references, bytes, counts, text),
        30 => create_user_defined(nodes, references, bytes, counts, x, text),
        31 => create_float(nodes, references, bytes, counts, text),
        32 => create_bignum(nodes, references, bytes, counts, x == 1, low, high),
        33 => replace_class(nodes, references, bytes, counts, x, low),
        _ => {
            let counts = new(nodes, references, bytes)?;
            Ok(Created { handle: 0, counts })
        }
    }
}
