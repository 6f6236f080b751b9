// The reader's functions on an input and an offset, each of a reader that is started somewhere and then moved there: for callers
// that hold no reader.
#![tactic(auto)]

ghost use Rattle.std.specs.Prelude.{◌≡◌};
ghost use Rattle.definition.specs.Reader.{left, taken_answer, text_answer, next_byte, next_header, next_integer, next_byte_string};

use definition::{Refusal, Taken, Text};
use reader::{
    bytes_left, moved, offset, read_byte, read_byte_string, read_header, read_integer, start_at,
};

// Reads a byte.
pub fn byte_at(input: &[u8], from: usize, at: usize) -> Result<Taken, Refusal>
    ensures { taken_answer at result ≡ next_byte input.now at }
{
    read_byte(moved(start_at(input, from), at))
}

// Reads the header.
pub fn header_at(input: &[u8], from: usize, at: usize) -> Result<Taken, Refusal>
    ensures { taken_answer at result ≡ next_header input.now at }
{
    read_header(moved(start_at(input, from), at))
}

// Reads an integer.
pub fn integer_at(input: &[u8], from: usize, at: usize) -> Result<Taken, Refusal>
    ensures { taken_answer at result ≡ next_integer input.now at }
{
    read_integer(moved(start_at(input, from), at))
}

// Reads a byte string.
pub fn byte_string_at(input: &[u8], from: usize, at: usize) -> Result<Text, Refusal>
    ensures { text_answer at result ≡ next_byte_string input.now at }
{
    read_byte_string(moved(start_at(input, from), at))
}

// How many bytes are left.
pub fn left_at(input: &[u8], from: usize, at: usize) -> usize
    ensures { result ≡ left input.now at }
{
    bytes_left(moved(start_at(input, from), at))
}

// The offset.
pub fn offset_at(input: &[u8], from: usize, at: usize) -> usize
    ensures { result ≡ at }
{
    offset(moved(start_at(input, from), at))
}
