// The numbers of documents 01 and 02 for a refusal, for programs that print them.
#![tactic(auto)]

ghost use Rattle.std.specs.Prelude.{◌≡◌, pos};
ghost use Rattle.definition.specs.Load.{counts_left};
ghost use Rattle.definition.specs.Refused.{signed, answer_of, numbers_told, answer_told};

use definition::{Counts, Fault, Numbers, Refusal};

// A number and a first detail that is not below zero.
fn plain(number: u32, first: u32) -> Numbers
    ensures { result ≡ record { number = number; first = pos first; second = 0 } }
{
    Numbers {
        number,
        first: i64::from(first),
        second: 0,
    }
}

// The 32 bits of a count read as signed.
fn signed(word: u32) -> i64
    ensures { result ≡ signed word }
{
    i64::from(word.cast_signed())
}

// A refusal's number and details.
#[tactic(auto, unfolding(definition::specs::Refused::numbers_told, definition::specs::Refused::numbers, definition::specs::Refused::told, definition::specs::Refused::place))]
pub fn numbers_of(q: Refusal) -> Numbers
    ensures { result ≡ numbers_told q }
{
    match q {
        Refusal::BadTables(slice) => plain(1, slice),
        Refusal::BadArena(Fault::Counts) => Numbers {
            number: 2,
            first: -1,
            second: 0,
        },
        Refusal::BadArena(Fault::Node(i)) => plain(2, i),
        Refusal::InvalidVersion(major, minor) => Numbers {
            number: 3,
            first: i64::from(major),
            second: u32::from(minor),
        },
        Refusal::ShortInput => plain(4, 0),
        Refusal::InvalidKind(byte) => plain(5, u32::from(byte)),
        Refusal::NegativeCount(word) => Numbers {
            number: 6,
            first: signed(word),
            second: 0,
        },
        Refusal::MissingSymbol(index) => plain(7, index),
        Refusal::MissingObject(index) => plain(8, index),
        Refusal::NotASymbol(byte) => plain(9, u32::from(byte)),
        Refusal::NotAnObject => plain(10, 0),
        Refusal::TooDeep(limit) => plain(11, limit),
        Refusal::NoSpace(slice) => plain(12, slice),
        Refusal::BadHandle(handle) => plain(13, handle),
        Refusal::WrongKind(handle) => plain(14, handle),
        Refusal::BadSign(byte) => plain(15, u32::from(byte)),
        Refusal::TooBig(count) => plain(16, count),
        Refusal::NotAWeight(handle) => plain(17, handle),
        Refusal::BadMoisture => plain(18, 0),
        Refusal::WrongSign(byte) => plain(19, u32::from(byte)),
        Refusal::NotARecipe(handle) => plain(20, handle),
        Refusal::NoPrice(handle) => plain(21, handle),
        Refusal::NotWrappable(byte) => plain(22, u32::from(byte)),
    }
}

// An answer's; 0 is accepted.
#[tactic(auto, unfolding(definition::specs::Refused::answer_of, definition::specs::Refused::answer_told, definition::specs::Refused::numbers_told, definition::specs::Refused::answer_numbers, definition::specs::Refused::told))]
pub fn answer_numbers<T: Copy>(r: Result<T, Refusal>) -> Numbers
    ensures { result ≡ answer_told (answer_of r) }
{
    match r {
        Ok(_) => plain(0, 0),
        Err(q) => numbers_of(q),
    }
}

// The counts that a refused load leaves: of nil alone, or none where nothing was touched.
pub fn counts_left(q: Refusal) -> Counts
    ensures { result ≡ counts_left q }
{
    let nodes = match q {
        Refusal::BadTables(_) => 0,
        _ => 1,
    };
    Counts {
        nodes,
        references: 0,
        bytes: 0,
        root: 0,
    }
}
