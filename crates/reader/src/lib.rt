// What stands in the input at an offset: integers and the header; the refusals that readers answer; and the reader, an input
// with an offset.
#![tactic(auto)]

ghost use Rattle.std.specs.Prelude.{MatchResult, OnOk, true, false, ◌≡◌, ◌⊎◌, List, [], ◌∷◌, ℕ, ◌+◌, ◌-◌, ◌*◌, ◌^◌, ◌<◌, ◌≤◌, length, take, drop};
ghost use Rattle.definition.specs.Integer.{value, form, low_bytes, integer_bytes, wrong_sign};
ghost use Rattle.definition.specs.Integer as integer;
ghost use Rattle.definition.specs.Kind.{PLUS, MINUS};
ghost use Rattle.definition.specs.Run.{refused};
ghost use Rattle.definition.specs.Arena.{too_long};
ghost use Rattle.definition.specs.Slice.{INPUT};
ghost use Rattle.definition.specs.Load.{read_header, read_integer};
ghost use Rattle.definition.specs.Reader.{starting, left, taken_answer, text_answer, next_byte, next_header, next_integer, next_byte_string};
ghost use Rattle.reader.specs.Answers.{refusal_at, Reads};
ghost use Rattle.reader.specs.Integers.{size_of, word_of, data_of, as_dumped, size_at, data_at, word_at, least, Whole};
ghost use Rattle.reader.specs.From.{byte_from, header_from, integer_from, text_from};

use definition::{Bignum, Refusal, Slice, Taken, Text};

// What a refusal's number is multiplied by, above any detail.
const ABOVE: u64 = 4294967296;

// A refusal in one word: its number times 2^32 and its detail. So a Result of a number and it comes back in two registers,
// where one with a Refusal comes back in memory.
#[derive(Clone, Copy)]
pub struct Stop {
    pub code: u64,
}

impl Stop {
    pub const SHORT_INPUT: Stop = Stop { code: 4 * ABOVE };

    pub const NOT_AN_OBJECT: Stop = Stop { code: 10 * ABOVE };

    pub const TOO_DEEP: Stop = Stop { code: 11 * ABOVE };

    // no room for one entry more in this table or list
    pub const NO_NODES: Stop = Stop {
        code: 12 * ABOVE + Slice::NODES as u64,
    };

    pub const NO_REFERENCES: Stop = Stop {
        code: 12 * ABOVE + Slice::REFERENCES as u64,
    };

    pub const NO_BYTES: Stop = Stop {
        code: 12 * ABOVE + Slice::BYTES as u64,
    };

    pub const NO_SYMBOLS: Stop = Stop {
        code: 12 * ABOVE + Slice::SYMBOLS as u64,
    };

    pub const NO_OBJECTS: Stop = Stop {
        code: 12 * ABOVE + Slice::OBJECTS as u64,
    };

    // Of a version.
    #[tactic(auto, using(crate::specs::Answers::at_version))]
    fn invalid_version(major: u32, minor: u32) -> Stop
        requires { (major ≤ 255) × (minor ≤ 255) }
        ensures { (limit : ℕ) → refusal_at limit result.code ≡ Refusal.InvalidVersion major minor }
    {
        Stop {
            code: 3 * ABOVE + (major * 256 + minor) as u64,
        }
    }

    // Of a kind byte.
    #[tactic(auto, using(crate::specs::Answers::at_kind))]
    pub fn invalid_kind(k: u8) -> Stop
        ensures { (limit : ℕ) → refusal_at limit result.code ≡ Refusal.InvalidKind k }
    {
        Stop {
            code: 5 * ABOVE + k as u64,
        }
    }

    // Of a count whose 32 bits are w.
    #[tactic(auto, using(crate::specs::Answers::at_negative))]
    pub fn negative_count(w: u32) -> Stop
        ensures { (limit : ℕ) → refusal_at limit result.code ≡ Refusal.NegativeCount w }
    {
        Stop {
            code: 6 * ABOVE + w as u64,
        }
    }

    // Of a link's index.
    #[tactic(auto, using(crate::specs::Answers::at_symbol))]
    pub fn missing_symbol(index: u32) -> Stop
        ensures { (limit : ℕ) → refusal_at limit result.code ≡ Refusal.MissingSymbol index }
    {
        Stop {
            code: 7 * ABOVE + index as u64,
        }
    }

    #[tactic(auto, using(crate::specs::Answers::at_object))]
    pub fn missing_object(index: u32) -> Stop
        ensures { (limit : ℕ) → refusal_at limit result.code ≡ Refusal.MissingObject index }
    {
        Stop {
            code: 8 * ABOVE + index as u64,
        }
    }

    // Of a kind byte where a name is wanted.
    #[tactic(auto, using(crate::specs::Answers::at_name))]
    pub fn not_a_symbol(k: u8) -> Stop
        ensures { (limit : ℕ) → refusal_at limit result.code ≡ Refusal.NotASymbol k }
    {
        Stop {
            code: 9 * ABOVE + k as u64,
        }
    }

    // Of a byte where a Bignum's sign is wanted.
    #[tactic(auto, using(crate::specs::Answers::at_sign))]
    fn bad_sign(b: u8) -> Stop
        ensures { (limit : ℕ) → refusal_at limit result.code ≡ Refusal.BadSign b }
    {
        Stop {
            code: 15 * ABOVE + b as u64,
        }
    }

    // Of a Bignum of n units.
    #[tactic(auto, using(crate::specs::Answers::at_big))]
    pub fn too_big(n: u32) -> Stop
        ensures { (limit : ℕ) → refusal_at limit result.code ≡ Refusal.TooBig n }
    {
        Stop {
            code: 16 * ABOVE + n as u64,
        }
    }

    // Of an integer's first byte.
    #[tactic(auto, using(crate::specs::Answers::at_wrong_sign))]
    fn wrong_sign(b: u8) -> Stop
        ensures { (limit : ℕ) → refusal_at limit result.code ≡ Refusal.WrongSign b }
    {
        Stop {
            code: 19 * ABOVE + b as u64,
        }
    }

    // Of a byte after a class's name.
    #[tactic(auto, using(crate::specs::Answers::at_wrapped))]
    pub fn not_wrappable(k: u8) -> Stop
        ensures { (limit : ℕ) → refusal_at limit result.code ≡ Refusal.NotWrappable k }
    {
        Stop {
            code: 22 * ABOVE + k as u64,
        }
    }

    // The refusal that it is, under this limit.
    pub fn refusal(self, limit: u32) -> Refusal
        ensures { result ≡ refusal_at limit self.code }
    {
        let detail = (self.code % ABOVE) as u32;
        match self.code / ABOVE {
            3 => Refusal::InvalidVersion((detail / 256 % 256) as u8, (detail % 256) as u8),
            4 => Refusal::ShortInput,
            5 => Refusal::InvalidKind((detail % 256) as u8),
            6 => Refusal::NegativeCount(detail),
            7 => Refusal::MissingSymbol(detail),
            8 => Refusal::MissingObject(detail),
            9 => Refusal::NotASymbol((detail % 256) as u8),
            10 => Refusal::NotAnObject,
            11 => Refusal::TooDeep(limit),
            15 => Refusal::BadSign((detail % 256) as u8),
            16 => Refusal::TooBig(detail),
            19 => Refusal::WrongSign((detail % 256) as u8),
            22 => Refusal::NotWrappable((detail % 256) as u8),
            _ => Refusal::NoSpace(detail),
        }
    }
}

// A Bignum's sign byte, or the refusal of another.
pub fn sign_byte(b: u8) -> Result<usize, Stop>
    ensures { MatchResult result (λ v. ((b ≡ PLUS) ⊎ (b ≡ MINUS)) × (v ≡ b)) (λ s. ((b ≡ PLUS) ⊎ (b ≡ MINUS) → ⊥) × ((limit : ℕ) → refusal_at limit s.code ≡ Refusal.BadSign b)) }
{
    match b {
        Bignum::PLUS | Bignum::MINUS => Ok(b as usize),
        _ => Err(Stop::bad_sign(b)),
    }
}

// ---- integers

// A byte as a wider number.
fn byte(b: u8) -> u32
    ensures { (result ≡ b) × (result ≤ 255) }
{
    b as u32
}

// How many bytes an integer takes, by its first byte.
pub fn integer_size(b: u8) -> usize
    ensures { result ≡ size_of (form b) }
{
    if b <= 4 {
        return 1 + b as usize;
    }
    if b <= 251 {
        return 1;
    }
    257 - b as usize
}

// The n bytes from `at` on, the lowest first.
fn little(input: &[u8], at: usize, n: usize) -> u32
    requires { (1 ≤ n) × (n ≤ 4) × (at + n ≤ length input.now) }
    ensures value { result ≡ integer.little (take n (drop at input.now)) 0 }
    ensures upper_bound { result < 256 ^ n }
    ensures input_value { take n (drop at input.now) ≡ low_bytes n result }
{
    let one = byte(input[at]);
    if n == 1 {
        return one;
    }
    let two = one + byte(input[at + 1]) * 256;
    if n == 2 {
        return two;
    }
    let three = two + byte(input[at + 2]) * 65536;
    if n == 3 {
        return three;
    }
    three + byte(input[at + 3]) * 16777216
}

// All ones above n bytes.
fn ones_above(n: usize) -> u32
    requires { (1 ≤ n) × (n ≤ 4) }
    ensures { result + 256 ^ n ≡ 4294967296 }
{
    match n {
        1 => 4294967040,
        2 => 4294901760,
        3 => 4278190080,
        _ => 0,
    }
}

// The 32 bits of the integer at `at`, whose bytes are all there.
pub fn integer_at(input: &[u8], at: usize) -> u32
    requires { at + size_at input.now at ≤ length input.now }
    ensures value { result ≡ word_at input.now at }
    ensures at_value { data_at input.now at ≡ low_bytes (size_at input.now at - 1) result }
{
    let b = byte(input[at]);
    if b <= 4 {
        if b == 0 {
            return 0;
        }
        return little(input, at + 1, b as usize);
    }
    if b <= 127 {
        return b - 5;
    }
    if b <= 250 {
        return b + 4294967045;
    }
    if b == 251 {
        return 0;
    }
    let n = 256 - b as usize;
    ones_above(n) + little(input, at + 1, n)
}

// The least number that dump writes with n data bytes.
fn least(n: usize) -> u32
    requires { (1 ≤ n) × (n ≤ 4) }
    ensures { result ≡ least n }
{
    match n {
        1 => 123,
        2 => 256,
        3 => 65536,
        _ => 16777216,
    }
}

// Does dump write the integer so: its first byte is b, its 32 bits are w? b is tested as in integer_at. Of a negative number
// dump counts the bytes of -1 minus the number, v.
pub fn in_form(b: u8, w: u32) -> bool
    ensures { (rest : List ℕ) → w ≡ word_of rest (form b) → data_of rest (form b) ≡ low_bytes (size_of (form b) - 1) w → result ≡ as_dumped rest b (form b) }
{
    if b <= 4 {
        if b == 0 {
            return true;
        }
        if 2147483648 <= w {
            return false;
        }
        return least(b as usize) <= w;
    }
    if b == 5 {
        return false;
    }
    if b <= 250 {
        return true;
    }
    if b == 251 {
        return false;
    }
    let v = 4294967295 - w;
    if 2147483648 <= v {
        return false;
    }
    least(256 - b as usize) <= v
}

// Is the size byte b against the sign of the 32 bits w? Of fewer than four data bytes it never is.
fn wrong_sign(b: u8, w: u32) -> bool
    ensures { result ≡ wrong_sign b w }
{
    match b {
        4 => 2147483648 <= w,
        252 => w < 2147483648,
        _ => false,
    }
}

// The refusal of an integer's first byte b, where that is against the sign of the 32 bits w.
pub fn check_sign(b: u8, w: u32) -> Result<(), Stop>
    ensures { MatchResult result (λ _. wrong_sign b w ≡ false) (λ s. (wrong_sign b w ≡ true) × ((limit : ℕ) → refusal_at limit s.code ≡ Refusal.WrongSign b)) }
{
    if wrong_sign(b, w) {
        return Err(Stop::wrong_sign(b));
    }
    Ok(())
}

// The number that the one byte b is as an integer in the form that dump writes, where b is at most 127 and the number so at
// most 122; else 123. The bytes 5 and 251, other forms of 0, are left to integer_at.
pub fn small(b: u8) -> usize
    ensures b_value { result < 123 → (form b ≡ value result) × (integer_bytes result ≡ b ∷ []) }
    ensures by_index { (n : ℕ) → b ≤ 127 → form b ≡ value n → integer_bytes n ≡ b ∷ [] → result ≡ n }
    ensures value { (127 < b → result ≡ 123) × (result ≤ 123) }
{
    if b == 0 {
        return 0;
    }
    if b < 6 {
        return 123;
    }
    if 127 < b {
        return 123;
    }
    b as usize - 5
}

// ---- the header

// The header at `at`, both bytes of which are read first: is it dump's own, and no older version's?
pub fn header_at(input: &[u8], at: usize) -> Result<bool, Stop>
    requires { at ≤ length input.now }
    ensures reads { Reads (read_header input.now) at result (at + 2) }
    ensures at_in_bounds { OnOk result (at + 2 ≤ length input.now) }
{
    if input.len() - at < 2 {
        return Err(Stop::SHORT_INPUT);
    }
    let major = byte(input[at]);
    let minor = byte(input[at + 1]);
    if major != 4 {
        return Err(Stop::invalid_version(major, minor));
    }
    if 8 < minor {
        return Err(Stop::invalid_version(major, minor));
    }
    Ok(minor == 8)
}

// ---- what stands at any offset; past the end there is nothing

// How many bytes are left.
pub fn left_at(input: &[u8], at: usize) -> usize
    ensures { result ≡ left input.now at }
{
    if at < input.len() {
        return input.len() - at;
    }
    0
}

// A byte.
#[tactic(auto, using(crate::proofs::Froms::byte_there, crate::proofs::Froms::byte_none), unfolding(definition::specs::Reader::taken_answer))]
fn take_byte(input: &[u8], at: usize) -> Result<Taken, Refusal>
    ensures { taken_answer at result ≡ byte_from input.now at }
{
    if at < input.len() {
        return Ok(Taken {
            value: byte(input[at]),
            offset: at + 1,
            form: true,
        });
    }
    Err(Refusal::ShortInput)
}

// The header.
#[tactic(auto, using(crate::proofs::Froms::header_past), unfolding(definition::specs::Reader::taken_answer))]
fn take_header(input: &[u8], at: usize) -> Result<Taken, Refusal>
    ensures { taken_answer at result ≡ header_from input.now at }
{
    if input.len() < at {
        return Err(Refusal::ShortInput);
    }
    match header_at(input, at) {
        Ok(form) => Ok(Taken {
            value: 0,
            offset: at + 2,
            form,
        }),
        Err(s) => Err(s.refusal(0)),
    }
}

// The 32 bits of the integer at `at`.
fn whole_integer(input: &[u8], at: usize) -> Result<u32, Refusal>
    ensures { MatchResult result (λ w. Whole input.now at w) (λ q. read_integer input.now (starting at) ≡ refused q) }
{
    if input.len() <= at {
        return Err(Refusal::ShortInput);
    }
    let b = input[at];
    if input.len() - at < integer_size(b) {
        return Err(Refusal::ShortInput);
    }
    let w = integer_at(input, at);
    if wrong_sign(b, w) {
        return Err(Refusal::WrongSign(b));
    }
    Ok(w)
}

// An integer.
#[tactic(auto, using(lists::specs::Runs::err_is, crate::specs::Integers::size_some), unfolding(definition::specs::Reader::taken, definition::specs::Reader::taken_answer))]
fn take_integer(input: &[u8], at: usize) -> Result<Taken, Refusal>
    ensures { taken_answer at result ≡ integer_from input.now at }
{
    let w = whole_integer(input, at)?;
    Ok(Taken {
        value: w,
        offset: at + integer_size(input[at]),
        form: in_form(input[at], w),
    })
}

// A byte string.
#[tactic(auto, using(lists::specs::Runs::err_is, crate::specs::Integers::size_some, crate::proofs::Froms::text_refused), unfolding(definition::specs::Reader::text_answer))]
fn take_byte_string(input: &[u8], at: usize) -> Result<Text, Refusal>
    ensures { text_answer at result ≡ text_from input.now at }
{
    let w = whole_integer(input, at)?;
    if 2147483648 <= w {
        return Err(Refusal::NegativeCount(w));
    }
    let start = at + integer_size(input[at]);
    let length = w as usize;
    if input.len() - start < length {
        return Err(Refusal::ShortInput);
    }
    Ok(Text {
        start,
        length,
        offset: start + length,
        form: in_form(input[at], w),
    })
}

// ---- the same of any input: one that is too long is refused before anything else

// Is the input no longer than a slice may be?
fn allowed(input: &[u8]) -> Result<(), Refusal>
    ensures { MatchResult result (λ _. too_long (length input.now) ≡ false) (λ q. (too_long (length input.now) ≡ true) × (q ≡ Refusal.BadTables INPUT)) }
{
    if Slice::GREATEST < input.len() {
        return Err(Refusal::BadTables(Slice::INPUT));
    }
    Ok(())
}

// A byte.
#[tactic(auto, using(crate::proofs::Froms::tested), unfolding(definition::specs::Reader::taken, definition::specs::Reader::taken_answer))]
pub fn byte_from(input: &[u8], at: usize) -> Result<Taken, Refusal>
    ensures { taken_answer at result ≡ next_byte input.now at }
{
    allowed(input)?;
    take_byte(input, at)
}

// The header.
#[tactic(auto, using(crate::proofs::Froms::tested), unfolding(definition::specs::Reader::header_taken, definition::specs::Reader::taken_answer))]
pub fn header_from(input: &[u8], at: usize) -> Result<Taken, Refusal>
    ensures { taken_answer at result ≡ next_header input.now at }
{
    allowed(input)?;
    take_header(input, at)
}

// An integer.
#[tactic(auto, using(crate::proofs::Froms::tested), unfolding(definition::specs::Reader::taken, definition::specs::Reader::taken_answer))]
pub fn integer_from(input: &[u8], at: usize) -> Result<Taken, Refusal>
    ensures { taken_answer at result ≡ next_integer input.now at }
{
    allowed(input)?;
    take_integer(input, at)
}

// A byte string.
#[tactic(auto, using(crate::proofs::Froms::tested), unfolding(definition::specs::Reader::spanned, definition::specs::Reader::text_answer))]
pub fn byte_string_from(input: &[u8], at: usize) -> Result<Text, Refusal>
    ensures { text_answer at result ≡ next_byte_string input.now at }
{
    allowed(input)?;
    take_byte_string(input, at)
}

// ---- the reader

// An input and the offset from which it is read on. What is done with it are functions, not methods, as the documents and the
// library that users link name them.
#[derive(Clone, Copy)]
pub struct Reader<'a> {
    pub input: &'a [u8],
    pub offset: usize,
}

// At the start of an input.
pub fn start<'a>(input: &'a [u8]) -> Reader<'a>
    ensures { (result.input ≡ input.entry) × (result.offset ≡ 0) }
{
    Reader { input, offset: 0 }
}

// At an offset of an input.
pub fn start_at<'a>(input: &'a [u8], offset: usize) -> Reader<'a>
    ensures { (result.input ≡ input.entry) × (result.offset ≡ offset) }
{
    Reader { input, offset }
}

// The same input at another offset, as an answer gives it.
pub fn moved<'a>(r: Reader<'a>, offset: usize) -> Reader<'a>
    ensures { (result.input ≡ r.entry.input) × (result.offset ≡ offset) }
{
    Reader {
        input: r.input,
        offset,
    }
}

// The offset.
pub fn offset<'a>(r: Reader<'a>) -> usize
    ensures { result ≡ r.entry.offset }
{
    r.offset
}

// How many bytes are left.
pub fn bytes_left<'a>(r: Reader<'a>) -> usize
    ensures { result ≡ left r.entry.input.now r.entry.offset }
{
    left_at(r.input, r.offset)
}

// Reads a byte.
pub fn read_byte<'a>(r: Reader<'a>) -> Result<Taken, Refusal>
    ensures { taken_answer r.entry.offset result ≡ next_byte r.entry.input.now r.entry.offset }
{
    byte_from(r.input, r.offset)
}

// Reads the header.
pub fn read_header<'a>(r: Reader<'a>) -> Result<Taken, Refusal>
    ensures { taken_answer r.entry.offset result ≡ next_header r.entry.input.now r.entry.offset }
{
    header_from(r.input, r.offset)
}

// Reads an integer.
pub fn read_integer<'a>(r: Reader<'a>) -> Result<Taken, Refusal>
    ensures { taken_answer r.entry.offset result ≡ next_integer r.entry.input.now r.entry.offset }
{
    integer_from(r.input, r.offset)
}

// Reads a byte string.
pub fn read_byte_string<'a>(r: Reader<'a>) -> Result<Text, Refusal>
    ensures { text_answer r.entry.offset result ≡ next_byte_string r.entry.input.now r.entry.offset }
{
    byte_string_from(r.input, r.offset)
}
