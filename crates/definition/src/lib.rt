// The types that every answer is made of, and the kind bytes.
#![tactic(auto)]

// The kinds of node, in the order of word 0.
#[derive(Clone, Copy)]
pub enum ValueKind {
    Nil,
    Bool,
    Fixnum,
    Symbol,
    Array,
    Hash,
    Object,
    String,
    UserDefined,
    Float,
    Bignum,
}

// The kind bytes, named once for loader and dumper.
impl ValueKind {
    pub const NIL: u8 = b'0';

    pub const TRUE: u8 = b'T';

    pub const FALSE: u8 = b'F';

    pub const FIXNUM: u8 = b'i';

    pub const SYMBOL: u8 = b':';

    pub const SYMBOL_LINK: u8 = b';';

    pub const OBJECT_LINK: u8 = b'@';

    pub const INSTANCE_VARIABLES: u8 = b'I';

    pub const ARRAY: u8 = b'[';

    pub const HASH: u8 = b'{';

    pub const HASH_DEFAULT: u8 = b'}';

    pub const OBJECT: u8 = b'o';

    pub const STRING: u8 = b'"';

    pub const USER_DEFINED: u8 = b'u';

    pub const FLOAT: u8 = b'f';

    pub const BIGNUM: u8 = b'l';

    pub const USER_CLASS: u8 = b'C';
}

// A number's text in a Float: its minus, its point, its first and last digit, and the most digits that it may have.
#[derive(Clone, Copy)]
pub struct Decimal {}

impl Decimal {
    pub const MINUS: u8 = b'-';

    pub const POINT: u8 = b'.';

    pub const ZERO: u8 = b'0';

    pub const NINE: u8 = b'9';

    pub const DIGITS: usize = 15;
}

// A Bignum's sign bytes, the most units that it may have, and the least magnitude that is too great.
#[derive(Clone, Copy)]
pub struct Bignum {}

impl Bignum {
    pub const PLUS: u8 = b'+';

    pub const MINUS: u8 = b'-';

    pub const UNITS: u64 = 4;

    pub const TOO_BIG: u64 = 9223372036854775808;
}

// A recipe: the most pairs that it may have, the greatest amount of a pair, and the kilograms of a tonne.
#[derive(Clone, Copy)]
pub struct Recipe {}

impl Recipe {
    pub const PAIRS: u32 = 512;

    pub const GREATEST: u32 = 2147483647;

    pub const TONNE: u64 = 1000;
}

// A node's words: how many there are, their places, and the kinds' numbers in word 0, where a node begins. A word that a kind
// does not use is 0.
#[derive(Clone, Copy)]
pub struct Node {}

impl Node {
    pub const WIDTH: usize = 8;

    // a bool or an integer; where a byte string starts, and how many bytes it has
    pub const VALUE: usize = 1;

    pub const START: usize = 1;

    pub const LENGTH: usize = 2;

    // where the list starts, and how many elements or pairs it has
    pub const LIST: usize = 3;

    pub const COUNT: usize = 4;

    // a Bignum's magnitude, its low and its high word, and its sign, 1 for minus
    pub const LOW: usize = 1;

    pub const HIGH: usize = 2;

    pub const SIGN: usize = 4;

    // the name's node
    pub const NAME: usize = 5;

    // a hash's default, its node + 1 or 0; 1 where a string or a user-defined has a variable list
    pub const DEFAULT: usize = 6;

    pub const VARIABLES: usize = 6;

    // a class of an array, a hash or a string, its name's node + 1 or 0
    pub const CLASS: usize = 7;

    // the kinds
    pub const NIL: u32 = 0;

    pub const BOOL: u32 = 1;

    pub const FIXNUM: u32 = 2;

    pub const SYMBOL: u32 = 3;

    pub const ARRAY: u32 = 4;

    pub const HASH: u32 = 5;

    pub const OBJECT: u32 = 6;

    pub const STRING: u32 = 7;

    pub const USER_DEFINED: u32 = 8;

    pub const FLOAT: u32 = 9;

    pub const BIGNUM: u32 = 10;
}

// The greatest level limit.
pub const LIMIT: u32 = 128;

// The slices' numbers, as BAD-TABLES and NO-SPACE name them, and the most entries that a slice may have.
#[derive(Clone, Copy)]
pub struct Slice {}

impl Slice {
    pub const NODES: u32 = 1;

    pub const REFERENCES: u32 = 2;

    pub const BYTES: u32 = 3;

    pub const SYMBOLS: u32 = 4;

    pub const OBJECTS: u32 = 5;

    pub const OUTPUT: u32 = 6;

    pub const LIMIT: u32 = 7;

    // the input, or a builder's byte string
    pub const INPUT: u32 = 8;

    // a builder's member or pair list
    pub const MEMBERS: u32 = 9;

    pub const SCRATCH: u32 = 10;

    pub const BUCKETS: u32 = 11;

    pub const GREATEST: usize = 2147483647;
}

// What is not well formed: the counts, or this node.
#[derive(Clone, Copy)]
pub enum Fault {
    Counts,
    Node(u32),
}

// Why a call is refused, in the order of the numbers 1 to 22 of documents 01 and 02.
#[derive(Clone, Copy)]
pub enum Refusal {
    BadTables(u32),
    BadArena(Fault),
    InvalidVersion(u8, u8),
    ShortInput,
    InvalidKind(u8),
    // the 32 bits read, in two's complement
    NegativeCount(u32),
    MissingSymbol(u32),
    MissingObject(u32),
    NotASymbol(u8),
    NotAnObject,
    TooDeep(u32),
    NoSpace(u32),
    BadHandle(u32),
    WrongKind(u32),
    BadSign(u8),
    TooBig(u32),
    NotAWeight(u32),
    BadMoisture,
    WrongSign(u8),
    NotARecipe(u32),
    NoPrice(u32),
    NotWrappable(u8),
}

// A refusal's number and two details, for programs; 0 is no refusal.
#[derive(Clone, Copy)]
pub struct Numbers {
    pub number: u32,
    pub first: i64,
    pub second: u32,
}

// How much of the three tables is used, and the root's node.
#[derive(Clone, Copy, PartialEq, Eq)]
pub struct Counts {
    pub nodes: usize,
    pub references: usize,
    pub bytes: usize,
    pub root: u32,
}

// load: the counts of the arena it filled, the bytes of input used, and whether dump writes just these.
#[derive(Clone, Copy)]
pub struct Loaded {
    pub counts: Counts,
    pub used: usize,
    pub form: bool,
}

// load_measured: what load answers, the bytes copied to the byte table, and the bytes compared in searches for names.
#[derive(Clone, Copy)]
pub struct Measured {
    pub load: Loaded,
    pub copied: u64,
    pub compared: u64,
}

// load_hashed: what load answers, and the words of the bucket table looked at in searches for names.
#[derive(Clone, Copy)]
pub struct Hashed {
    pub load: Loaded,
    pub looked: u64,
}

// A reader's byte, header or integer: its value, for the header 0, the offset then, and whether dump writes these bytes.
#[derive(Clone, Copy)]
pub struct Taken {
    pub value: u32,
    pub offset: usize,
    pub form: bool,
}

// A reader's byte string: where its bytes start in the input, how many they are, the offset then, and whether dump writes
// its length so.
#[derive(Clone, Copy)]
pub struct Text {
    pub start: usize,
    pub length: usize,
    pub offset: usize,
    pub form: bool,
}

// get_symbol: where the name's bytes start, and how many they are.
#[derive(Clone, Copy)]
pub struct Name {
    pub start: u32,
    pub length: u32,
}

// create_*, replace_root and replace_class: the new node, the old root or the old class word, and the counts as they now are.
#[derive(Clone, Copy)]
pub struct Created {
    pub handle: u32,
    pub counts: Counts,
}

// A node read as a number.
#[derive(Clone, Copy)]
pub enum Reading {
    Whole(i32),
    Double(f64),
    NotANumber,
}

// Dry weight, moisture and wet weight.
#[derive(Clone, Copy)]
pub struct Weighing {
    pub dry: f64,
    pub moisture: f64,
    pub wet: f64,
}
