// What replaying a case of any call shares: its words and bytes, and what tables hold before and after a call.
#![tactic(auto)]

use definition::{Counts, Refusal};
use refusal::answer_numbers;

// A case: words of 32 bits, low byte first, then bytes.
#[derive(Clone, Copy)]
pub struct Case<'a> {
    pub data: &'a [u8],
}

impl<'a> Case<'a> {
    // Word number `at`, 0 past the end.
    pub fn word(self, at: usize) -> u32 {
        if at < self.data.len() / 4 {
            let b = at * 4;
            return u32::from_le_bytes([
                self.data[b],
                self.data[b + 1],
                self.data[b + 2],
                self.data[b + 3],
            ]);
        }
        0
    }

    // Byte number `at`, 0 past the end.
    fn byte(self, at: usize) -> u8 {
        if at < self.data.len() {
            return self.data[at];
        }
        0
    }

    // The number of 64 bits at `at`: its low word, then its high one.
    pub fn long(self, at: usize) -> u64 {
        u64::from(self.word(plus(at, 1))) << 32 | u64::from(self.word(at))
    }

    // The length or place that word `at` is.
    pub fn place(self, at: usize) -> usize {
        self.word(at) as usize
    }

    // The bytes whose length is word `length`, and whose place is word `start`; none where they are not all there.
    pub fn part(self, length: usize, start: usize) -> Option<&'a [u8]> {
        let from = self.place(start);
        let to = plus(from, self.place(length));
        self.data.get(from..to)
    }

    // The counts that stand at `at`.
    pub fn counts(self, at: usize) -> Counts {
        Counts {
            nodes: self.place(at),
            references: self.place(plus(at, 1)),
            bytes: self.place(plus(at, 2)),
            root: self.word(plus(at, 3)),
        }
    }

    // Do the answer's number and details stand at `at`, as 32 bits?
    pub fn answers<T: Copy>(self, at: usize, r: Result<T, Refusal>) -> bool {
        let n = answer_numbers(r);
        self.word(at) == n.number
            && self.word(plus(at, 1)) == (n.first.cast_unsigned() & 0xffff_ffff) as u32
            && self.word(plus(at, 2)) == n.second
    }
}

// A sum that stays small.
pub fn plus(a: usize, b: usize) -> usize {
    if a < 100000000 && b < 100000000 {
        a + b
    } else {
        0
    }
}

// An entry of a table: a word or a byte.
pub trait Entry: Copy + PartialEq {
    const ZERO: Self;

    // Entry number `at` of a case, 0 past the end.
    fn of(case: Case<'_>, at: usize) -> Self;

    // What entry i is in a table of junk.
    fn junk(i: usize) -> Self;
}

impl Entry for u32 {
    const ZERO: u32 = 0;

    fn of(case: Case<'_>, at: usize) -> u32 {
        case.word(at)
    }

    fn junk(i: usize) -> u32 {
        (i % 65536) as u32 * 40503 + 90001
    }
}

impl Entry for u8 {
    const ZERO: u8 = 0;

    fn of(case: Case<'_>, at: usize) -> u8 {
        case.byte(at)
    }

    fn junk(i: usize) -> u8 {
        (i % 251) as u8
    }
}

// What a table holds: the n entries that stand at a place of the case, then zeros; or junk.
#[derive(Clone, Copy)]
pub enum Held {
    Laid { at: usize, n: usize },
    Junk,
}

impl Held {
    pub const ZEROS: Held = Held::Laid { at: 0, n: 0 };

    // What a call leaves that may have left a table as it was.
    pub fn if_touched(self, touched: bool) -> Held {
        if touched { self } else { Held::Junk }
    }

    // Entry i.
    fn entry<T: Entry>(self, case: Case<'_>, i: usize) -> T {
        match self {
            Held::Laid { at, n } => {
                if i < n {
                    T::of(case, plus(at, i))
                } else {
                    T::ZERO
                }
            }
            Held::Junk => T::junk(i),
        }
    }

    // The table holds this.
    pub fn set<T: Entry>(self, case: Case<'_>, table: &mut [T]) {
        for (i, e) in table.iter_mut().enumerate() {
            *e = self.entry(case, i);
        }
    }

    // Does the table hold this?
    pub fn agrees<T: Entry>(self, case: Case<'_>, table: &[T]) -> bool {
        for (i, e) in table.iter().enumerate() {
            if self.entry::<T>(case, i) != *e {
                return false;
            }
        }
        true
    }
}

// The next case from standard input, if there is one: its words stand in `data` from word 1 on.
pub fn read_case(data: &mut [u8]) -> bool {
    let mut head = [0u8; 4];
    if io::read_full(0, &mut head) < 4 {
        return false;
    }
    let size = (u32::from_le_bytes(head) as usize).saturating_mul(4);
    4 < size && size <= data.len() && io::read_full(0, &mut data[4..size]) == size - 4
}
