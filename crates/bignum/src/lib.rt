// A Bignum's number: the magnitude that two words or bytes of the input say, and its fewest units.
#![tactic(auto)]

ghost use Rattle.std.specs.Prelude.{◌≡◌, ◌+◌, ◌≤◌, length, take, drop};
ghost use Rattle.definition.specs.Integer.{little, low_bytes};
ghost use Rattle.definition.specs.Magnitude.{magnitude, fewest_units};

// The magnitude of a node's low and high word.
pub fn magnitude_of(low: u32, high: u32) -> u64
    ensures { result ≡ magnitude low high }
{
    high as u64 * 4294967296 + low as u64
}

// The magnitude of the n bytes from `at` on, the lowest first.
pub fn magnitude_at(input: &[u8], at: usize, n: usize) -> u64
    requires { (n ≤ 8) × (at + n ≤ length input.now) }
    ensures value { result ≡ little (take n (drop at input.now)) 0 }
    ensures input_value { take n (drop at input.now) ≡ low_bytes n result }
{
    input[at..at + n]
        .iter()
        .rev()
        .fold(0, |m, b| m << 8 | *b as u64)
}

// How many units of 16 bits hold a magnitude.
pub fn fewest_units(m: u64) -> u32
    ensures value { result ≡ fewest_units m }
    ensures upper_bound { result ≤ 4 }
{
    if m == 0 {
        return 0;
    }
    if m < 65536 {
        return 1;
    }
    if m < 4294967296 {
        return 2;
    }
    if m < 281474976710656 {
        return 3;
    }
    4
}
