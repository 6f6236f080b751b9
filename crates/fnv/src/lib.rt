// FNV-1a, 32 bits: the hash of a name.
#![tactic(auto)]

ghost use Rattle.std.specs.Prelude.{◌≡◌, ◌+◌, ◌*◌, ◌%◌, ◌≤◌, length, take, drop};
ghost use Rattle.definition.specs.Buckets.{exclusive_or, fnv_1a};

const START: u32 = 2166136261;

const PRIME: u32 = 16777619;

// The low 32 bits of the product, by this name and with its meaning as document 01 asks.
fn wrapping_mul(a: u32, b: u32) -> u32
    ensures { result ≡ a * b % 4294967296 }
{
    a.wrapping_mul(b)
}

// The hash k after one byte more.
fn hash_byte(k: u32, b: u8) -> u32
    ensures { result ≡ exclusive_or 32 k b * 16777619 % 4294967296 }
{
    wrapping_mul(k ^ b as u32, PRIME)
}

// The hash of the n bytes from `from` on.
pub fn fnv_1a(input: &[u8], from: usize, n: usize) -> u32
    requires { from + n ≤ length input.now }
    ensures { result ≡ fnv_1a (take n (drop from input.now)) }
{
    input[from..from + n]
        .iter()
        .fold(START, |k, b| hash_byte(k, *b))
}
