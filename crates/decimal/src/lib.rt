// A number's text in a Float: an optional minus, digits, and a point with digits after it; and its double.
#![tactic(auto)]

ghost use Rattle.std.specs.Prelude.{◌≡◌, ◌+◌, ◌*◌, ◌^◌, ◌≤◌, ◌<◌, length};
ghost use Rattle.std.proofs.Math.Option.{some};
ghost use Rattle.std.specs.Char.{is_ascii_digit};
ghost use Rattle.std.specs.List.{prefix_len};
ghost use Rattle.definition.specs.Weight.{digits, decimal_if, unsigned, decimal, whole_number, with_sign, quotient, text_reading};

use definition::{Decimal, Reading};

// ---- the text

// How many digits the text begins with.
fn count_digits(text: &[u8]) -> usize
    ensures { result ≡ prefix_len is_ascii_digit text.now }
{
    text.iter().take_while(|b| b.is_ascii_digit()).count()
}

// ---- its double

// The digits of `part` as a whole number, after those of n.
fn whole_number(part: &[u8], n: u64) -> u64
    requires { (digits part.now ≡ part.now) × ((n + 1) * 10 ^ length part.now ≤ 10 ^ 15) }
    ensures value { result ≡ whole_number n part.now }
    ensures result_bound { result + 1 ≤ (n + 1) * 10 ^ length part.now }
{
    let mut m = n;
    for b in part {
        m = m * 10 + u64::from(*b - Decimal::ZERO);
    }
    m
}

// The digits' number divided once by the power of ten, the sign set last.
fn double(minus: bool, n: u64, places: usize) -> f64
    requires { (n < 10 ^ 15) × (places ≤ 15) }
    ensures { result ≡ with_sign minus (quotient n places) }
{
    let q = n as f64 / 10u64.pow(places as u32) as f64;
    if minus { -q } else { q }
}

// ---- both

// The digits before the point, and those after it.
fn read_parts(minus: bool, whole: &[u8], part: &[u8]) -> Reading
    requires { (digits whole.now ≡ whole.now) × (digits part.now ≡ part.now) }
    ensures { result ≡ text_reading (decimal_if minus whole.now (some part.now)) }
{
    let places = part.len();
    if (0 < whole.len()) & (whole.len() + places <= Decimal::DIGITS) {
        let n = whole_number(whole, 0);
        let m = whole_number(part, n);
        return Reading::Double(double(minus, m, places));
    }
    Reading::NotANumber
}

// The text after a minus or not.
fn read_unsigned(minus: bool, text: &[u8]) -> Reading
    ensures { result ≡ text_reading (unsigned minus text.now) }
{
    let (whole, rest) = text.split_at(count_digits(text));
    if rest.len() == 0 {
        return read_parts(minus, whole, rest);
    }
    if rest[0] != Decimal::POINT {
        return Reading::NotANumber;
    }
    let part = &rest[1..];
    if (0 < part.len()) & (count_digits(part) == part.len()) {
        return read_parts(minus, whole, part);
    }
    Reading::NotANumber
}

// What a Float's text reads as.
pub fn read_decimal(text: &[u8]) -> Reading
    ensures { result ≡ text_reading (decimal text.now) }
{
    if text.len() == 0 {
        return Reading::NotANumber;
    }
    if text[0] == Decimal::MINUS {
        return read_unsigned(true, &text[1..]);
    }
    read_unsigned(false, text)
}
