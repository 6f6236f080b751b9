// What the loader reads from the input: integers, counts, byte strings, the header.
//
// What is lent and how far the load has come, `c`, hold a state of the definition before a call. What is answered is the
// value that the definition's reader gives there, and a state is held again; or it is the reader's refusal.
#![tactic(auto)]

ghost use Rattle.std.specs.Prelude.{◌≡◌, ℕ, ◌+◌, ◌<◌, ◌≤◌, IfOk, OnOk, length};
ghost use Rattle.definition.specs.State.{Room};
ghost use Rattle.definition.specs.Load.{read_header, read_integer, read_count, read_bytes, read_byte_string};
ghost use Rattle.load_state.specs.declared.Progress.{Progress};
ghost use Rattle.load_state.specs.Holds.{Lent, Somewhere, Leads, Meets, Spans};

use load_state::Progress;
use reader::{Stop, check_sign, header_at, in_form, integer_at, integer_size, small};

// An integer's 32 bits; another form than dump's is noted. Only there can the size byte be against the sign.
pub fn read_integer(input: &[u8], c: &mut Progress) -> Result<usize, Stop>
    requires { c.old.at ≤ length input.now }
    ensures meets { (room : Room) (limit : ℕ) (T : Lent) → Meets input.now room limit (read_integer input.now) T c.old result T c.new }
    ensures fits { IfOk result (λ w. w < 4294967296) }
{
    let at = c.at;
    if input.len() <= at {
        return Err(Stop::SHORT_INPUT);
    }
    let b = input[at];
    let n = integer_size(b);
    if input.len() - at < n {
        return Err(Stop::SHORT_INPUT);
    }
    let w = integer_at(input, at);
    c.at = at + n;
    if in_form(b, w) {
        return Ok(w as usize);
    }
    c.form = false;
    check_sign(b, w)?;
    Ok(w as usize)
}

// A length, count or index; small ones come first.
pub fn read_count(input: &[u8], c: &mut Progress) -> Result<usize, Stop>
    requires { c.old.at ≤ length input.now }
    ensures meets { (room : Room) (limit : ℕ) (T : Lent) → Meets input.now room limit (read_count input.now) T c.old result T c.new }
    ensures upper_bound { IfOk result (λ n. n < 2147483648) }
{
    let at = c.at;
    if at < input.len() {
        let n = small(input[at]);
        if n < 123 {
            c.at = at + 1;
            return Ok(n);
        }
    }
    let n = read_integer(input, c)?;
    if n < 2147483648 {
        return Ok(n);
    }
    Err(Stop::negative_count(n as u32))
}

// The length of a byte string, whose bytes are there and are left.
pub fn read_length(input: &[u8], c: &mut Progress) -> Result<usize, Stop>
    requires { Somewhere input.now c.old }
    ensures leads { (room : Room) (limit : ℕ) (T : Lent) → Leads input.now room limit (read_byte_string input.now) (read_bytes input.now) T c.old result T c.new }
    ensures result_in_bounds { IfOk result (λ n. (c.new.at + n ≤ length input.now) × (n < 2147483648)) }
{
    let n = read_count(input, c)?;
    if input.len() - c.at < n {
        return Err(Stop::SHORT_INPUT);
    }
    Ok(n)
}

// The length of a byte string, which is passed.
pub fn read_byte_string(input: &[u8], c: &mut Progress) -> Result<usize, Stop>
    requires { Somewhere input.now c.old }
    ensures spans { (room : Room) (limit : ℕ) (T : Lent) → Spans input.now room limit (read_byte_string input.now) T c.old result T c.new }
    ensures upper_bound { IfOk result (λ n. (n ≤ c.new.at) × (c.new.at ≤ length input.now) × (n < 2147483648)) }
{
    let n = read_length(input, c)?;
    c.at += n;
    Ok(n)
}

// The header; an older version than dump's is noted.
pub fn read_header(input: &[u8], c: &mut Progress) -> Result<(), Stop>
    requires { Somewhere input.now c.old }
    ensures { (room : Room) (limit : ℕ) (T : Lent) → Meets input.now room limit (read_header input.now) T c.old result T c.new }
{
    let at = c.at;
    let form = header_at(input, at)?;
    c.at = at + 2;
    if form {
        return Ok(());
    }
    c.form = false;
    Ok(())
}
