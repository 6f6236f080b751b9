// A number of 32 bits in two's complement, and back.
#![tactic(auto)]

ghost use Rattle.std.specs.Prelude.{◌≡◌};
ghost use Rattle.definition.specs.Refused as R;
ghost use Rattle.definition.specs.Build.{bits};

// The 32 bits of a number in two's complement, as the definition has them.
pub fn bits_of(value: i32) -> u32
    ensures { result ≡ bits value }
{
    value.cast_unsigned()
}

// The number whose 32 bits are given, as the definition reads them.
pub fn signed(x: u32) -> i32
    ensures { result ≡ R.signed x }
{
    x.cast_signed()
}
