// Rust's operations on floats that the language leaves out or leaves undefined at a NaN, as total
// functions: those of std, under this core's names and promises.
ghost use Rattle.std.specs.Prelude.{◌≡◌};
ghost use Rattle.std.specs.Float.Ieee as Ieee;
ghost use Rattle.std.specs.Float.{binary32};
ghost use Rattle.math.specs.Picked.{IsMin, IsMax};

use std::num;

// The float whose bits are b. Every NaN pattern gives a NaN, where `f32::from_bits` is undefined.
pub fn float_of_bits(b: u32) -> f32
    ensures { result ≡ Ieee.of_bits binary32 b }
{
    num::f32_from_bits_with_nan(b)
}

// The bits of x, and 0x7FC00000 for a NaN, where `f32::to_bits` is undefined.
pub fn bits_of_float(x: f32) -> u32
    ensures { result ≡ Ieee.to_bits binary32 x }
{
    num::f32_to_bits_with_nan(x)
}

// Rust's `x as u64`: toward zero, to the nearest end of the range where x is out of it, and 0 for
// a NaN.
pub fn saturating_f64_to_u64(x: f64) -> u64
    ensures { result ≡ Ieee.to_unsigned 64 x }
{
    num::saturating_f64_to_u64(x)
}

// Rust's `a.min(b)`. Of two zeros it may return either. The call has b first: a loop that keeps its
// least in a then runs a tenth fewer instructions.
pub fn f32_min(a: f32, b: f32) -> f32
    ensures { IsMin a b result }
{
    b.min(a)
}

// Rust's `a.max(b)`. Of two zeros it may return either.
pub fn f32_max(a: f32, b: f32) -> f32
    ensures { IsMax a b result }
{
    b.max(a)
}
