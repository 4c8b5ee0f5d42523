// Total functions on f64 that everything above is built of. Each answers at every float, NaN too.
#![tactic(auto)]

ghost use Rattle.std.specs.Prelude.{◌≡◌, pos, from_bits, to_bits};
ghost use Rattle.std.specs.Float.{binary64};
ghost use Rattle.std.specs.Float.Ieee.{to_unsigned, of_int};
ghost use Rattle.float.specs.Number.{high_word, is_finite, absolute, maximum};

// The 64 bits. The logic has one NaN, and its bits are the quiet pattern.
pub fn to_bits(x: f64) -> u64
    ensures { result ≡ to_bits binary64 x }
{
    std::num::f64_to_bits_with_nan(x)
}

// The float of any 64 bits.
pub fn from_bits(n: u64) -> f64
    ensures { result ≡ from_bits binary64 n }
{
    std::num::f64_from_bits_with_nan(n)
}

// fdlibm's __HI, as an unsigned number.
pub fn high_word(x: f64) -> u64
    ensures { result ≡ high_word x }
{
    to_bits(x) >> 32
}

// Toward zero; 0 for a NaN and below 0, the largest u64 above it.
pub fn truncate(x: f64) -> u64
    ensures { result ≡ to_unsigned 64 x }
{
    std::num::saturating_f64_to_u64(x)
}

// The way back: the nearest float to a whole number.
pub fn from_whole(n: u64) -> f64
    ensures { result ≡ of_int binary64 (pos n) }
{
    std::num::nearest_u64_to_f64(n)
}

pub fn is_finite(x: f64) -> bool
    ensures { result ≡ is_finite x }
{
    x.is_finite()
}

pub fn absolute(x: f64) -> f64
    ensures { result ≡ absolute x }
{
    // By its sign bit: with x.abs(), which compares twice, a hypotenuse takes 5 percent longer. is_sign_negative() is the same test.
    let positive = to_bits(x) < 0x8000_0000_0000_0000;
    if positive { x } else { -x }
}

// A NaN is ignored, and +0 is preferred to -0.
pub fn maximum(a: f64, b: f64) -> f64
    ensures { result ≡ maximum a b }
{
    if a < b || a.is_nan() {
        b
    } else if b < a || b.is_nan() {
        a
    } else if a.is_sign_negative() {
        b
    } else {
        a
    }
}
