// fdlibm's __ieee754_sqrt, bit by bit, with each pair of 32-bit words as one number.
ghost use Rattle.std.specs.Prelude.{◌≡◌, ℕ, ◌+◌, ◌*◌, ◌<◌, ◌≤◌, ◌/◌, ◌%◌, ◌^◌};
ghost use Rattle.fdlibm.specs.Sqrt.{next_bit, bit_by_bit, start, rounded, root_of, normalized, root_bits, square_root, even_exponent};

#[derive(Clone, Copy)]
pub struct Root {
    pub s: u64,
    pub ix: u64,
    pub q: u64,
}

fn next_bit(r: u64, v: Root) -> Root
    requires { (v.s + r * 2 < 2 ^ 60) × (v.ix < 2 ^ 60) × (v.q + r < 2 ^ 60) }
    ensures { result ≡ next_bit r v }
{
    let t = v.s + r;
    if t <= v.ix {
        Root {
            s: t + r,
            ix: (v.ix - t) * 2,
            q: v.q + r,
        }
    } else {
        Root { ix: v.ix * 2, ..v }
    }
}

fn all_bits(ix: u64) -> Root
    requires { ix < 2 ^ 55 }
    ensures value { result ≡ bit_by_bit 54 (2 ^ 53) (start ix) }
    ensures q_bound { result.q < 2 ^ 54 }
{
    let mut v = Root { s: 0, ix, q: 0 };
    for place in (0..54u32).rev() {
        v = next_bit(1 << place, v);
    }
    v
}

fn rounding(v: Root) -> u64
    requires { v.q < 2 ^ 54 }
    ensures value { result ≡ rounded v }
    ensures upper_bound { result ≤ 2 ^ 54 }
{
    if v.ix == 0 { v.q } else { v.q + v.q % 2 }
}

pub(crate) fn even_exponent(m: u64, e: u64) -> u64
    requires { m < 2 ^ 53 }
    ensures value { result ≡ even_exponent m e }
    ensures upper_bound { result < 2 ^ 54 }
{
    if e % 2 == 1 { m * 2 } else { m }
}

fn root_of(m: u64, e: u64) -> u64
    requires { (m < 2 ^ 53) × (e < 4096) }
    ensures { result ≡ root_of m e }
{
    rounding(all_bits(even_exponent(m, e) * 2)) / 2 + e / 2 * 0x10_0000_0000_0000
}

// A subnormal's significand, moved up to 2^52.
fn subnormal(f: u64) -> u64
    requires { (0 < f) × (f < 2 ^ 52) }
    ensures { result ≡ normalized 52 f 1022 }
{
    let places = f.leading_zeros() - 11;
    root_of(f << places, 1022 - u64::from(places))
}

fn root_bits(b: u64) -> u64
    requires { (0 < b) × (b < 2 ^ 63) }
    ensures { result ≡ root_bits b }
{
    let e = b / 0x10_0000_0000_0000;
    let f = b % 0x10_0000_0000_0000;
    if e == 0 {
        subnormal(f)
    } else {
        root_of(f + 0x10_0000_0000_0000, e + 1021)
    }
}

#[tactic(auto, unfolding(crate::specs::Sqrt::square_root))]
pub fn sqrt(x: f64) -> f64
    ensures { result ≡ square_root x }
{
    let b = float::to_bits(x);
    if b / 0x10_0000_0000_0000 % 2048 == 0x7ff {
        x * x + x
    } else if b % 0x8000_0000_0000_0000 == 0 {
        x
    } else if b >= 0x8000_0000_0000_0000 {
        (x - x) / (x - x)
    } else {
        float::from_bits(root_bits(b))
    }
}
