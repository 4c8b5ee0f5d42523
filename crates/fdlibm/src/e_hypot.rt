// fdlibm's __ieee754_hypot.
ghost use Rattle.std.specs.Prelude.{◌≡◌, ℕ, ◌+◌, ◌*◌, ◌<◌, ◌≤◌, ◌/◌, ◌%◌, ◌^◌};
ghost use Rattle.std.specs.Float.Ieee.{of_bits, to_bits};
ghost use Rattle.std.specs.Float.{binary64};
ghost use Rattle.fdlibm.specs.Hypot.{set_high_word, from_high_word, wide, close, scaled, middle, small, endless, ordered, hypotenuse};

use crate::quick_sqrt::sqrt;

fn set_high_word(x: f64, h: u64) -> f64
    requires { h < 2 ^ 32 }
    ensures { result ≡ set_high_word x h }
{
    float::from_bits(h * 0x1_0000_0000 + float::to_bits(x) % 0x1_0000_0000)
}

fn from_high_word(h: u64) -> f64
    requires { h < 2 ^ 32 }
    ensures { result ≡ from_high_word h }
{
    float::from_bits(h * 0x1_0000_0000)
}

// fdlibm's a, b, ha and hb stay four parameters, here and below: where of_small scales a and b by a product, ha and hb are kept and are no
// longer their high words, so that no fact of a struct could tie them, and each function needs another bound of ha and hb.
fn when_wide(a: f64, b: f64, ha: u64) -> f64
    requires { ha < 2 ^ 32 }
    ensures { result ≡ wide a b ha }
{
    let t1 = from_high_word(ha);
    let t2 = a - t1;
    sqrt(t1 * t1 - (b * (-b) - t2 * (a + t1)))
}

fn when_close(a: f64, b: f64, ha: u64, hb: u64) -> f64
    requires { (ha + 0x0010_0000 < 2 ^ 32) × (hb < 2 ^ 32) }
    ensures { result ≡ close a b ha hb }
{
    let w = a - b;
    let y1 = from_high_word(hb);
    let y2 = b - y1;
    let t1 = from_high_word(ha + 0x0010_0000);
    let t2 = a + a - t1;
    sqrt(t1 * y1 - (w * (-w) - (t1 * y2 + t2 * b)))
}

#[tactic(auto, unfolding(crate::specs::Hypot::scaled))]
fn rescaled(k: u64, w: f64) -> f64
    requires { k < 2048 }
    ensures { result ≡ scaled k w }
{
    if k == 1023 {
        w
    } else {
        float::from_bits(k * 0x10_0000_0000_0000) * w
    }
}

#[tactic(auto, unfolding(crate::specs::Hypot::middle))]
fn of_medium(k: u64, a: f64, b: f64, ha: u64, hb: u64) -> f64
    requires { (k < 2048) × (ha + 0x0010_0000 < 2 ^ 32) × (hb < 2 ^ 32) }
    ensures { result ≡ middle k a b ha hb }
{
    let w = a - b;
    let root = if w > b {
        when_wide(a, b, ha)
    } else {
        when_close(a, b, ha, hb)
    };
    rescaled(k, root)
}

#[tactic(auto, unfolding(crate::specs::Hypot::small))]
fn of_small(k: u64, a: f64, b: f64, ha: u64, hb: u64) -> f64
    requires { (k < 2048) × (1022 ≤ k) × (ha < 2 ^ 31) × (hb < 2 ^ 31) }
    ensures { result ≡ small k a b ha hb }
{
    if hb >= 0x20b0_0000 {
        of_medium(k, a, b, ha, hb)
    } else if hb > 0x000f_ffff {
        let pa = ha + 0x2580_0000;
        let pb = hb + 0x2580_0000;
        of_medium(k - 600, set_high_word(a, pa), set_high_word(b, pb), pa, pb)
    } else if float::to_bits(b) == 0 {
        a
    } else {
        let t = from_high_word(0x7fd0_0000);
        of_medium(k - 1022, a * t, b * t, ha, hb)
    }
}

#[tactic(auto, unfolding(crate::specs::Hypot::endless))]
fn of_endless(a: f64, b: f64) -> f64
    ensures { result ≡ endless a b }
{
    let n = float::to_bits(b);
    let m = float::to_bits(a) % 0x10_0000_0000_0000;
    let infinite = n == 0x7ff0_0000_0000_0000;
    if infinite {
        b
    } else if m == 0 {
        a
    } else {
        a + b
    }
}

#[tactic(auto, unfolding(crate::specs::Hypot::ordered))]
fn in_order(a: f64, b: f64, ha: u64, hb: u64) -> f64
    requires { (hb ≤ ha) × (ha < 2 ^ 31) }
    ensures { result ≡ ordered a b ha hb }
{
    if ha - hb > 0x3c0_0000 {
        a + b
    } else if ha >= 0x7ff0_0000 {
        of_endless(a, b)
    } else if ha > 0x5f30_0000 {
        let pa = ha - 0x2580_0000;
        let pb = hb - 0x2580_0000;
        of_small(1623, set_high_word(a, pa), set_high_word(b, pb), pa, pb)
    } else {
        of_small(1023, a, b, ha, hb)
    }
}

#[tactic(auto, unfolding(crate::specs::Hypot::hypotenuse))]
pub fn hypot(x: f64, y: f64) -> f64
    ensures { result ≡ hypotenuse x y }
{
    let ha = float::high_word(x) % 0x8000_0000;
    let hb = float::high_word(y) % 0x8000_0000;
    let a = float::absolute(x);
    let b = float::absolute(y);
    if ha < hb {
        in_order(b, a, hb, ha)
    } else {
        in_order(a, b, ha, hb)
    }
}
