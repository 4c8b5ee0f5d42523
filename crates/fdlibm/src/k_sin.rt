ghost use Rattle.std.specs.Prelude.{◌≡◌, true, false, MatchOption};
ghost use Rattle.float.specs.Number.{zero64};
ghost use Rattle.fdlibm.specs.Kernel.{kernel_sin};

// S1 to S6.
const S: [f64; 6] = [
    -1.66666666666666324348e-01,
    8.33333333332248946124e-03,
    -1.98412698298579493134e-04,
    2.75573137070700676789e-06,
    -2.50507602534068634195e-08,
    1.58969099521155010221e-10,
];

// Sine of x and its tail from -pi/4 to pi/4.
#[tactic(auto, unfolding(crate::specs::Kernel::kernel_sin))]
pub fn kernel_sin(x: f64, tail: Option<f64>) -> f64
    ensures { MatchOption tail (result ≡ kernel_sin x zero64 false) (λ y. result ≡ kernel_sin x y true) }
{
    let ix = float::high_word(x) % 0x8000_0000;
    if ix < 0x3e40_0000 {
        return x;
    }
    let z = x * x;
    let v = z * x;
    let r = S[1] + z * (S[2] + z * (S[3] + z * (S[4] + z * S[5])));
    match tail {
        Some(y) => x - ((z * (0.5 * y - v * r) - y) - v * S[0]),
        None => x + v * (S[0] + z * r),
    }
}
