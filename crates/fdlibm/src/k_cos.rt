ghost use Rattle.std.specs.Prelude.{◌≡◌, ◌<◌, ◌≤◌, ◌^◌};
ghost use Rattle.fdlibm.specs.Kernel.{cos_polynomial, kernel_cos, qx};

// C1 to C6.
const C: [f64; 6] = [
    4.16666666666666019037e-02,
    -1.38888888888741095749e-03,
    2.48015872894767294178e-05,
    -2.75573143513906633035e-07,
    2.08757232129817482790e-09,
    -1.13596475577881948265e-11,
];

fn cos_polynomial(z: f64) -> f64
    ensures { result ≡ cos_polynomial z }
{
    z * (C[0] + z * (C[1] + z * (C[2] + z * (C[3] + z * (C[4] + z * C[5])))))
}

// About x/4, so that 1 - qx is exact.
fn cos_qx(ix: u64) -> f64
    requires { (0x0020_0000 ≤ ix) × (ix < 2 ^ 31) }
    ensures { result ≡ qx ix }
{
    if ix > 0x3fe9_0000 {
        0.28125
    } else {
        float::from_bits((ix - 0x0020_0000) * 0x1_0000_0000)
    }
}

// Cosine of x + y from -pi/4 to pi/4, y the tail of x.
#[tactic(auto, unfolding(crate::specs::Kernel::kernel_cos))]
pub fn kernel_cos(x: f64, y: f64) -> f64
    ensures { result ≡ kernel_cos x y }
{
    let ix = float::high_word(x) % 0x8000_0000;
    if ix < 0x3e40_0000 {
        return 1.0;
    }
    let z = x * x;
    let r = cos_polynomial(z);
    if ix < 0x3fd3_3333 {
        1.0 - (0.5 * z - (z * r - x * y))
    } else {
        let q = cos_qx(ix);
        let hz = 0.5 * z - q;
        let a = 1.0 - q;
        a - (hz - (z * r - x * y))
    }
}
