// A branch's flows: branch_flow's coefficients for the model, and numeric_branch_flow for the check.
ghost use Rattle.std.specs.Prelude.{◌≡◌};
ghost use Rattle.pi_model.specs.Flow.{coefficients_of, flow_of};

use crate::complex::Complex;
use network::Branch;

// branch_flow's coefficients: of vm squared, wr and wi in p_from, then in q_from, p_to and q_to. A list, since factor goes over all twelve
// by place, and parts cuts them in parts of six and three.
#[tactic(auto, unfolding(crate::specs::Flow::coefficients_of))]
pub fn coefficients(branch: Branch) -> [f64; 12]
    ensures { result ≡ coefficients_of branch }
{
    let g = branch.g;
    let b = branch.b;
    let tap_squared = branch.tap * branch.tap;
    let Complex { re: tr, im: ti } = Complex::from_polar(branch.tap, branch.shift);
    [
        (g + branch.g_fr) / tap_squared,
        (-g * tr + b * ti) / tap_squared,
        (-b * tr - g * ti) / tap_squared,
        -(b + branch.b_fr) / tap_squared,
        (b * tr + g * ti) / tap_squared,
        (-g * tr + b * ti) / tap_squared,
        g + branch.g_to,
        (-g * tr - b * ti) / tap_squared,
        (b * tr - g * ti) / tap_squared,
        -(b + branch.b_to),
        (b * tr - g * ti) / tap_squared,
        (g * tr + b * ti) / tap_squared,
    ]
}

// The power that leaves a branch's two buses, active and reactive.
#[derive(Clone, Copy, Debug, PartialEq)]
pub struct Flows {
    pub p_from: f64,
    pub q_from: f64,
    pub p_to: f64,
    pub q_to: f64,
}

// The flows at the voltages of the two buses: a bus has one voltage, which all its branches share.
#[tactic(auto, unfolding(crate::specs::Flow::flow_of, crate::specs::Flow::flow_at))]
pub fn numeric_branch_flow(branch: Branch, vf: Complex, vt: Complex) -> Flows
    ensures { result ≡ flow_of branch vf vt }
{
    let y = Complex::new(branch.g, branch.b);
    let yf = Complex::new(branch.g_fr, branch.b_fr);
    let yt = Complex::new(branch.g_to, branch.b_to);
    let tap = Complex::from_polar(branch.tap, branch.shift);
    let sf = vf * ((y + yf) / tap.norm_sqr() * vf - y / tap.conj() * vt).conj();
    let st = vt * ((y + yt) * vt - y / tap * vf).conj();
    Flows {
        p_from: sf.re,
        q_from: sf.im,
        p_to: st.re,
        q_to: st.im,
    }
}
