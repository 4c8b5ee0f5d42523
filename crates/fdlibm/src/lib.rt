// fdlibm 5.3's sine, cosine, square root and hypotenuse. Each module is named after fdlibm's file; quick_sqrt is what runs for
// e_sqrt, whose bitwise form is its definition and its fallback.
#![tactic(auto)]

mod e_hypot;
mod e_rem_pio2;
mod e_sqrt;
mod k_cos;
mod k_sin;
mod quick_sqrt;
mod s_cos;
mod s_sin;

pub use e_hypot::hypot;
pub use quick_sqrt::sqrt;
pub use s_cos::cos;
pub use s_sin::sin;
