// num-complex's operators, in its order of float operations.
ghost use Rattle.std.specs.Prelude.{◌≡◌};
ghost use Rattle.pi_model.specs.Flow.{complex, plus, minus, times, quotient, over_real, conjugate, polar, norm_sqr};

use std::ops::{Add, Div, Mul, Sub};

#[derive(Clone, Copy, Debug, PartialEq)]
pub struct Complex {
    pub re: f64,
    pub im: f64,
}

impl Complex {
    pub fn new(re: f64, im: f64) -> Self
        ensures { result ≡ complex re im }
    {
        Complex { re, im }
    }

    // The number of absolute value r, at the angle theta.
    pub fn from_polar(r: f64, theta: f64) -> Self
        ensures { result ≡ polar r theta }
    {
        Complex::new(r * fdlibm::cos(theta), r * fdlibm::sin(theta))
    }

    pub fn conj(self) -> Self
        ensures { result ≡ conjugate self }
    {
        Complex::new(self.re, -self.im)
    }

    pub fn norm_sqr(self) -> f64
        ensures { result ≡ norm_sqr self }
    {
        self.re * self.re + self.im * self.im
    }
}

impl Add for Complex {
    type Output = Complex;

    ghost add_gives = { λ z w r. r ≡ plus z w };

    fn add(self, other: Complex) -> Complex {
        Complex::new(self.re + other.re, self.im + other.im)
    }
}

impl Sub for Complex {
    type Output = Complex;

    ghost sub_gives = { λ z w r. r ≡ minus z w };

    fn sub(self, other: Complex) -> Complex {
        Complex::new(self.re - other.re, self.im - other.im)
    }
}

impl Mul for Complex {
    type Output = Complex;

    ghost mul_gives = { λ z w r. r ≡ times z w };

    fn mul(self, other: Complex) -> Complex {
        let re = self.re * other.re - self.im * other.im;
        let im = self.re * other.im + self.im * other.re;
        Complex::new(re, im)
    }
}

impl Div for Complex {
    type Output = Complex;

    ghost div_gives = { λ z w r. r ≡ quotient z w };

    fn div(self, other: Complex) -> Complex {
        let norm_sqr = other.norm_sqr();
        let re = self.re * other.re + self.im * other.im;
        let im = self.im * other.re - self.re * other.im;
        Complex::new(re / norm_sqr, im / norm_sqr)
    }
}

// A real divisor divides each part.
impl Div<f64> for Complex {
    type Output = Complex;

    ghost div_gives = { λ z divisor r. r ≡ over_real z divisor };

    fn div(self, divisor: f64) -> Complex {
        Complex::new(self.re / divisor, self.im / divisor)
    }
}
