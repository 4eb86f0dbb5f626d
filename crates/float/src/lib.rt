// Of an f64: the correctly rounded square root, the rules' stand-in for the natural logarithm, plogp, the tests for a finite number and for the same bits
// and, in `rounding`, the nearest whole number.
#![tactic(auto)]

ghost use Rattle.std.specs.Prelude.{◌≡◌, ◌+◌, ◌-◌, ◌*◌, ◌/◌, ◌^◌, ◌≤◌, ◌<◌};
ghost use Rattle.std.specs.Float.{binary64};
ghost use Rattle.std.specs.Float.Ieee.{of_bits};
ghost use Rattle.std.specs.List.{fold};
ghost use Rattle.float.specs.Binary64.{add64, mul64, one64, whole64, div64, finite, same_bits};
ghost use Rattle.float.specs.Root.{root};
ghost use Rattle.float.specs.Ln.{series, ln_of, ln, plogp};
ghost use Rattle.float.specs.Steps.{Unpacked, Normal, Even, Rooted, Squared};

pub mod rounding;

// 2^52: where the exponent's field begins in a bit pattern, and the digit in front of a normal number's others.
const EXPONENT_ONE: u64 = 0x10_0000_0000_0000;

// The bits of infinity, the first above those of all finite numbers.
const INFINITY: u64 = 0x7ff0_0000_0000_0000;

// The sign bit, which alone is -0.0.
const SIGN: u64 = 0x8000_0000_0000_0000;

// 2^54, by which a number is multiplied before its root is taken.
const SCALE: u64 = 0x40_0000_0000_0000;

// The natural logarithm of 2.
const LN_2: f64 = 0.6931471805599453;

// The number m * 2^e.
#[derive(Clone, Copy, Debug, PartialEq, Eq)]
struct Scaled {
    m: u64,
    e: u64,
}

// The bits of a value that is finite and above zero.
#[derive(Clone, Copy, Debug, PartialEq, Eq)]
struct Positive {
    bits: u64,
    ghost some: { 0 < bits },
    ghost finite: { bits < 0x7ff0_0000_0000_0000 },
}

impl Positive {
    // The value is m * 2^e smallest values (2^-1074 each).
    #[tactic(auto, using(crate::proofs::Unpacking::of_subnormal, crate::proofs::Unpacking::of_normal))]
    fn unpack(self) -> Scaled
        ensures { Unpacked self.bits result.m result.e }
    {
        let b = self.bits;
        if b < EXPONENT_ONE {
            Scaled { m: b, e: 0 }
        } else {
            Scaled {
                m: b % EXPONENT_ONE + EXPONENT_ONE,
                e: b / EXPONENT_ONE - 1,
            }
        }
    }
}

impl Scaled {
    // The number times 2^1074, with an m of 53 binary digits.
    #[tactic(auto, using(crate::proofs::Unpacking::zeros_range))]
    fn normalize(self) -> Scaled
        requires m_nonzero { 0 < self.m }
        requires m_bound { self.m < 2 ^ 53 }
        requires e_bound { self.e < 2046 }
        ensures { Normal self.m self.e result.m result.e }
    {
        let z = self.m.leading_zeros() as u64 - 11;
        Scaled {
            m: self.m << z,
            e: self.e + 1074 - z,
        }
    }

    // The same number with an even exponent.
    #[tactic(auto, using(crate::proofs::Unpacking::evened))]
    fn even_exponent(self) -> Scaled
        requires bound { 2 ^ 52 ≤ self.m }
        requires m_bound { self.m < 2 ^ 53 }
        requires le_e { 1022 ≤ self.e }
        requires e_bound { self.e < 3120 }
        ensures { Even self.m self.e result.m result.e }
    {
        if self.e % 2 == 1 {
            Scaled {
                m: 2 * self.m,
                e: self.e - 1,
            }
        } else {
            self
        }
    }
}

// hi * 2^54 + lo.
#[derive(Clone, Copy, Debug, PartialEq, Eq)]
struct Wide {
    hi: u64,
    lo: u64,
}

// A number below 2^54: one of whose multiple by 2^54 the root is taken, or such a root.
#[derive(Clone, Copy, Debug, PartialEq, Eq)]
struct Small {
    m: u64,
    ghost bound: { m < 2 ^ 54 },
}

impl Small {
    // Its square, in two parts.
    #[tactic(auto, using(crate::proofs::Correction::squared))]
    fn square(self) -> Wide
        ensures { Squared self.m result.hi result.lo }
    {
        let a = self.m / 0x800_0000;
        let b = self.m % 0x800_0000;
        let c = a * b;
        let low = c % 0x400_0000 * 0x1000_0000 + b * b;
        Wide {
            hi: a * a + c / 0x400_0000 + low / SCALE,
            lo: low % SCALE,
        }
    }

    // The whole part of the root of m * 2^54, a binary digit a turn. p is the place of the last digit found, and
    // root * root + rest * p stays m * 2^54.
    #[tactic(auto, using(crate::proofs::Restoring::done))]
    fn root_by_digits(self) -> u64
        ensures { Rooted self.m result }
    {
        let mut root: u64 = 0;
        let mut rest = self.m;
        let mut p = SCALE;
        while 1 < p {
            p /= 2;
            rest *= 2;
            let t = root * 2 + p;
            if t <= rest {
                rest -= t;
                root += p;
            }
        }
        root
    }

    // A number near the root of m * 2^54, as a rule a little below: two steps of Newton's method for 1 / sqrt. Nothing is promised of it but its size;
    // it is checked in whole numbers.
    fn estimate(self) -> Small {
        let x = (self.m / 2) as f64 * 0.0000000000000004440892098500626;
        let h = 0.5 * x;
        let y0 = ((x * -0.019050381711095046 + 0.1946854613143936) * x - 0.7388624963523053) * x
            + 1.556186731857809;
        let y1 = y0 * (1.5 - h * y0 * y0);
        let y2 = y1 * (1.5 - h * y1 * y1);
        let s = x * y2;
        let t = s + (x - s * s) * (0.5 * y2);
        if t.is_nan() {
            return Small { m: 0 };
        }
        Small {
            m: (t.to_bits() % EXPONENT_ONE + EXPONENT_ONE) * 2 - 2,
        }
    }

    // The whole part of the root of m * 2^54, one by one from a number at or below it; d is what is left of m * 2^54 above r * r.
    #[tactic(auto, using(crate::proofs::Correction::short, crate::proofs::Correction::ends))]
    fn count_up(self, from: u64, left: u64) -> u64
        requires { from * from + left ≡ self.m * 2 ^ 54 }
        ensures { Rooted self.m result }
    {
        let mut r = from;
        let mut d = left;
        while 2 * r < d {
            d -= 2 * r + 1;
            r += 1;
        }
        r
    }

    // The same with q steps at once where the root is near: what is left then is as a rule less than a step.
    #[tactic(auto, using(crate::proofs::Correction::step_small, crate::proofs::Correction::step_left, crate::proofs::Correction::steps))]
    fn correct(self, r: u64, d: u64) -> u64
        requires { r * r + d ≡ self.m * 2 ^ 54 }
        ensures { Rooted self.m result }
    {
        if 0x80_0000_0000_0000 <= r {
            return self.count_up(r, d);
        }
        let c = 2 * r + 16;
        let q = d / c;
        if 16 < q {
            return self.count_up(r, d);
        }
        self.count_up(r + q, d % c + q * (16 - q))
    }

    // The whole part of the root of m * 2^54: from an estimate where its square is at most that and near, else digit by digit.
    fn whole_root(self) -> u64
        ensures { Rooted self.m result }
    {
        let r = self.estimate();
        let w = r.square();
        if self.m < w.hi {
            return self.root_by_digits();
        }
        let k = self.m - w.hi;
        if 512 <= k {
            return self.root_by_digits();
        }
        let all = k * SCALE;
        if all < w.lo {
            return self.root_by_digits();
        }
        self.correct(r.m, all - w.lo)
    }
}

impl Positive {
    // The root of the value.
    #[tactic(auto, using(crate::proofs::Special::bits_number, crate::proofs::Result::all))]
    fn sqrt(self) -> f64
        ensures { result ≡ root binary64 (of_bits binary64 self.bits) }
    {
        let s = self.unpack().normalize().even_exponent();
        let r = Small { m: s.m }.whole_root();
        f64::from_bits((s.e / 2 - 26) * EXPONENT_ONE + (r + 1) / 2)
    }
}

// The square root of x, rounded to nearest, of two as near the even one.
#[tactic(auto, using(crate::proofs::Special::nan_root, crate::proofs::Special::zero_root, crate::proofs::Special::minus_zero_root, crate::proofs::Special::infinity_root, crate::proofs::Special::negative_root, crate::proofs::Special::below_infinity, crate::proofs::Special::own_bits))]
pub fn sqrt(x: f64) -> f64
    ensures { result ≡ root binary64 x }
{
    if x.is_nan() {
        return x;
    }
    let b = x.to_bits();
    if b == 0 || b == SIGN || b == INFINITY {
        return x;
    }
    if SIGN < b {
        return f64::NAN;
    }
    Positive { bits: b }.sqrt()
}

// From t = start on t * z + r for each r.
fn horner(z: f64, start: f64, rs: &[f64]) -> f64
    ensures { result ≡ fold (λ t r. add64 (mul64 t z) r) start rs.now }
{
    rs.iter().fold(start, |t, &r| t * z + r)
}

// 1 / j for the odd numbers j from 21 down to 1.
const RECIPROCALS: [f64; 11] = [
    1.0 / 21.0,
    1.0 / 19.0,
    1.0 / 17.0,
    1.0 / 15.0,
    1.0 / 13.0,
    1.0 / 11.0,
    1.0 / 9.0,
    1.0 / 7.0,
    1.0 / 5.0,
    1.0 / 3.0,
    1.0,
];

// The series of ln from t = 1/23 down to j = 1.
#[tactic(auto, unfolding(crate::proofs::Logarithm::reciprocals))]
fn odd_series(z: f64) -> f64
    ensures { result ≡ series 11 z (div64 one64 (whole64 23)) }
{
    horner(z, 1.0 / 23.0, &RECIPROCALS)
}

// ln of 2^k * m.
#[tactic(auto, unfolding(crate::specs::Ln::ln_of))]
fn ln_of(k: f64, m: f64) -> f64
    ensures { result ≡ ln_of k m }
{
    let s = (m - 1.0) / (m + 1.0);
    let t = odd_series(s * s);
    k * LN_2 + 2.0 * s * t
}

impl Positive {
    // ln of the value: it is l.m / 2^52 times a power of two, with l.m of 53 binary digits.
    #[tactic(auto, using(crate::proofs::Special::bits_number, crate::proofs::Logarithm::ln_low, crate::proofs::Logarithm::ln_high))]
    fn ln(self) -> f64
        ensures { result ≡ ln (of_bits binary64 self.bits) }
    {
        let l = self.unpack().normalize();
        let e = l.e as u32 as f64;
        if l.m < 0x18_0000_0000_0000 {
            ln_of(e - 2096.0, f64::from_bits(l.m + 0x3fe0_0000_0000_0000))
        } else {
            ln_of(e - 2095.0, f64::from_bits(l.m + 0x3fd0_0000_0000_0000))
        }
    }
}

// The stand-in for the natural logarithm of p.
#[tactic(auto, using(crate::proofs::Special::nan_ln, crate::proofs::Special::zero_ln, crate::proofs::Special::infinity_ln, crate::proofs::Special::negative_ln, crate::proofs::Special::below_infinity, crate::proofs::Special::own_bits))]
pub fn ln(p: f64) -> f64
    ensures { result ≡ ln p }
{
    if p.is_nan() {
        return p;
    }
    let b = p.to_bits();
    if b == INFINITY {
        return p;
    }
    if b % SIGN == 0 {
        return f64::NEG_INFINITY;
    }
    if SIGN < b {
        return f64::NAN;
    }
    Positive { bits: b }.ln()
}

// p * ln(p), and 0 unless p > 0.
#[tactic(auto, unfolding(crate::specs::Ln::plogp))]
pub fn plogp(p: f64) -> f64
    ensures { result ≡ plogp p }
{
    if 0.0 < p { p * ln(p) } else { 0.0 }
}

// Whether x is neither NaN nor an infinity.
#[tactic(auto, using(crate::proofs::Special::finite_is))]
pub fn is_finite(x: f64) -> bool
    ensures { result ≡ finite x }
{
    x.is_finite()
}

// Whether x and y have the same bits; all NaNs count as one.
#[tactic(auto, using(crate::proofs::SameBits::nan_left, crate::proofs::SameBits::nan_right), unfolding(crate::specs::Binary64::same_bits))]
pub fn same_bits(x: f64, y: f64) -> bool
    ensures { result ≡ same_bits x y }
{
    if x.is_nan() {
        y.is_nan()
    } else {
        !y.is_nan() && x.to_bits() == y.to_bits()
    }
}
