// The nearest whole number, halves away from zero, by the bits: x + 0.5 would be rounded itself, and is wrong just below 0.5 and at large odd numbers.
ghost use Rattle.std.specs.Prelude.{◌≡◌, ◌^◌, ◌≤◌, ◌<◌};
ghost use Rattle.std.specs.Float.{binary64};
ghost use Rattle.std.specs.Float.Ieee.{of_bits};
ghost use Rattle.float.specs.Binary64.{whole64};
ghost use Rattle.float.specs.Round.{nearest_whole, round_ties_away};

// The bits of 0.5.
const HALF: u64 = 0x3fe0_0000_0000_0000;

// The bits of 2^52, from which on every number is whole.
const WHOLE: u64 = 0x4330_0000_0000_0000;

// The whole number nearest to m / 2^k, a half going up.
#[tactic(auto, using(crate::proofs::NearestWhole::shifted_some, crate::proofs::NearestWhole::shifted_down, crate::proofs::NearestWhole::shifted_up))]
fn nearest_quotient(m: u64, k: u64) -> u64
    requires m_bound { m < 2 ^ 53 }
    requires k_bound { k < 64 }
    ensures { result ≡ nearest_whole m (2 ^ k) }
{
    let d: u64 = 1 << k;
    let q = m / d;
    let twice_rest = 2 * (m % d);
    if twice_rest < d { q } else { q + 1 }
}

// The same for the value whose bits are b, at or above zero and below 2^52.
#[tactic(auto, using(crate::proofs::RoundBits::tiny, crate::proofs::RoundBits::quotient_small, crate::proofs::RoundBits::quotient_rounds))]
fn nearest_whole(b: u64) -> u64
    requires { b < 0x4330_0000_0000_0000 }
    ensures { (result ≤ 2 ^ 53) × (whole64 result ≡ round_ties_away (of_bits binary64 b)) }
{
    if b < HALF {
        return 0;
    }
    let u = crate::Positive { bits: b }.unpack();
    nearest_quotient(u.m, 1074 - u.e)
}

// The whole number nearest to x, of two as near the one further from zero. The sign stays, so that -0.3 gives -0.0; what is whole, infinite or NaN stays.
#[tactic(auto, using(crate::proofs::RoundBits::nan_rounds, crate::proofs::RoundBits::whole_stays, crate::proofs::RoundBits::positive_rounds, crate::proofs::RoundBits::negative_rounds))]
pub fn round(x: f64) -> f64
    ensures { result ≡ round_ties_away x }
{
    if x.is_nan() {
        return x;
    }
    let b = x.to_bits();
    let size = b % crate::SIGN;
    if WHOLE <= size {
        return x;
    }
    let n = nearest_whole(size) as f64;
    if b == size { n } else { -n }
}
