// The settings, and their check.
ghost use Rattle.std.specs.Prelude.{◌≡◌};
ghost use Rattle.settings.specs.Settings.{unusable, negative, out_of_bounds, check_config, check_time_bounds, check_resolution};

use crate::refusal::Refusal;

#[derive(Clone, Copy, Debug, PartialEq)]
pub struct Config {
    pub r1: f64,
    pub r2: f64,
    pub label_singleton: bool,
    pub min_staying_time: f64,
    pub max_time_between: f64,
    pub min_size: usize,
    pub min_spatial_resolution: f64,
    pub seed: u64,
}

// Whether x is not finite or <= 0.
#[tactic(auto, unfolding(crate::specs::Settings::unusable))]
fn unusable(x: f64) -> bool
    ensures { result ≡ unusable x }
{
    !float::is_finite(x) || x <= 0.0
}

// 3 to 6.
#[tactic(auto, unfolding(crate::specs::Settings::check_time_bounds, crate::proofs::Turns::turns))]
fn check_time_bounds(c: Config) -> Result<(), Refusal>
    ensures { result ≡ check_time_bounds c }
{
    if unusable(c.min_staying_time) {
        return Err(Refusal::MinStayingTime);
    }
    if unusable(c.max_time_between) {
        return Err(Refusal::MaxTimeBetween);
    }
    if c.max_time_between <= c.min_staying_time {
        return Err(Refusal::TimeBounds);
    }
    if c.min_size <= 1 {
        return Err(Refusal::MinSize);
    }
    Ok(())
}

// Whether x is not finite or below zero.
#[tactic(auto, unfolding(crate::specs::Settings::negative))]
fn negative(x: f64) -> bool
    ensures { result ≡ negative x }
{
    !float::is_finite(x) || x < 0.0
}

// Whether x lies between zero and 2^-10, or above 10^6.
#[tactic(auto, unfolding(crate::specs::Settings::out_of_bounds, crate::proofs::Numbers::floats))]
fn out_of_bounds(x: f64) -> bool
    ensures { result ≡ out_of_bounds x }
{
    (0.0 < x && x < 0.0009765625) || 1000000.0 < x
}

// 23 and 24.
#[tactic(auto, unfolding(crate::specs::Settings::check_resolution, crate::proofs::Turns::turns))]
fn check_resolution(res: f64) -> Result<(), Refusal>
    ensures { result ≡ check_resolution res }
{
    if negative(res) {
        return Err(Refusal::MinSpatialResolution);
    }
    if out_of_bounds(res) {
        return Err(Refusal::ResolutionBounds);
    }
    Ok(())
}

// 1 to 6, 23, 24: the check of the settings.
#[tactic(auto, unfolding(crate::specs::Settings::check_config, crate::proofs::Turns::turns))]
pub fn check_config(c: Config) -> Result<(), Refusal>
    ensures { result ≡ check_config c }
{
    if unusable(c.r1) {
        return Err(Refusal::R1);
    }
    if unusable(c.r2) {
        return Err(Refusal::R2);
    }
    check_time_bounds(c)?;
    check_resolution(c.min_spatial_resolution)
}
