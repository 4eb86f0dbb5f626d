// The model: places and their labels in arrays of 512 and a fitted flag, beside the settings.
ghost use Rattle.std.specs.Prelude.{◌≡◌, length};
ghost use Rattle.infostop.specs.Models.{fresh_model, from_config};
ghost use Rattle.infostop.specs.ModelPlaces.{place_count, model_xs, model_ys, model_labels};

use distance::Points;
use settings::config::Config;
use settings::refusal::Refusal;

// Kept as it is: arrays of 512 with a count and a flag beside them, by value, are the rules' form of the model.
#[derive(Clone, Copy, Debug, PartialEq)]
pub struct Infostop {
    pub config: Config,
    pub xs: [f64; 512],
    pub ys: [f64; 512],
    pub labels: [i32; 512],
    pub count: usize,
    pub fitted: bool,
}

// The check of the settings, and a model. That of refused settings is of no use: a fit refuses it again, a report finds it not fitted.
// Kept as it is: the promise of `from_config` (specs/Models.antt) gives a model for refused settings too, where a Result would hand back none; and a promise stays.
#[derive(Clone, Copy, Debug, PartialEq)]
pub struct Made {
    pub checked: Result<(), Refusal>,
    pub model: Infostop,
}

// A model that no fit has altered.
#[tactic(auto, unfolding(settings::proofs::Numbers::floats))]
fn fresh(c: Config) -> Infostop
    ensures { result ≡ fresh_model c }
{
    Infostop {
        config: c,
        xs: [0.0; 512],
        ys: [0.0; 512],
        labels: [-1; 512],
        count: 0,
        fitted: false,
    }
}

impl Infostop {
    // The model of settings, checked: 1 to 6, 23, 24.
    #[tactic(auto, unfolding(crate::specs::Models::from_config))]
    pub fn from_config(c: Config) -> Made
        ensures { result ≡ from_config c }
    {
        let checked = settings::config::check_config(c);
        let model = fresh(c);
        Made { checked, model }
    }

    // Where its places are.
    pub fn points(&self) -> Points<'_>
        ensures xs { result.xs.now ≡ model_xs self.now }
        ensures ys { result.ys.now ≡ model_ys self.now }
        ensures count { length result.xs.now ≡ place_count self.now }
    {
        let n = self.count.min(512);
        Points {
            xs: &self.xs[..n],
            ys: &self.ys[..n],
        }
    }

    // Their labels, in the same order.
    pub fn labels(&self) -> &[i32]
        ensures labels { result.now ≡ model_labels self.now }
        ensures count { length result.now ≡ place_count self.now }
    {
        &self.labels[..self.count.min(512)]
    }
}
