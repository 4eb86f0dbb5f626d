// For the programs that tell whether a fit left a model as it was: a model that a fit has altered before, and the comparison.
// Kept as it is: arrays of fixed size, since the project's memory is fixed and it takes no heap.
#![tactic(auto)]

ghost use Rattle.std.specs.Prelude.{◌≡◌};
ghost use Rattle.std.specs.List.{zip, list_all};
ghost use Rattle.float.specs.Binary64.{same_bits};
ghost use Rattle.replay_model.specs.SameModel.{same_floats, same_config, same_model};

use infostop::model::Infostop;
use settings::config::Config;
use trace::Tracks;

// A model with these settings that a fit of two linked places has altered. Refused settings: one that no fit has altered.
#[tactic(auto, using(crate::proofs::Same::settings_kept), unfolding(infostop::specs::Models::from_config))]
pub fn fitted_model(c: Config) -> Infostop
    ensures { result.config ≡ c }
{
    let xs = [1.0, 1.0, 4.0, 4.0];
    let ys = [2.0, 2.0, 6.0, 6.0];
    let times = [0.0; 4];
    let marks = [0u8; 4];
    let lens = [2u32; 2];
    let mut labels = [0i32; 4];
    let mut floats = [0.0; 20];
    let mut words = [0i32; 32];
    let made = Infostop::from_config(c);
    let tracks = Tracks {
        xs: &xs,
        ys: &ys,
        times: &times,
        marks: &marks,
        lens: &lens,
    };
    let f = made
        .model
        .fit_predict_many(tracks, &mut labels, 2, &mut floats, &mut words);
    f.model
}

// Whether the items of two columns agree pair by pair, as far as both go.
fn pairs_agree(a: &[f64], b: &[f64]) -> bool
    ensures { result ≡ list_all (λ p. same_bits p.0 p.1) (zip a.now b.now) }
{
    a.iter().zip(b).all(|(&x, &y)| float::same_bits(x, y))
}

#[tactic(auto, using(crate::proofs::Same::columns_are, crate::proofs::Same::columns_differ))]
fn same_floats(a: &[f64], b: &[f64]) -> bool
    ensures { result ≡ same_floats a.now b.now }
{
    a.len() == b.len() && pairs_agree(a, b)
}

// Kept as it is: floats are compared bit for bit; a derived == tells neither -0.0 from 0.0, nor that a NaN is still there.
#[tactic(auto, unfolding(crate::specs::SameModel::same_config))]
fn same_config(a: Config, b: Config) -> bool
    ensures { result ≡ same_config a b }
{
    float::same_bits(a.r1, b.r1)
        && float::same_bits(a.r2, b.r2)
        && float::same_bits(a.min_staying_time, b.min_staying_time)
        && float::same_bits(a.max_time_between, b.max_time_between)
        && float::same_bits(a.min_spatial_resolution, b.min_spatial_resolution)
        && a.label_singleton == b.label_singleton
        && a.min_size == b.min_size
        && a.seed == b.seed
}

// Whether two models agree, floats bit for bit.
// Kept as it is: columns and labels have names of their own; where a field of a model is lent, the whole model is copied for it, 10 KB each time.
#[tactic(auto, unfolding(crate::specs::SameModel::same_model))]
pub fn same_model(a: Infostop, b: Infostop) -> bool
    ensures { result ≡ same_model a b }
{
    let (ax, bx) = (a.xs, b.xs);
    let (ay, by) = (a.ys, b.ys);
    let (al, bl) = (a.labels, b.labels);
    same_config(a.config, b.config)
        && a.fitted == b.fitted
        && a.count == b.count
        && same_floats(&ax, &bx)
        && same_floats(&ay, &by)
        && al == bl
}
