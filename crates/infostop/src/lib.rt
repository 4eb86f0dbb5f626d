// The fit: from settings and tracks to labels and a fitted model, with demand 3 in its contract.
#![tactic(auto)]

ghost use Rattle.trace.specs.Given.{traces_of};
ghost use Rattle.infostop.specs.Fit.{fit_of};
ghost use Rattle.std.specs.Prelude.{length};
ghost use Rattle.infostop.specs.Ends.{Promised};
ghost use Rattle.infostop.specs.Steps.{handed_back};

use crate::answer::{Fit, Labelled};
use crate::model::Infostop;
use checks::Room;
use settings::refusal::Refusal;
use trace::Tracks;

pub mod answer;
pub mod model;
mod steps;

impl Infostop {
    // The checks, then the fit, which an accepted one puts into the model. The model is changed in place, since it has 10 KB: handed back in a
    // `Result` it would be copied at each step on the way, of a refusal too.
    fn fit_tracks(
        &mut self,
        tracks: Tracks,
        labels: &mut [i32],
        places: usize,
        floats: &mut [f64],
        words: &mut [i32],
    ) -> Result<Labelled, Refusal>
        ensures { Promised self.old labels.old floats.old words.old
            (fit_of self.old.config tracks.entry
            (length labels.old) places (length floats.old) (length words.old))
            (traces_of tracks.entry)
            (handed_back result self.new) labels.new floats.new words.new }
    {
        settings::config::check_config(self.config)?;
        let room = Room {
            labels: labels.len(),
            places,
            floats: floats.len(),
            words: words.len(),
        };
        checks::check_tracks(tracks, room)?;
        steps::from_tracks(self, tracks, labels, places, floats, words)
    }

    // Labels the fixes of all traces. `places` is the cap on distinct medians, `floats` and `words` are work: 4 × fixes + places² and
    // 4 × fixes + 8 × places numbers.
    pub fn fit_predict_many(
        self,
        tracks: Tracks,
        labels: &mut [i32],
        places: usize,
        floats: &mut [f64],
        words: &mut [i32],
    ) -> Fit
        ensures { Promised self labels.old floats.old words.old
            (fit_of self.config tracks.entry
            (length labels.old) places (length floats.old) (length words.old))
            (traces_of tracks.entry)
            result labels.new floats.new words.new }
    {
        let mut model = self;
        let answer = model.fit_tracks(tracks, labels, places, floats, words);
        Fit { answer, model }
    }
}
