// Distinct medians: one place if both bit patterns agree, numbered by first sight.
ghost use Rattle.std.specs.Prelude.{◌≡◌, ◌<◌, ◌≤◌, length};
ghost use Rattle.distance.specs.Steps.{points_of};
ghost use Rattle.neighbors.specs.Places.{same_place, place_at};
ghost use Rattle.neighbors.specs.StepsPlaces.{place_points, PlaceFound, PlacesInFront, OneMoreLaid, DistinctLaid};

use distance::{Point, Points};
use std::marker::Model;

// Places in columns of one length that are only read: place i is at xs[i], ys[i] and has counts[i] stays. Contracts see the list of places.
// Kept as it is: three columns, and no slice of a struct: the rules' slices hold numbers, x and y apart (docs/DECISIONS.md, "Forms"). No
// comparison is derived: it would read the fields, which the list of places does not give back.
#[derive(Drop)]
pub struct Places<'a> {
    pub xs: &'a [f64],
    pub ys: &'a [f64],
    pub counts: &'a [u32],
}

impl<'a> Model for Places<'a> {
    ghost use Rattle.std.specs.Prelude.{◌≡◌, List, length};
    ghost use Rattle.neighbors.specs.Places.{Place, places_in};

    ghost Value = { List Place };

    ghost view = { λ a. places_in a.xs.now a.ys.now a.counts.now };

    ghost invariant = { λ a. (length a.ys.now ≡ length a.xs.now) × (length a.counts.now ≡ length a.xs.now) };
}

impl<'a> Places<'a> {
    #[tactic(auto, using(crate::proofs::Sighted::length_places_in))]
    pub fn len(&self) -> usize
        ensures { result ≡ length self.now }
    {
        self.xs.len()
    }

    // Where the places are.
    #[tactic(auto, using(crate::proofs::Within::place_points_in))]
    pub fn points(&self) -> Points<'a>
        ensures { points_of result ≡ place_points self.now }
    {
        Points {
            xs: self.xs,
            ys: self.ys,
        }
    }

    // Where place i is.
    #[tactic(auto, using(crate::proofs::Within::length_place_points), unfolding(crate::specs::StepsPlaces::place_points))]
    pub(crate) fn at(&self, i: usize) -> Point
        requires { i < length self.now }
        ensures { result ≡ (place_at self.now i).at }
    {
        self.points().at(i)
    }

    // How many stays are at place i.
    #[tactic(auto, using(crate::proofs::Linked::column_lt, crate::proofs::Linked::count_place))]
    pub(crate) fn count(&self, i: usize) -> u32
        requires { i < length self.now }
        ensures { result ≡ (place_at self.now i).count }
    {
        let counts = self.counts;
        counts[i]
    }
}

// Whether two medians are one place.
// Kept as it is: bits compared by hand. The rules tell 0.0 from -0.0; a derived == on `Point` compares floats, and takes the two for one place.
#[tactic(auto, unfolding(crate::specs::Places::same_place))]
pub fn same_place(a: Point, b: Point) -> bool
    ensures { result ≡ same_place a b }
{
    float::same_bits(a.x, b.x) && float::same_bits(a.y, b.y)
}

// The number of the place of m, if it has one, from where the places are.
// Kept as it is: the column of y is lent up to the length of that of x, which is its own length. The search then asks for one length at each place, and
// mostly reads one coordinate: 7 instructions for a place that is another, and 17 where both lengths are asked for.
pub fn place_of(places: Points, m: Point) -> Option<usize>
    ensures { PlaceFound (points_of places.entry) m result }
{
    let (xs, ys) = (places.xs, places.ys);
    let there = Points {
        xs,
        ys: &ys[..xs.len()],
    };
    there.iter().position(|p| same_place(p, m))
}

// One more stay with the median m, where n places stand in front: how many there are then. Where that is one more than there is room for,
// the answer is None, and nothing is written.
// Kept as it is: here and in `distinct` the three columns are written. A struct of `&mut` slices is no plainer: each contract would have to
// add that every field still holds the slice that it held, which three parameters of their own say by themselves. A struct that owns arrays would ask the
// callers of `distinct` for arrays of its size, where slices of any one length are taken.
fn sight(xs: &mut [f64], ys: &mut [f64], counts: &mut [u32], n: usize, m: Point) -> Option<usize>
    requires { PlacesInFront xs.old ys.old counts.old n }
    ensures { OneMoreLaid xs.old ys.old counts.old n m result xs.new ys.new counts.new }
{
    let there = Points {
        xs: &xs[..n],
        ys: &ys[..n],
    };
    if let Some(i) = place_of(there, m) {
        counts[i] += 1;
        return Some(n);
    }
    if xs.len() <= n {
        return None;
    }
    xs[n] = m.x;
    ys[n] = m.y;
    counts[n] = 1;
    Some(n + 1)
}

// Writes the places of the medians in order, with their counts, to the front of the slices, and tells how many there are; None at the first
// median whose place has no room, and then the slices hold the places of the medians before it.
pub fn distinct(
    medians: Points,
    xs: &mut [f64],
    ys: &mut [f64],
    counts: &mut [u32],
) -> Option<usize>
    requires { (length (points_of medians) ≤ 65536) × (length ys.old ≡ length xs.old) × (length counts.old ≡ length xs.old) }
    ensures { DistinctLaid (points_of medians.entry) xs.old ys.old counts.old result xs.new ys.new counts.new }
{
    let mut n = 0;
    for m in medians.iter() {
        n = sight(xs, ys, counts, n, m)?;
    }
    Some(n)
}
