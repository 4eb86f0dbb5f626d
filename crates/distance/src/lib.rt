// Points of the plane, columns of them, and their distance.
#![tactic(auto)]

ghost use Rattle.std.specs.Prelude.{◌≡◌, ◌<◌, ◌^◌, length};
ghost use Rattle.distance.specs.Distance.{Measured};
ghost use Rattle.distance.specs.Limit.{limit, within, in_limit};

pub mod grid;

// A fix, a median or a place.
#[derive(Clone, Copy, Debug, PartialEq)]
pub struct Point {
    pub x: f64,
    pub y: f64,
}

// Points in columns that are only read: point i is at xs[i], ys[i].
// Kept as it is: two columns, and no slice of `Point`: the rules' slices hold numbers, x and y apart (docs/DECISIONS.md, "Forms").
#[derive(Clone, Copy, Debug, PartialEq)]
pub struct Points<'a> {
    pub xs: &'a [f64],
    pub ys: &'a [f64],
    pub ghost ys_length: { length ys.now ≡ length xs.now },
}

impl<'a> Points<'a> {
    ghost use Rattle.distance.specs.Steps.{points_of, point_at};
    ghost use Rattle.distance.specs.StepsIter.{to_come};

    // How many points there are.
    #[tactic(auto, using(crate::proofs::Columns::length_points))]
    pub fn len(self) -> usize
        ensures { result ≡ length (points_of self.entry) }
    {
        self.xs.len()
    }

    // Point i.
    #[tactic(auto, using(crate::proofs::Columns::length_points, crate::proofs::Columns::point_read))]
    pub fn at(self, i: usize) -> Point
        requires { i < length (points_of self) }
        ensures { result ≡ point_at (points_of self.entry) i }
    {
        Point {
            x: self.xs[i],
            y: self.ys[i],
        }
    }

    // The points, one by one.
    #[tactic(auto, using(crate::proofs::Columns::length_points))]
    pub fn iter(self) -> PointIter<'a>
        ensures points { to_come result ≡ points_of self.entry }
        ensures fits { length (to_come result) < 2 ^ 64 }
    {
        PointIter { rest: self }
    }
}

// The points that an iterator over them has still to give.
#[derive(Debug, Drop)]
pub struct PointIter<'a> {
    rest: Points<'a>,
}

impl<'a> Iterator for PointIter<'a> {
    ghost use Rattle.std.specs.Iterator.{YieldsFirst, item_count};
    ghost use Rattle.distance.specs.StepsIter.{to_come};

    type Item = Point;

    ghost next_gives = { YieldsFirst to_come };

    ghost remaining = { item_count to_come };

    #[tactic(auto, using(crate::proofs::Columns::points_next, crate::proofs::Columns::points_none))]
    fn next(&mut self) -> Option<Point> {
        let (&x, xs) = self.rest.xs.split_first()?;
        let (&y, ys) = self.rest.ys.split_first()?;
        self.rest = Points { xs, ys };
        Some(Point { x, y })
    }
}

// The size limit of coordinates.
const LIMIT: f64 = 1000000000.0;

// Whether c is finite and of size at most the limit.
#[tactic(auto, using(crate::proofs::Limit::below_limit, crate::proofs::Limit::up_to_limit))]
fn within_limit(c: f64) -> bool
    ensures { result ≡ within limit c }
{
    -LIMIT <= c && c <= LIMIT
}

// Whether both coordinates are.
#[tactic(auto, unfolding(crate::specs::Limit::in_limit))]
pub fn in_limit(p: Point) -> bool
    ensures { result ≡ in_limit p }
{
    within_limit(p.x) && within_limit(p.y)
}

// The distance of two points, and its bound for points within the limits.
#[tactic(auto, using(crate::proofs::Bound::measured), unfolding(crate::specs::Distance::euclidean))]
pub fn distance(a: Point, b: Point) -> f64
    ensures { Measured a b result }
{
    let dx = a.x - b.x;
    let dy = a.y - b.y;
    float::sqrt(dx * dx + dy * dy)
}
