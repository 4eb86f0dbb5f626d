// Points moved to a grid (docs/RULES.md, "Grid"): each coordinate becomes the nearest whole multiple of the resolution.
ghost use Rattle.std.specs.Prelude.{◌≡◌};
ghost use Rattle.distance.specs.Grid.{on_grid, point_on_grid};

use crate::Point;

// One coordinate.
#[tactic(auto, unfolding(crate::specs::Grid::on_grid))]
fn on_grid(c: f64, res: f64) -> f64
    ensures { result ≡ on_grid res c }
{
    if 0.0 < res {
        float::rounding::round(c / res) * res
    } else {
        c
    }
}

// Both coordinates, each by itself.
#[tactic(auto, unfolding(crate::specs::Grid::point_on_grid))]
pub fn point_on_grid(p: Point, res: f64) -> Point
    ensures { result ≡ point_on_grid res p }
{
    Point {
        x: on_grid(p.x, res),
        y: on_grid(p.y, res),
    }
}
