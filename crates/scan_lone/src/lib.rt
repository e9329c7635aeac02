// The stations near a grid row, as its points read them; and what the sum of weight·D at a point is divided by under rule 2 (document 02, 6): whether
// exactly one station is inside the radius.
#![tactic(auto)]

ghost use Rattle.std.specs.Prelude.{◌≡◌, ◌+◌, ◌*◌, ◌≤◌, ◌<◌, length, All, ltb};
ghost use Rattle.lists.specs.Sums.{up_to};
ghost use Rattle.scheme.specs.Units.{most_side, most_stations, listing_rule};
ghost use Rattle.scheme.specs.Weight.{scale};
ghost use Rattle.scheme.specs.Most.{most_weights};
ghost use Rattle.scan_lone.specs.Inside.{distance, inside_in, Placed};
ghost use Rattle.scan_lone.specs.Divides.{Divides};

use scan_along::Streak;

// A station near a grid row: its position along the row, its squared distance to it, its difference, and what the row goes by of its wind.
#[derive(Clone, Copy)]
pub struct Near {
    pub x: i32,
    pub gap: u32,
    pub d: i64,
    pub streak: Streak,
}

// What fills the room that the stations near a row are gathered in.
pub const NOBODY: Near = Near {
    x: 0,
    gap: 0,
    d: 0,
    streak: scan_along::CALM,
};

impl Near {
    // Its squared distance to the point in column i of the row.
    pub fn squared_distance(&self, i: usize) -> u32
        requires { (i < most_side) × Placed self.now }
        ensures { result ≡ distance self.now i }
    {
        scan_weight::squared_distance(self.x, (64 * i) as i32, self.gap)
    }

    // Whether it is inside the radius there.
    fn is_inside(&self, i: usize, r2: u32) -> bool
        requires { (i < most_side) × Placed self.now }
        ensures { result ≡ ltb (distance self.now i) r2 }
    {
        self.squared_distance(i) < r2
    }
}

// How many of the stations near a grid row are inside the radius at its column i, whatever their weight: four in a turn, and the rest singly. Counted by
// a filter, even the rest alone, rule 2 misses its bar beside rule 1 (`make bench`, case l).
fn how_many(near: &[Near], i: usize, r2: u32) -> usize
    requires { (i < most_side) × (length near.now ≤ most_stations) × All Placed near.now }
    ensures { result ≡ up_to 0 ◌+◌ (length near.now) (inside_in near.now r2 i) }
{
    let mut inside: usize = 0;
    let mut rest = near;
    while let [a, b, c, d, more @ ..] = rest {
        inside += a.is_inside(i, r2) as usize
            + b.is_inside(i, r2) as usize
            + c.is_inside(i, r2) as usize
            + d.is_inside(i, r2) as usize;
        rest = more;
    }
    for s in rest {
        inside += s.is_inside(i, r2) as usize;
    }
    inside
}

// What the sum of weight·D is divided by under rule 2 at column i of a grid row, w the sum of weights there; 0 where that is 0. It can be the scale only
// where w is no more than one station's weight: elsewhere none are counted.
pub fn divisor(w: u64, near: &[Near], i: usize, r2: u32) -> u64
    requires { (w ≤ most_weights) × (length near.now ≤ most_stations) × (i < most_side) × All Placed near.now
        × (w ≤ scale * up_to 0 ◌+◌ (length near.now) (inside_in near.now r2 i)) }
    ensures { Divides listing_rule w (up_to 0 ◌+◌ (length near.now) (inside_in near.now r2 i)) result }
{
    if (w == 0) | (scan_weight::SCALE < w) {
        return w;
    }
    if how_many(near, i, r2) == 1 {
        scan_weight::SCALE
    } else {
        w
    }
}
