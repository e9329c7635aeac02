// What the points of a grid row go by of a station's wind (document 02, 5), and the weight that is stretched along it.
#![tactic(auto)]

ghost use Rattle.std.specs.Prelude.{◌≡◌, ◌*◌, ◌≤◌, ◌<◌, false, nat_abs};
ghost use Rattle.scheme.specs.Units.{most_side, is_no_wind};
ghost use Rattle.scheme.specs.Weight.{square};
ghost use Rattle.scheme.specs.Most.{most_along, most_square};
ghost use Rattle.scheme.specs.Streaks.{Fair};
ghost use Rattle.scan_weight.specs.Along.{calmed, weight_by};
ghost use Rattle.scan_along.specs.Streak.{wind_of, wind_in, streak_at, q_at, Streaked};

use request::{Station, Wind};

// A wind, as the points of one grid row go by it, which a station is dy off: u, v·dy and V = u² + v². Eight bytes, since room for the most stations is
// on the stack.
#[derive(Clone, Copy)]
pub struct Streak {
    pub part: i32,
    pub u: i16,
    pub strength: u16,
}

// That of a calm wind, by which the weight is the round one.
pub const CALM: Streak = Streak {
    part: 0,
    u: 0,
    strength: 0,
};

impl Streak {
    // The wind of a station, once for all points of grid row j.
    pub fn at_row(station: &Station, j: usize) -> Streak
        requires { (j < most_side) × (nat_abs station.now.y ≤ most_along) × (is_no_wind (wind_in station.now) ≡ false → Fair (wind_in station.now)) }
        ensures { result ≡ streak_at station.now j }
    {
        let w = heard(station.wind);
        let dy = station.y - ((64 * j) as i32);
        let part = w.v * dy;
        let strength = (w.u * w.u + w.v * w.v) as u16;
        let u = w.u as i16;
        Streak { part, u, strength }
    }

    // The weight of a station at squared distance d2, inside the radius, that is dx off along the row: by q = u·dx + v·dy.
    pub fn weight(&self, r2: u32, d2: u32, dx: i32) -> u32
        requires { (r2 ≤ most_square) × (d2 < r2) × (square dx ≤ d2) × Streaked self.now }
        ensures { result ≡ weight_by r2 d2 self.now.strength (q_at self.now dx) }
    {
        let q = i32::from(self.u) * dx + self.part;
        scan_weight::stretched(r2, d2, u32::from(self.strength), q)
    }
}

// A wind that is missing is taken as calm, which gives the same weight.
fn heard(w: Wind) -> Wind
    ensures { wind_of result ≡ calmed (wind_of w) }
{
    if refusal_checks::is_no_wind(w) {
        return Wind { u: 0, v: 0 };
    }
    w
}
