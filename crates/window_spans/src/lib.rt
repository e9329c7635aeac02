// The reach of a window, the cut, and a station on it (document 01, "Reach of a window"; document 02,
// requests 1 and 7).
#![tactic(auto)]

ghost use Rattle.std.specs.Prelude.{◌≡◌, cond, ◌+◌, ◌-◌, ◌*◌, ◌/◌, ◌≤◌, pos, nat_abs, ◌-ℤ◌};
ghost use Rattle.scheme.specs.Units.{most_side, step, most_position, most_radius, most_buddy_radius};
ghost use Rattle.scheme.specs.Reach.{reach, widened, on_span, on_window, counted};
ghost use Rattle.scheme.specs.Most.{most_reach};
ghost use Rattle.scheme.specs.Accepted.{Shaped, Planned, OnGrid};
ghost use Rattle.request.specs.Tables.{plan_in, window_in, station_of};
ghost use Rattle.window_spans.specs.Spans.{from_to, Placed};

use request::{Station, Terms, Window};

// ---- the reach, and the cut

// What one scan adds to the reach: R/64 rounded up, plus 1 if smoothing is on. R + B stands for R.
fn steps(radius: u32, near: u32, smooth: bool) -> usize
    requires { (radius ≤ most_radius) × (near ≤ most_buddy_radius) }
    ensures { result ≡ (radius + near + (step - 1)) / step + cond smooth 1 0 }
{
    let rounded_up = (radius + near).div_ceil(64) as usize;
    if smooth { rounded_up + 1 } else { rounded_up }
}

// The total over the scans of the plan.
pub fn reach(t: &Terms) -> usize
    requires { Planned (plan_in t.now) }
    ensures { (result ≤ most_reach) × (result ≡ reach (plan_in t.now)) }
{
    let near = t.buddy_radius();
    let mut total = 0;
    for entry in &t.entries[..t.scans] {
        total += steps(entry.radius as u32, near, t.smooth);
    }
    total
}

// The window widened by the reach, cut at the edges of the grid.
pub fn widened(reach: usize, nx: usize, ny: usize, w: Window) -> Window
    requires { (reach ≤ most_reach) × OnGrid nx ny (window_in w) × (nx ≤ most_side) × (ny ≤ most_side) }
    ensures { window_in result ≡ record { columns = widened reach nx (window_in w).columns; rows = widened reach ny (window_in w).rows } }
{
    Window {
        left: w.left.saturating_sub(reach),
        right: (w.right + reach).min(nx - 1),
        top: w.top.saturating_sub(reach),
        bottom: (w.bottom + reach).min(ny - 1),
    }
}

// ---- a station on the cut

// Whether the place of a position on an axis of n points is on a span of the cut, its ends included.
fn on_span(n: usize, first: usize, last: usize, x: i32) -> bool
    requires { (1 ≤ n) × (n ≤ most_side) × (first ≤ most_side - 1) × (last ≤ most_side - 1) }
    ensures { result ≡ on_span n (from_to first last) x }
{
    let place = field_value::place(n, x) as usize;
    (64 * first..=64 * last).contains(&place)
}

// Whether a station is one of the cut's, on a grid of nx columns and ny rows.
pub fn is_on_cut(nx: usize, ny: usize, c: Window, station: Station) -> bool
    requires { Shaped nx ny (nx * ny) × OnGrid most_side most_side (window_in c) }
    ensures { result ≡ on_window nx ny (window_in c) (station_of station) }
{
    on_span(nx, c.left, c.right, station.x) & on_span(ny, c.top, c.bottom, station.y)
}

// A position counted from the cut's lower corner, which is at `first` along this axis.
fn from_corner(x: i32, first: usize) -> i32
    requires { (nat_abs x ≤ most_position) × (first ≤ most_side - 1) }
    ensures { result ≡ x -ℤ pos (step * first) }
{
    x - ((64 * first) as i32)
}

// The station, with both positions counted from there.
pub fn counted(station: Station, c: Window) -> Station
    requires { Placed (station_of station) × OnGrid most_side most_side (window_in c) }
    ensures { station_of result ≡ counted (window_in c) (station_of station) }
{
    Station {
        x: from_corner(station.x, c.left),
        y: from_corner(station.y, c.top),
        ..station
    }
}
