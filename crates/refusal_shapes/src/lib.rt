// Rows 1 to 5 of the refusal table (documents 01 and 02): a test for each, on lengths, counts and the ends of windows. No column of stations is read.
// Comparisons are mostly joined by |, which makes them all: there is no branch to prove, and each is the definition's.
#![tactic(auto)]

ghost use Rattle.std.specs.Prelude.{◌≡◌, not, ◌||◌, eqb};
ghost use Rattle.lists.specs.First.{first_in};
ghost use Rattle.scheme.specs.Units.{most_side};
ghost use Rattle.scheme.specs.Refusals.{bad_shape, bad_window, points_of_all, bad_lengths};
ghost use Rattle.request.specs.Tables.{window_in, windows_in, OnScreen};
ghost use Rattle.request.specs.Lent.{call_of};
ghost use Rattle.refusal_checks.specs.Found.{found_of};
ghost use Rattle.refusal_shapes.specs.Tested.{lengths_of, unequal_screen, unequal_columns, bad_scan_count};

use request::{Call, Window};

// What a call is handed, by lengths and counts; its mode and rule as C has them, in numbers that row 5 has still to test.
#[derive(Clone, Copy)]
pub struct Lengths {
    pub nx: usize,
    pub ny: usize,
    pub guess: usize,
    pub x: usize,
    pub y: usize,
    pub value: usize,
    pub observed: usize,
    pub from: usize,
    pub until: usize,
    pub wind_u: usize,
    pub wind_v: usize,
    pub scans: usize,
    pub radius: usize,
    pub limit: usize,
    pub mode: u32,
    pub rule: u32,
}

// The lengths of a call, its counts, mode and rule; what else it asks is not measured.
pub fn lengths_of(call: &Call) -> Lengths
    ensures { result ≡ lengths_of (call_of call.now) }
{
    let stations = call.stations;
    let plan = call.plan;
    Lengths {
        nx: call.nx as usize,
        ny: call.ny as usize,
        guess: call.guess.len(),
        x: stations.x.len(),
        y: stations.y.len(),
        value: stations.value.len(),
        observed: stations.observed.len(),
        from: stations.from.len(),
        until: stations.until.len(),
        wind_u: stations.wind_u.len(),
        wind_v: stations.wind_v.len(),
        scans: plan.scans as usize,
        radius: plan.radius.len(),
        limit: plan.limit.len(),
        mode: plan.mode,
        rule: plan.rule,
    }
}

// 1: nx or ny out of 2..64, or the field is not nx·ny long
#[tactic(auto, unfolding(scheme::specs::Refusals::bad_shape))]
pub fn shape_bad(nx: usize, ny: usize, len: usize) -> bool
    ensures { result ≡ bad_shape nx ny len }
{
    !(2..=64).contains(&nx) | !(2..=64).contains(&ny) || len != nx * ny
}

// 2: a window with left > right, top > bottom, or past the grid. Its ends are any numbers, so none is moved before it is compared.
#[tactic(auto, unfolding(scheme::specs::Refusals::bad_window))]
pub fn window_bad(nx: usize, ny: usize, w: Window) -> bool
    ensures { result ≡ bad_window nx ny (window_in w) }
{
    ((w.right < w.left) | (nx <= w.right)) | ((w.bottom < w.top) | (ny <= w.bottom))
}

// 2 of a screen, first: its four columns unequal, or more than sixteen windows
pub fn screen_bad(left: usize, right: usize, top: usize, bottom: usize) -> bool
    ensures { result ≡ unequal_screen left right top bottom }
{
    (right != left) | (top != left) | (bottom != left) | (request::MOST_WINDOWS < left)
}

// then its first bad window
pub fn first_bad_window(nx: usize, ny: usize, windows: &[Window]) -> Option<usize>
    ensures { found_of result ≡ first_in (bad_window nx ny) (windows_in windows.now) }
{
    windows.iter().position(|w| window_bad(nx, ny, *w))
}

// The points of all windows of a screen together.
pub fn points_of_all(windows: &[Window]) -> usize
    requires { OnScreen most_side most_side windows.now }
    ensures { result ≡ points_of_all (windows_in windows.now) }
{
    let mut points = 0;
    for w in windows {
        points += w.points();
    }
    points
}

// 3: a result slice of the wrong length. A window query has two results, as long as the window, or all windows together.
#[tactic(auto, unfolding(scheme::specs::Refusals::bad_lengths))]
pub fn window_lengths_bad(points: usize, grid: usize, support: usize) -> bool
    ensures { result ≡ bad_lengths points grid support }
{
    (grid != points) | (support != points)
}

// The whole analysis has a verdict for each row beside them.
pub fn lengths_bad(points: usize, rows: usize, grid: usize, support: usize, verdict: usize) -> bool
    ensures { result ≡ bad_lengths points grid support || not (eqb verdict rows) }
{
    window_lengths_bad(points, grid, support) | (verdict != rows)
}

// 4: station columns unequal, or more than 512
pub fn columns_bad(l: Lengths) -> bool
    ensures { result ≡ unequal_columns l }
{
    (l.y != l.x)
        | (l.value != l.x)
        | (l.observed != l.x)
        | (l.from != l.x)
        | (l.until != l.x)
        | (l.wind_u != l.x)
        | (l.wind_v != l.x)
        | (512 < l.x)
}

// 5: scan count out of 1..6, or a plan column shorter than it, or another mode or rule
pub fn scans_bad(l: Lengths) -> bool
    ensures { result ≡ bad_scan_count l }
{
    !(1..=6).contains(&l.scans)
        | (l.radius < l.scans)
        | (l.limit < l.scans)
        | (request::ALONG_WIND < l.mode)
        | !(request::EQUATIONS..=request::LISTINGS).contains(&l.rule)
}
