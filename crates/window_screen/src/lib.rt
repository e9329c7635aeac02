// A screen of windows that is loaded (document 02, request 2): the request is tested once, and the windows are served by their cuts, or all of
// them by one whole analysis where the cuts together have more points than the grid.
#![tactic(auto)]

ghost use Rattle.std.specs.Prelude.{◌≡◌, ◌*◌, length};
ghost use Rattle.scheme.specs.Refusals.{in_order};
ghost use Rattle.scheme.specs.Reach.{reach, whole_at_each};
ghost use Rattle.scheme.specs.Promises.{tile};
ghost use Rattle.scheme.specs.Accepted.{Shaped, Planned, Sound, from_six, Formed, FitsScreen};
ghost use Rattle.request.specs.Tables.{plan_in, request_of, windows_in, OnScreen};
ghost use Rattle.refusal.specs.Row.{SettlesAs};
ghost use Rattle.window_screen.specs.Cuts.{points_of_cuts};

use refusal::Refusal;
use request::{Request, Terms, Window};

// The points of all cuts together.
fn points_of_cuts(t: &Terms, windows: &[Window]) -> usize
    requires { Shaped t.now.nx t.now.ny (t.now.nx * t.now.ny) × Planned (plan_in t.now) × OnScreen t.now.nx t.now.ny windows.now }
    ensures { result ≡ points_of_cuts (reach (plan_in t.now)) t.now.nx t.now.ny (windows_in windows.now) }
{
    let reach = window_spans::reach(t);
    let mut points = 0;
    for w in windows {
        let cut = window_spans::widened(reach, t.nx, t.ny, *w);
        points += cut.points();
    }
    points
}

// Each window by its cut, into the part of the results that is its own: a loop as that of window_tile, with other work in it and the same
// invariant. One loop for both would take the work as a closure, with a contract longer than the loop.
fn by_cuts(request: &Request, windows: &[Window], grid: &mut [i32], support: &mut [u8])
    requires { Sound (request_of request.now) × OnScreen request.now.terms.nx request.now.terms.ny windows.now × FitsScreen (windows_in windows.now) (length grid.old) (length support.old) }
    ensures { tile grid.new support.new ≡ whole_at_each (request_of request.now) (windows_in windows.now) }
{
    let mut part = [0i32; 4096];
    let mut at = 0;
    for w in windows {
        let end = at + w.points();
        window::work(
            request,
            *w,
            &mut part,
            &mut grid[at..end],
            &mut support[at..end],
        );
        at = end;
    }
}

// Rows 6 to 8 of the refusal table, which are all that is left to test; then the work.
pub fn settled(
    request: &Request,
    windows: &[Window],
    grid: &mut [i32],
    support: &mut [u8],
) -> Result<(), Refusal>
    requires { Formed (request_of request.now) × OnScreen request.now.terms.nx request.now.terms.ny windows.now × FitsScreen (windows_in windows.now) (length grid.old) (length support.old) }
    ensures { SettlesAs (in_order (from_six (request_of request.now)))
        (whole_at_each (request_of request.now) (windows_in windows.now))
        (tile grid.old support.old) result (tile grid.new support.new) }
{
    refusal::of_request(request)?;
    let t = request.terms;
    if t.nx * t.ny < points_of_cuts(&t, windows) {
        window_tile::whole_at_each(request, windows, grid, support);
    } else {
        by_cuts(request, windows, grid, support);
    }
    Ok(())
}
