// A window query that is loaded (document 01, "Reach of a window"): the analysis of the cut alone, and of it the window's points.
#![tactic(auto)]

ghost use Rattle.std.specs.Prelude.{◌≡◌, ◌≤◌, length};
ghost use Rattle.scheme.specs.Units.{most_side};
ghost use Rattle.scheme.specs.Refusals.{in_order};
ghost use Rattle.scheme.specs.Reach.{whole_at};
ghost use Rattle.scheme.specs.Promises.{tile};
ghost use Rattle.scheme.specs.Most.{most_points};
ghost use Rattle.scheme.specs.Accepted.{Sound, from_six, Formed, FitsWindow, OnGrid};
ghost use Rattle.request.specs.Tables.{request_of, window_in};
ghost use Rattle.refusal.specs.Row.{SettlesAs};
ghost use Rattle.window.specs.Cut.{cut_terms, moved_on};

use refusal::Refusal;
use request::{Request, Terms, Window};
use window_cut::Part;

// The terms of the cut, as a request of its own: its sides, and else those of the whole.
fn cut_terms(t: Terms, c: Window) -> Terms
    requires { OnGrid most_side most_side (window_in c) }
    ensures { result ≡ cut_terms t (window_in c) }
{
    Terms {
        nx: c.width(),
        ny: c.height(),
        ..t
    }
}

// The window on the cut, where it stands as it stands on the grid.
fn moved(w: Window, c: Window) -> Window
    requires { (c.left ≤ w.left) × (w.left ≤ w.right) × (c.top ≤ w.top) × (w.top ≤ w.bottom) }
    ensures { window_in result ≡ moved_on (window_in c) (window_in w) }
{
    Window {
        left: w.left - c.left,
        right: w.right - c.left,
        top: w.top - c.top,
        bottom: w.bottom - c.top,
    }
}

// The whole grid's numbers at the window's points, from the analysis of the cut. The cut's first guess is put into `part`, which is lent so that
// one who asks many windows clears it once; its stations into room for the most, since there is no heap.
pub fn work(request: &Request, w: Window, part: &mut [i32], grid: &mut [i32], support: &mut [u8])
    requires { Sound (request_of request.now) × OnGrid request.now.terms.nx request.now.terms.ny (window_in w) × (length part.old ≡ most_points) × FitsWindow (window_in w) (length grid.old) (length support.old) }
    ensures { tile grid.new support.new ≡ whole_at (request_of request.now) (window_in w) }
{
    let t = request.terms;
    let reach = window_spans::reach(&t);
    let c = window_spans::widened(reach, t.nx, t.ny, w);
    let points = c.points();
    window_cut::part_of(&mut part[..points], request.guess, t.nx, Part::at(c));
    let mut kept = [request::NO_STATION; 512];
    let stations = window_cut::keep_stations(&mut kept, t.nx, t.ny, c, request.stations);
    let cut = Request {
        terms: cut_terms(t, c),
        guess: &part[..points],
        stations: &kept[..stations],
    };
    window_tile::whole_at_each(&cut, &[moved(w, c)], grid, support);
}

// Rows 6 to 8 of the refusal table, which are all that is left to test; then the work.
pub fn settled(
    request: &Request,
    w: Window,
    grid: &mut [i32],
    support: &mut [u8],
) -> Result<(), Refusal>
    requires { Formed (request_of request.now) × OnGrid request.now.terms.nx request.now.terms.ny (window_in w) × FitsWindow (window_in w) (length grid.old) (length support.old) }
    ensures { SettlesAs (in_order (from_six (request_of request.now)))
        (whole_at (request_of request.now) (window_in w))
        (tile grid.old support.old) result (tile grid.new support.new) }
{
    refusal::of_request(request)?;
    let mut part = [0i32; 4096];
    work(request, w, &mut part, grid, support);
    Ok(())
}
