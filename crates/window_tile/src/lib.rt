// Windows out of a whole analysis (document 01, "Reach of a window"; document 02, request 2).
#![tactic(auto)]

ghost use Rattle.std.specs.Prelude.{◌≡◌, length};
ghost use Rattle.scheme.specs.Reach.{in_turn, whole_at_each};
ghost use Rattle.scheme.specs.Promises.{tile};
ghost use Rattle.scheme.specs.Accepted.{Shaped, Sound, OnGrid, FitsWindow, FitsScreen};
ghost use Rattle.request.specs.Tables.{request_of, window_in, windows_in, OnScreen};
ghost use Rattle.window_tile.specs.Query.{tile_from};

use request::{Request, Terms, Window};
use window_cut::Part;

// Of an analysed grid and its support the window's points.
fn tile_of(t: &Terms, w: Window, values: &[i32], bits: &[u8], grid: &mut [i32], support: &mut [u8])
    requires { Shaped t.now.nx t.now.ny (length values.now) × (length bits.now ≡ length values.now) × OnGrid t.now.nx t.now.ny (window_in w) × FitsWindow (window_in w) (length grid.old) (length support.old) }
    ensures { tile grid.new support.new ≡ tile_from t.now.nx values.now bits.now (window_in w) }
{
    let part = Part::at(w);
    window_cut::part_of(grid, values, t.nx, part);
    window_cut::part_of(support, bits, t.nx, part);
}

// The same of each window of a screen, one after the other: each into the part of the results that is its own.
fn tiles_of(
    t: &Terms,
    windows: &[Window],
    values: &[i32],
    bits: &[u8],
    grid: &mut [i32],
    support: &mut [u8],
)
    requires { Shaped t.now.nx t.now.ny (length values.now) × (length bits.now ≡ length values.now) × OnScreen t.now.nx t.now.ny windows.now × FitsScreen (windows_in windows.now) (length grid.old) (length support.old) }
    ensures { tile grid.new support.new ≡ in_turn (tile_from t.now.nx values.now bits.now) (windows_in windows.now) }
{
    let mut at = 0;
    for w in windows {
        let end = at + w.points();
        tile_of(
            t,
            *w,
            values,
            bits,
            &mut grid[at..end],
            &mut support[at..end],
        );
        at = end;
    }
}

// The whole analysis in memory of its own, as large as the largest grid, since there is no heap; and of its grid and support the points of each window.
pub fn whole_at_each(request: &Request, windows: &[Window], grid: &mut [i32], support: &mut [u8])
    requires { Sound (request_of request.now) × OnScreen request.now.terms.nx request.now.terms.ny windows.now × FitsScreen (windows_in windows.now) (length grid.old) (length support.old) }
    ensures { tile grid.new support.new ≡ whole_at_each (request_of request.now) (windows_in windows.now) }
{
    let mut values = [0i32; 4096];
    let mut bits = [0u8; 4096];
    let mut verdict = [0u8; 512];
    let points = request.terms.nx * request.terms.ny;
    scans::run(
        request,
        &mut values[..points],
        &mut bits[..points],
        &mut verdict[..request.stations.len()],
    );
    tiles_of(
        &request.terms,
        windows,
        &values[..points],
        &bits[..points],
        grid,
        support,
    );
}
