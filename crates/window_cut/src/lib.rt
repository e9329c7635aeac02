// What the cut holds: its stations, and its part of a field (document 01, "Reach of a window").
#![tactic(auto)]

ghost use Rattle.std.specs.Prelude.{◌≡◌, ◌≤◌, length, map, take};
ghost use Rattle.lists.specs.Keep.{keep};
ghost use Rattle.scheme.specs.Units.{most_side, stored};
ghost use Rattle.scheme.specs.Reach.{on_window, counted};
ghost use Rattle.scheme.specs.Accepted.{OnGrid};
ghost use Rattle.request.specs.Tables.{stations_in, window_in};
ghost use Rattle.window_cut.specs.Kept.{KeepReady};
ghost use Rattle.window_cut.specs.Part.{part_at, part_of, PartReady};

use request::{Station, Window};

// ---- the stations of the cut

// The stations of the cut, in order, with positions counted from its lower corner, at the beginning of `kept`; and their number.
pub fn keep_stations(
    kept: &mut [Station],
    nx: usize,
    ny: usize,
    c: Window,
    stations: &[Station],
) -> usize
    requires { KeepReady nx ny (window_in c) stations.now × (length stations.now ≤ length kept.old) }
    ensures few { result ≤ length stations.now }
    ensures kept { stations_in (take result kept.new) ≡ map (counted (window_in c)) (keep (on_window nx ny (window_in c)) (stations_in stations.now)) }
{
    let mut m = 0;
    for station in stations {
        if window_spans::is_on_cut(nx, ny, c, *station) {
            let moved = window_spans::counted(*station, c);
            kept[m] = moved;
            m += 1;
        }
    }
    m
}

// ---- a part of a field: the cut's of the first guess, and the window's of the cut's grid and support

// Its first column and row, and how many it has of each. Unlike a window it may be empty.
#[derive(Clone, Copy)]
pub struct Part {
    pub column: usize,
    pub row: usize,
    pub wide: usize,
    pub high: usize,
}

impl Part {
    // A window's points.
    pub fn at(w: Window) -> Part
        requires { OnGrid most_side most_side (window_in w) }
        ensures { result ≡ part_at (window_in w) }
    {
        Part {
            column: w.left,
            row: w.top,
            wide: w.width(),
            high: w.height(),
        }
    }
}

// Of a field stored in rows of `across`, a part.
pub fn part_of<T: Copy>(to: &mut [T], from: &[T], across: usize, part: Part)
    requires { PartReady (length to.old) (length from.now) across part }
    ensures { (past : T) → to.new ≡ stored part.wide part.high (part_of past across part from.now) }
{
    // By its places: tried over chunks of the two, and the proof did not close, since a loop over chunks that it writes leaves nothing known of the
    // whole.
    for j in 0..part.high {
        let at = (part.row + j) * across + part.column;
        let place = j * part.wide;
        field_value::copy(&mut to[place..place + part.wide], &from[at..at + part.wide]);
    }
}
