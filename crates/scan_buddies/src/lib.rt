// The buddy check (document 02, 7): after a scan's E test each survivor is held to the others within B of it. The survivors are put into chains by
// cells of the plane, so that a station asks those of its own cell and of the eight around it, and no others.
#![tactic(auto)]

ghost use Rattle.std.specs.Prelude.{◌≡◌, List, ℕ, ◌+◌, ◌*◌, ◌≤◌, ◌<◌, length, get_or, pos, nat_abs, ◌-ℤ◌};
ghost use Rattle.lists.specs.Filled.{Filled};
ghost use Rattle.lists.specs.Chains.{Chained};
ghost use Rattle.scheme.specs.Units.{most_stations, most_scans, most_limit};
ghost use Rattle.scheme.specs.Weight.{squares};
ghost use Rattle.scheme.specs.Buddies.{both, is_odd, after_buddies};
ghost use Rattle.request.specs.Tables.{station_of, station_in};
ghost use Rattle.scan_buddies.specs.Aside.{aside_at, OnAxis, AsideReady};
ghost use Rattle.scan_buddies.specs.Voices.{OfAtMost, from_cells};
ghost use Rattle.scan_buddies.specs.Cells.{least_side, cells, kinds, side_of, cell_along, cell_of, cell_for, cell_at};
ghost use Rattle.scan_buddies.specs.Nine.{three, Framed};
ghost use Rattle.scan_buddies.specs.Asked.{heard_of, StandingIn, SurvivorsIn, Asks, cell_in, voice_in, heard_in};

use request::Station;

// Cells of a row of cells, with a free one at each end, so that every survivor's cell has eight around it.
const ACROSS: usize = 38;

// The chain of the stations that are no survivors, which nobody walks. They have one since `Chained` gives each station a chain.
const NO_CELL: usize = 1444;

// The least side of a cell, so that the cells are few.
const LEAST_SIDE: u32 = 128;

// A station is judged by so many neighbours or more.
const FEWEST: u32 = 2;

// How many neighbours a station hears, and the sum of their D.
#[derive(Clone, Copy)]
struct Told {
    count: u32,
    sum: i64,
}

// The side of a cell: B, so that what is nearer is in the same cell or in the next, or the least.
#[tactic(auto, unfolding(crate::specs::Cells::side_of))]
fn side_of(radius: u32) -> u32
    ensures { result ≡ side_of radius }
{
    radius.max(LEAST_SIDE)
}

// A cell's place along one axis, from the free one at 0.
fn cell_along(side: u32, x: i32) -> usize
    requires { (least_side ≤ side) × OnAxis x }
    ensures { result ≡ cell_along side x }
{
    ((x + 256) as u32 / side) as usize + 1
}

// The cell of a survivor.
fn cell_of(radius: u32, station: Station) -> usize
    requires { OnAxis station.x × OnAxis station.y }
    ensures is { result ≡ cell_of radius (station_of station) }
    ensures framed { Framed result }
{
    let side = side_of(radius);
    cell_along(side, station.y) * ACROSS + cell_along(side, station.x)
}

// Which chain a station is in.
#[tactic(auto, using(crate::specs::Nine::cell_of_kinds), unfolding(crate::specs::Cells::cell_for))]
fn cell_for(radius: u32, verdict: u8, station: Station) -> usize
    requires { verdict ≡ 0 → OnAxis station.x × OnAxis station.y }
    ensures is { result ≡ cell_for radius verdict (station_of station) }
    ensures one { result < kinds }
{
    if verdict != 0 {
        return NO_CELL;
    }
    cell_of(radius, station)
}

// The chains, each from its last station to its first: heads has the last of each cell, and next the one before each station. A station stands there
// as one more than its number, so that 0 ends a chain, as `Chained` has it. They are numbers in room of a fixed size, since there is no heap.
fn chain(
    heads: &mut [u16; 1445],
    next: &mut [u16; 512],
    verdict: &[u8],
    radius: u32,
    stations: &[Station],
)
    requires { (length stations.now ≤ most_stations) × (length verdict.now ≡ length stations.now) × (length heads.old ≡ kinds) × (length next.old ≡ most_stations)
        × ((c : ℕ) → c < kinds → get_or heads.old c 0 ≡ 0)
        × ((k : ℕ) → k < length stations.now → get_or verdict.now k 0 ≡ 0 → OnAxis (station_in stations.now k).x × OnAxis (station_in stations.now k).y) }
    ensures { Chained (cell_at radius stations.now verdict.now) kinds (length stations.now) heads.new next.new }
{
    for (k, station) in stations.iter().enumerate() {
        let cell = cell_for(radius, verdict[k], *station);
        next[k] = heads[cell];
        heads[cell] = (k + 1) as u16;
    }
}

// The squared distance of two survivors.
fn squared_distance(a: Station, b: Station) -> u32
    requires { OnAxis a.x × OnAxis a.y × OnAxis b.x × OnAxis b.y }
    ensures { result ≡ squares (a.x -ℤ b.x) (a.y -ℤ b.y) }
{
    scan_weight::squared_distance(a.x, b.x, scan_weight::square_apart(a.y, b.y))
}

// Where a station looks for its neighbours: all stations with their differences, and the chains of the survivors.
#[derive(Drop)]
struct Around<'a> {
    radius: u32,
    stations: &'a [Station],
    d: &'a [i64; 512],
    heads: &'a [u16; 1445],
    next: &'a [u16; 512],
}

impl<'a> Around<'a> {
    // What station k has heard before, with what station j says to it.
    #[tactic(auto, using(crate::specs::Nine::unheard, crate::specs::Nine::voice_itself, crate::specs::Nine::voice_far))]
    fn with_voice(&self, before: Told, j: usize, k: usize) -> Told
        requires { OfAtMost (5 * most_stations) (heard_of before) × (j < length self.now.stations.now) × StandingIn self.now j × Asks self.now k }
        ensures { heard_of result ≡ both (heard_of before) (voice_in self.now k j) }
    {
        if j == k {
            return before;
        }
        let apart = squared_distance(self.stations[j], self.stations[k]);
        if self.radius * self.radius <= apart {
            return before;
        }
        let count = before.count + 1;
        let sum = before.sum + self.d[j];
        Told { count, sum }
    }

    // The same of those in a cell. Its chain is followed from station to station, so that no `for` goes over it.
    fn with_cell(&self, before: Told, cell: usize, k: usize) -> Told
        requires { OfAtMost (3 * most_stations) (heard_of before) × (cell < cells) × Asks self.now k }
        ensures { (st : List ℕ) → SurvivorsIn self.now st → heard_of result ≡ both (heard_of before) (from_cells (cell_in self.now st) (length self.now.stations.now) cell (cell + 1) (voice_in self.now k)) }
    {
        let mut s = before;
        let mut t = self.heads[cell] as usize;
        while 0 < t {
            s = self.with_voice(s, t - 1, k);
            t = self.next[t - 1] as usize;
        }
        s
    }

    // And of those in three cells of a row of cells.
    fn with_three(&self, before: Told, first: usize, k: usize) -> Told
        requires { OfAtMost (2 * most_stations) (heard_of before) × (first + 3 ≤ cells) × Asks self.now k }
        ensures { (st : List ℕ) → SurvivorsIn self.now st → heard_of result ≡ both (heard_of before) (three (cell_in self.now st) (length self.now.stations.now) first (voice_in self.now k)) }
    {
        let mut s = before;
        for i in 0..3usize {
            s = self.with_cell(s, first + i, k);
        }
        s
    }

    // What station k hears of all: of those in its own cell and the eight around it, since the others are no nearer than B.
    fn hears(&self, k: usize) -> Told
        requires { Asks self.now k }
        ensures { (st : List ℕ) → SurvivorsIn self.now st → heard_of result ≡ heard_in self.now st k }
    {
        let first = cell_of(self.radius, self.stations[k]) - ACROSS - 1;
        let mut s = Told { count: 0, sum: 0 };
        for i in 0..3usize {
            s = self.with_three(s, first + i * ACROSS, k);
        }
        s
    }

    // The verdict of station k after the buddy check of a scan.
    #[tactic(auto, unfolding(scheme::specs::Buddies::after_buddies))]
    fn verdict_beside(&self, verdict: u8, k: usize, limit: u32, scan: u8) -> u8
        requires { (scan ≤ most_scans) × (verdict ≡ 0 → Asks self.now k) }
        ensures { (st : List ℕ) → SurvivorsIn self.now st → result ≡ after_buddies scan limit (get_or self.now.d.now k (pos 0)) (heard_in self.now st k) verdict }
    {
        if verdict != 0 {
            return verdict;
        }
        let s = self.hears(k);
        if is_odd(limit, self.d[k], s) {
            20 + scan
        } else {
            0
        }
    }
}

// Whether a station of difference d is odd beside the neighbours that it hears.
#[tactic(auto, unfolding(scheme::specs::Buddies::is_odd))]
fn is_odd(limit: u32, d: i64, heard: Told) -> bool
    requires { (nat_abs d ≤ most_limit) × OfAtMost most_stations (heard_of heard) }
    ensures { result ≡ is_odd limit d (heard_of heard) }
{
    if heard.count < FEWEST {
        return false;
    }
    let gap = (heard.count as i64) * d - heard.sum;
    (heard.count as u64) * (limit as u64) < gap.unsigned_abs()
}

// Each survivor that is odd beside its neighbours is set aside. A verdict may change at once, since all hear those that the chains held before any
// did. The verdicts are the caller's bytes, which are read here as well as written, so a code and no enum.
pub fn set_aside(
    verdict: &mut [u8],
    d: &[i64; 512],
    stations: &[Station],
    radius: u32,
    limit: u32,
    scan: u8,
)
    requires { AsideReady verdict.old d.now stations.now radius scan }
    ensures { Filled 0 (aside_at scan radius limit stations.now verdict.old d.now) 0 (length stations.now) verdict.old verdict.new }
{
    let mut heads = [0u16; 1445];
    let mut next = [0u16; 512];
    chain(&mut heads, &mut next, verdict, radius, stations);
    let around = Around {
        radius,
        stations,
        d,
        heads: &heads,
        next: &next,
    };
    for (k, v) in verdict.iter_mut().enumerate() {
        *v = around.verdict_beside(*v, k, limit, scan);
    }
}
