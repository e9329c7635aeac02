// Sums and corrections at the points of a grid (document 01, "One scan", Correction; document 02, 5 and 6). The mode, and in a row the rule, is a const
// parameter: the loops over points and stations are the hottest of all, and each mode and rule has its own, without a test of either inside.
#![tactic(auto)]

ghost use Rattle.std.specs.Prelude.{◌≡◌, ℕ, ◌+◌, ◌*◌, ◌≤◌, ◌<◌, length, All, false, cond, ltb, get_or, set, pos, nat_abs, ◌-ℤ◌, ◌+ℤ◌, ◌*ℤ◌};
ghost use Rattle.lists.specs.Sums.{up_to};
ghost use Rattle.lists.specs.Filled.{Filled};
ghost use Rattle.scheme.specs.Units.{step, most_side, stored, most_stations, most_limit, wind_mode, is_no_wind};
ghost use Rattle.scheme.specs.Weight.{scale};
ghost use Rattle.scheme.specs.Correction.{nothing, plus};
ghost use Rattle.scheme.specs.Most.{most_along, most_square, most_weights, most_pulls, most_field};
ghost use Rattle.scheme.specs.Streaks.{Fair};
ghost use Rattle.scan_weight.specs.Along.{weight_by};
ghost use Rattle.scan_along.specs.Streak.{wind_in, q_at};
ghost use Rattle.scan_lone.specs.Inside.{nobody, distance, inside_in, Placed};
ghost use Rattle.scan_lone.specs.Divides.{Divides};
ghost use Rattle.scan_point.specs.Near.{row_gap, stations_with, Ready, Gathered};
ghost use Rattle.scan_point.specs.Entries.{near_share, share_of, Sized, entry_at};
ghost use Rattle.scan_point.specs.Pass.{row_z, row_s, moved_by, PointReady, RowReady, corrected, backed, PassReady};

use request::{Station, Terms};
use scan_along::Streak;
use scan_lone::Near;

// The sum of weights, and the sum of weight·D.
#[derive(Clone, Copy)]
pub struct Sums {
    pub w: u64,
    pub wd: i64,
}

// The sums with one more station, of that weight and difference d.
pub fn added(s: Sums, weight: u32, d: i64) -> Sums
    requires { (s.w ≤ most_weights) × (nat_abs s.wd ≤ most_pulls) × (weight ≤ scale) × (nat_abs d ≤ most_limit) }
    ensures { (result.w ≡ s.w + weight) × (result.wd ≡ s.wd +ℤ pos weight *ℤ d) }
{
    let w = s.w + (weight as u64);
    let wd = s.wd + (weight as i64) * d;
    Sums { w, wd }
}

// The weight of a station at column i of its row, at squared distance d2 inside the radius.
fn weight<const MODE: u32>(near: &Near, d2: u32, i: usize, r2: u32) -> u32
    requires { (d2 ≡ distance near.now i) × (d2 < r2) × (r2 ≤ most_square) × (i < most_side) × Sized MODE near.now }
    ensures { result ≡ weight_by r2 d2 near.now.streak.strength (q_at near.now.streak (near.now.x -ℤ pos (step * i))) }
{
    if MODE == request::ALONG_WIND {
        return near.streak.weight(r2, d2, near.x - (64 * i) as i32);
    }
    scan_weight::weight(r2, d2)
}

// The sums at column i of a grid row with one more of the stations near that row. One beyond the radius adds nothing.
fn with_near<const MODE: u32>(s: Sums, near: &Near, i: usize, r2: u32) -> Sums
    requires { (s.w ≤ most_weights) × (nat_abs s.wd ≤ most_pulls) × (i < most_side) × (r2 ≤ most_square) × Sized MODE near.now }
    ensures { (result.w ≡ s.w + (share_of near.now r2 i).weights) × (result.wd ≡ s.wd +ℤ (share_of near.now r2 i).pulls) }
{
    let d2 = near.squared_distance(i);
    if r2 <= d2 {
        return s;
    }
    added(s, weight::<MODE>(near, d2, i, r2), near.d)
}

// The sums at column i of a grid row, over the stations near that row. In mode 0 four in a turn, the hottest loop of all: one in a turn takes up to a
// seventh more instructions there, and misses the bar of `make bench` (case a). Along the wind four take more, where few stations are near.
fn point_sums<const MODE: u32>(near: &[Near], i: usize, r2: u32) -> Sums
    requires { (length near.now ≤ most_stations) × (i < most_side) × (r2 ≤ most_square) × ((t : ℕ) → t < length near.now → Sized MODE (get_or near.now t nobody)) }
    ensures { (result.w ≡ (up_to nothing plus (length near.now) (near_share near.now r2 i)).weights)
        × (result.wd ≡ (up_to nothing plus (length near.now) (near_share near.now r2 i)).pulls) }
{
    let mut s = Sums { w: 0, wd: 0 };
    let mut rest = near;
    if MODE == request::ROUND {
        while let [a, b, c, d, more @ ..] = rest {
            s = with_near::<MODE>(s, a, i, r2);
            s = with_near::<MODE>(s, b, i, r2);
            s = with_near::<MODE>(s, c, i, r2);
            s = with_near::<MODE>(s, d, i, r2);
            rest = more;
        }
    }
    for station in rest {
        s = with_near::<MODE>(s, station, i, r2);
    }
    s
}

// A point's value after its correction, the sum of weight·D divided by w; 0 if that is 0.
fn moved(z: i32, w: u64, wd: i64) -> i32
    requires { (nat_abs z ≤ most_field) × (w ≤ most_weights) × (nat_abs wd ≤ most_limit * w) }
    ensures { result ≡ z +ℤ moved_by w wd }
{
    if w == 0 {
        return z;
    }
    ((z as i64) + rounding::rounded(wd, w as u32)) as i32
}

// A point's support byte after its correction.
fn with_bit(b: u8, w: u64, bit: u8) -> u8
    requires { b + bit < 256 }
    ensures { result ≡ b + cond (ltb 0 w) bit 0 }
{
    if 0 < w { b + bit } else { b }
}

// The squared distance of a station to grid row j; the squared radius for one that is not accepted. The verdicts are the caller's bytes.
pub fn row_gap(verdict: u8, station: &Station, j: usize, r2: u32) -> u32
    requires { (j < most_side) × (verdict ≡ 0 → nat_abs station.now.y ≤ most_along) }
    ensures { result ≡ row_gap verdict station.now.y j r2 }
{
    if verdict == 0 {
        scan_weight::square_apart(station.y, (64 * j) as i32)
    } else {
        r2
    }
}

// What grid row j goes by of a station that is near it. In mode 0 no wind blows, and any station may be asked of.
fn gathered<const MODE: u32>(station: &Station, gap: u32, d: i64, j: usize) -> Near
    requires { (j < most_side) × (MODE ≡ wind_mode → (nat_abs station.now.y ≤ most_along) × (is_no_wind (wind_in station.now) ≡ false → Fair (wind_in station.now))) }
    ensures { result ≡ entry_at MODE station.now gap d j }
{
    let streak = if MODE == request::ALONG_WIND {
        Streak::at_row(station, j)
    } else {
        scan_along::CALM
    };
    Near {
        x: station.x,
        gap,
        d,
        streak,
    }
}

// Gathers the stations near grid row j, once for all its points, and says how many they are. In mode 0 each is stored at the next free place, which only
// a near one takes: a branch on each is often foretold wrongly where they stand in no order. Along the wind a far one is passed, since its wind would have
// to be worked out.
fn near_row<const MODE: u32>(
    room: &mut [Near; 512],
    stations: &[Station],
    verdict: &[u8],
    d: &[i64; 512],
    r2: u32,
    j: usize,
) -> usize
    requires { (MODE ≤ wind_mode) × (r2 ≤ most_square) × (j < most_side) × Ready (stations_with MODE stations.now verdict.now d.now) }
    ensures { Gathered (near_share room.new r2) (λ t. Sized MODE (get_or room.new t nobody)) result (stations_with MODE stations.now verdict.now d.now) r2 j (length stations.now) }
{
    let mut n: usize = 0;
    for (k, station) in stations.iter().enumerate() {
        let gap = row_gap(verdict[k], station, j, r2);
        let near = gap < r2;
        if (MODE == request::ROUND) | near {
            room[n] = gathered::<MODE>(station, gap, d[k], j);
        }
        n += near as usize;
    }
    n
}

// What the sum of weight·D is divided by, w the sum of weights; by rule 1 that, and nothing is counted.
fn divisor<const RULE: u32>(w: u64, near: &[Near], i: usize, r2: u32) -> u64
    requires { (w ≤ most_weights) × (length near.now ≤ most_stations) × (i < most_side) × All Placed near.now
        × (w ≤ scale * up_to 0 ◌+◌ (length near.now) (inside_in near.now r2 i)) }
    ensures { Divides RULE w (up_to 0 ◌+◌ (length near.now) (inside_in near.now r2 i)) result }
{
    if RULE == request::LISTINGS {
        return scan_lone::divisor(w, near, i, r2);
    }
    w
}

// A point's new value and support, at its place in the grid, the sum of weight·D divided by w.
pub fn set_point(z: &mut [i32], support: &mut [u8], p: usize, w: u64, wd: i64, bit: u8)
    requires { PointReady z.old support.old p bit × (w ≤ most_weights) × (nat_abs wd ≤ most_limit * w) }
    ensures { (z.new ≡ set z.old p (get_or z.old p (pos 0) +ℤ moved_by w wd))
        × (support.new ≡ set support.old p (get_or support.old p 0 + cond (ltb 0 w) bit 0)) }
{
    z[p] = moved(z[p], w, wd);
    support[p] = with_bit(support[p], w, bit);
}

// One grid row, whose points stand at base, base + 1, ..: each is corrected by the stations near the row.
fn correct_row<const MODE: u32, const RULE: u32>(
    z: &mut [i32],
    support: &mut [u8],
    base: usize,
    nx: usize,
    near: &[Near],
    r2: u32,
    bit: u8,
)
    requires { RowReady z.old support.old base nx (near_share near.now r2) (length near.now) bit × (r2 ≤ most_square) × ((t : ℕ) → t < length near.now → Sized MODE (get_or near.now t nobody)) }
    ensures { Filled (pos 0) (row_z RULE z.old (near_share near.now r2) (length near.now) base) base (base + nx) z.old z.new
        × Filled 0 (row_s support.old (near_share near.now r2) (length near.now) bit base) base (base + nx) support.old support.new }
{
    for i in 0..nx {
        let s = point_sums::<MODE>(near, i, r2);
        let w = divisor::<RULE>(s.w, near, i, r2);
        set_point(z, support, base + i, w, s.wd, bit);
    }
}

// The same by a rule, which is a number of the call's: one that is not 2 is 1. A row that no station is near stays as it is, and its points are not gone over.
fn correct_row_by<const MODE: u32>(
    z: &mut [i32],
    support: &mut [u8],
    base: usize,
    nx: usize,
    near: &[Near],
    r2: u32,
    rule: u32,
    bit: u8,
)
    requires { RowReady z.old support.old base nx (near_share near.now r2) (length near.now) bit × (r2 ≤ most_square) × ((t : ℕ) → t < length near.now → Sized MODE (get_or near.now t nobody)) }
    ensures { Filled (pos 0) (row_z rule z.old (near_share near.now r2) (length near.now) base) base (base + nx) z.old z.new
        × Filled 0 (row_s support.old (near_share near.now r2) (length near.now) bit base) base (base + nx) support.old support.new }
{
    if near.is_empty() {
        return;
    }
    if rule != request::LISTINGS {
        correct_row::<MODE, { request::EQUATIONS }>(z, support, base, nx, near, r2, bit);
        return;
    }
    correct_row::<MODE, { request::LISTINGS }>(z, support, base, nx, near, r2, bit);
}

// One correction of the whole grid, in place: the differences d were all taken before, so that no point sees another's correction. The room
// is for the stations near a row, lent so that it is cleared once for all scans.
pub fn correct<const MODE: u32>(
    z: &mut [i32],
    support: &mut [u8],
    verdict: &[u8],
    d: &[i64; 512],
    t: Terms,
    stations: &[Station],
    room: &mut [Near; 512],
    radius: u32,
    bit: u8,
)
    requires { PassReady z.old support.old t.nx t.ny (stations_with MODE stations.now verdict.now d.now) radius bit }
    ensures { (z.new ≡ stored t.nx t.ny (corrected t.rule z.old t.nx (stations_with MODE stations.now verdict.now d.now) (radius * radius)))
        × (support.new ≡ stored t.nx t.ny (backed support.old t.nx (stations_with MODE stations.now verdict.now d.now) (radius * radius) bit)) }
{
    let r2 = radius * radius;
    for j in 0..t.ny {
        let n = near_row::<MODE>(room, stations, verdict, d, r2, j);
        correct_row_by::<MODE>(z, support, j * t.nx, t.nx, &room[..n], r2, t.rule, bit);
    }
}
