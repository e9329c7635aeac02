// How a scan judges the stations (document 01, "One scan", Difference; document 02, request 1).
#![tactic(auto)]

ghost use Rattle.std.specs.Prelude.{◌≡◌, ◌≤◌, length, pos, nat_abs};
ghost use Rattle.lists.specs.Filled.{Filled};
ghost use Rattle.scheme.specs.Units.{most_scans};
ghost use Rattle.scheme.specs.Difference.{after_test};
ghost use Rattle.scheme.specs.Most.{most_field, most_difference};
ghost use Rattle.scheme.specs.Accepted.{Shaped};
ghost use Rattle.scheme.specs.Bounds.{Small};
ghost use Rattle.request.specs.Tables.{station_of};
ghost use Rattle.scan_station.specs.Judge.{Heard, JudgeReady, value_for, diff_of, diff_at, verdict_at};

use request::Station;

// The value that a station's observation is held to: on the grid the field's as the scan finds it, and a post's the first guess's at the
// nearest place.
#[tactic(auto, using(scheme::proofs::Axes::place_most))]
fn value_for(station: Station, guess: &[i32], z: &[i32], nx: usize, ny: usize) -> i64
    requires { Shaped nx ny (length guess.now) × Shaped nx ny (length z.now) × Small guess.now × Small z.now }
    ensures { (result ≡ value_for guess.now z.now nx ny (station_of station)) × (nat_abs result ≤ most_field) }
{
    let px = field_value::place(nx, station.x);
    let py = field_value::place(ny, station.y);
    if field_value::near_grid(0, nx, ny, station.x, station.y) {
        field_value::value_at(z, nx, ny, px, py)
    } else {
        field_value::value_at(guess, nx, ny, px, py)
    }
}

// The observation less that value; 0 for a station that is not accepted, whose observation may be missing.
#[tactic(auto, unfolding(crate::specs::Judge::diff_of))]
fn difference(verdict: u8, station: Station, guess: &[i32], z: &[i32], nx: usize, ny: usize) -> i64
    requires { Shaped nx ny (length guess.now) × Shaped nx ny (length z.now) × Small guess.now × Small z.now × (verdict ≡ 0 → Heard (station_of station)) }
    ensures { (result ≡ diff_of guess.now z.now nx ny verdict (station_of station)) × (nat_abs result ≤ most_difference) }
{
    if verdict != 0 {
        return 0;
    }
    station.value as i64 - value_for(station, guess, z, nx, ny)
}

// The verdict after the E test of a scan. A station that is no longer accepted keeps the verdict of its first refusal.
// The verdicts are the caller's bytes, which are read here as well as written, so a code and no enum.
#[tactic(auto, unfolding(scheme::specs::Difference::after_test))]
fn verdict_after(verdict: u8, d: i64, limit: u32, scan: u8) -> u8
    requires { (nat_abs d ≤ most_difference) × (scan ≤ most_scans) }
    ensures { result ≡ after_test scan limit d verdict }
{
    if verdict != 0 {
        return verdict;
    }
    if (limit as u64) < d.unsigned_abs() {
        10 + scan
    } else {
        0
    }
}

// All stations are judged, from the field as the scan finds it and the first guess: the difference of each accepted one, and its verdict
// after the E test. Differences stand beside the stations, which are lent to be read alone, and verdicts in the caller's slice.
pub fn judge(
    guess: &[i32],
    z: &[i32],
    verdict: &mut [u8],
    d: &mut [i64; 512],
    nx: usize,
    ny: usize,
    stations: &[Station],
    limit: u32,
    scan: u8,
)
    requires { JudgeReady guess.now z.now verdict.old nx ny stations.now scan }
    ensures { Filled (pos 0) (diff_at guess.now z.now nx ny stations.now verdict.old) 0 (length stations.now) d.old d.new
        × Filled 0 (verdict_at guess.now z.now nx ny stations.now verdict.old scan limit) 0 (length stations.now) verdict.old verdict.new }
{
    for (k, station) in stations.iter().enumerate() {
        let dk = difference(verdict[k], *station, guess, z, nx, ny);
        d[k] = dk;
        verdict[k] = verdict_after(verdict[k], dk, limit, scan);
    }
}
