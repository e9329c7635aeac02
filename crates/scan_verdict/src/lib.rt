// The verdict of a station before the first scan (document 01, "Verdicts before the first scan"; document 02, request 1).
#![tactic(auto)]

ghost use Rattle.std.specs.Prelude.{◌≡◌, ◌≤◌};
ghost use Rattle.scheme.specs.Units.{most_side, most_beyond};
ghost use Rattle.scheme.specs.Verdicts.{serves, out_of_service, before_scans};
ghost use Rattle.request.specs.Tables.{station_of};
ghost use Rattle.scan_verdict.specs.Numbers.{number_of};

use request::Station;

// A station off the grid by at most so many units on each axis takes part, a post.
const MOST_BEYOND: u32 = 256;

// The verdicts before the first scan. Each becomes its number where it is written into the caller's bytes.
#[derive(Clone, Copy)]
pub enum Verdict {
    Accepted = 0,
    Missing = 1,
    OutOfService = 2,
    FromTheFuture = 3,
    TooOld = 4,
    OffTheGrid = 5,
}

impl From<Verdict> for u8 {
    ghost from_gives = { λ verdict number. number ≡ number_of verdict };

    fn from(verdict: Verdict) -> u8
        ensures { result ≡ number_of verdict }
    {
        verdict as u8
    }
}

// In service at a minute: from ≤ minute < until, and with no end the upper test holds.
#[tactic(auto, unfolding(scheme::specs::Verdicts::serves))]
fn serves(station: &Station, minute: u32) -> bool
    ensures { result ≡ serves (station_of station.now) minute }
{
    station.from <= minute && (station.until == request::NO_END || minute < station.until)
}

// Out of service when it was observed, or at the time of the analysis.
#[tactic(auto, unfolding(scheme::specs::Verdicts::out_of_service))]
fn out_of_service(station: &Station, time: u32) -> bool
    ensures { result ≡ out_of_service time (station_of station.now) }
{
    !(serves(station, station.observed) && serves(station, time))
}

// The verdict before the first scan: the first that fits.
#[tactic(auto, unfolding(scheme::specs::Verdicts::before_scans, scheme::specs::Verdicts::first_that_fits, scheme::specs::Verdicts::off_grid))]
pub fn first_verdict(station: &Station, nx: usize, ny: usize, time: u32, age: u32) -> Verdict
    requires { (1 ≤ nx) × (nx ≤ most_side) × (1 ≤ ny) × (ny ≤ most_side) }
    ensures { number_of result ≡ before_scans most_beyond nx ny time age (station_of station.now) }
{
    if refusal_checks::is_missing(station.value) {
        return Verdict::Missing;
    }
    if out_of_service(station, time) {
        return Verdict::OutOfService;
    }
    if time < station.observed {
        return Verdict::FromTheFuture;
    }
    if age < time - station.observed {
        return Verdict::TooOld;
    }
    if !field_value::near_grid(MOST_BEYOND, nx, ny, station.x, station.y) {
        return Verdict::OffTheGrid;
    }
    Verdict::Accepted
}
