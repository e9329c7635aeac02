// Rows 6 to 8 of the refusal table (documents 01 and 02): the first bad entry of a plan, its buddy check, the first bad value of a first guess, the first bad row of the station list.
#![tactic(auto)]

ghost use Rattle.std.specs.Prelude.{◌≡◌, ◌≤◌, ◌<◌, length};
ghost use Rattle.lists.specs.First.{first, first_in};
ghost use Rattle.scheme.specs.Units.{within, most_value, is_missing, most_wind, is_no_wind, most_scans};
ghost use Rattle.scheme.specs.Refusals.{rising, bad_scan, bad_buddies, bad_guess, bad_wind, bad_station};
ghost use Rattle.scheme.specs.Accepted.{Shaped};
ghost use Rattle.request.specs.Tables.{station_of, stations_in, plan_in};
ghost use Rattle.refusal_checks.specs.Found.{found_of};

use request::{Station, Terms, Wind};

// A missing observation.
#[tactic(auto, using(crate::specs::Tested::mark_bits))]
pub fn is_missing(v: i32) -> bool
    ensures { result ≡ is_missing v }
{
    v == request::MISSING
}

// A missing wind: both of its parts are.
#[tactic(auto, unfolding(scheme::specs::Units::is_no_wind))]
pub fn is_no_wind(w: Wind) -> bool
    ensures { result ≡ is_no_wind (record { u = w.u; v = w.v }) }
{
    is_missing(w.u) & is_missing(w.v)
}

// A value, or a position, in range.
fn is_value(v: i32) -> bool
    ensures { result ≡ within most_value v }
{
    (-1000000..=1000000).contains(&v)
}

// A part of a wind in range.
fn is_part(v: i32) -> bool
    ensures { result ≡ within most_wind v }
{
    (-100..=100).contains(&v)
}

// A radius above the one before it.
#[tactic(auto, using(crate::specs::Tested::rising_after), unfolding(scheme::specs::Refusals::rising))]
fn rises(t: &Terms, m: usize) -> bool
    requires { m < most_scans }
    ensures { result ≡ rising (plan_in t.now) m }
{
    if m == 0 {
        return false;
    }
    let before = t.entries[m - 1];
    let here = t.entries[m];
    before.radius < here.radius
}

// An entry of a plan: R out of range or rising, or E out of range.
#[tactic(auto, unfolding(scheme::specs::Refusals::bad_scan))]
fn scan_bad(t: &Terms, m: usize) -> bool
    requires { m < most_scans }
    ensures { result ≡ bad_scan (plan_in t.now) m }
{
    let entry = t.entries[m];
    !(1..=1024).contains(&entry.radius) | rises(t, m) | !(0..=2000000).contains(&entry.limit)
}

// The buddy check, if it is on: B or L out of range.
#[tactic(auto, unfolding(scheme::specs::Refusals::bad_buddies))]
pub fn buddies_bad(t: &Terms) -> bool
    ensures { result ≡ bad_buddies (plan_in t.now) }
{
    let check = t.buddies;
    check.on & (!(1..=512).contains(&check.radius) | !(0..=2000000).contains(&check.limit))
}

// A wind out of range, or half missing.
#[tactic(auto, unfolding(scheme::specs::Refusals::bad_wind))]
fn wind_bad(w: Wind) -> bool
    ensures { result ≡ bad_wind (record { u = w.u; v = w.v }) }
{
    !is_no_wind(w) & (!is_part(w.u) | !is_part(w.v))
}

// A row of the station list: its value, which may be the mark, or its position out of range, from not below until, or its wind.
#[tactic(auto, unfolding(scheme::specs::Refusals::bad_station))]
fn station_bad(s: &Station) -> bool
    ensures { result ≡ bad_station (station_of s.now) }
{
    (!is_missing(s.value) & !is_value(s.value))
        | !is_value(s.x)
        | !is_value(s.y)
        | (s.until <= s.from)
        | wind_bad(s.wind)
}

// The first bad entry of a plan.
pub fn first_bad_scan(t: &Terms) -> Option<usize>
    requires { t.now.scans ≤ most_scans }
    ensures { found_of result ≡ first t.now.scans (bad_scan (plan_in t.now)) }
{
    (0..t.scans).find(|m| scan_bad(t, *m))
}

// The first value of a first guess out of range. The search for it stops there, from inside the rows and columns:
// document 01 names this form, nested loops left by a labelled break that yields the place.
pub fn first_bad_guess(first_guess: &[i32], nx: usize, ny: usize) -> Option<usize>
    requires { Shaped nx ny (length first_guess.now) }
    ensures { found_of result ≡ first_in bad_guess first_guess.now }
{
    'search: {
        for j in 0..ny {
            for i in 0..nx {
                let value = first_guess[j * nx + i];
                if !is_value(value) {
                    break 'search Some(j * nx + i);
                }
            }
        }
        None
    }
}

// The first bad row of the station list.
pub fn first_bad_station(stations: &[Station]) -> Option<usize>
    ensures { found_of result ≡ first_in bad_station (stations_in stations.now) }
{
    stations.iter().position(station_bad)
}
