// The work on an accepted request (document 01, "One scan"): the start, then the scans of the plan, in the slices that the results go to.
#![tactic(auto)]

ghost use Rattle.std.specs.Prelude.{◌≡◌, length};
ghost use Rattle.lists.specs.Filled.{Filled};
ghost use Rattle.scheme.specs.Units.{R, E};
ghost use Rattle.scheme.specs.Scan.{analysis};
ghost use Rattle.scheme.specs.Promises.{slices};
ghost use Rattle.scheme.specs.Accepted.{Shaped, Sound, Fits};
ghost use Rattle.request.specs.Tables.{plan_in, request_of};
ghost use Rattle.scheme.specs.Bounds.{Small};
ghost use Rattle.scans.specs.Scanned.{Scanned};
ghost use Rattle.scans.specs.Ready.{EntryIn, ScanReady, BuddiesReady, aside_in, smoothed_if};

use request::{Request, Station, Terms};
use scan_lone::Near;

// The radius and the limit of scan number m + 1.
fn radius_of(t: &Terms, m: usize) -> u32
    requires { EntryIn t.now m }
    ensures { result ≡ R (plan_in t.now) m }
{
    t.entries[m].radius as u32
}

fn limit_of(t: &Terms, m: usize) -> u32
    requires { EntryIn t.now m }
    ensures { result ≡ E (plan_in t.now) m }
{
    t.entries[m].limit as u32
}

// The buddy check, if it is on: a switch of the plan, asked once in a scan.
fn buddies_if(verdict: &mut [u8], d: &[i64; 512], t: &Terms, stations: &[Station], scan: u8)
    requires { BuddiesReady t.now stations.now scan verdict.old d.now }
    ensures { Filled 0 (aside_in t.now stations.now scan verdict.old d.now) 0 (length stations.now) verdict.old verdict.new }
{
    if t.buddies.on {
        scan_buddies::set_aside(
            verdict,
            d,
            stations,
            t.buddy_radius(),
            t.buddy_limit(),
            scan,
        );
    }
}

// Smoothing, if it is on.
#[tactic(auto, unfolding(crate::specs::Ready::smoothed_if))]
fn smooth_if(z: &mut [i32], t: &Terms)
    requires { Shaped t.now.nx t.now.ny (length z.old) × Small z.old }
    ensures { z.new ≡ smoothed_if t.now z.old }
{
    if t.smooth {
        scan_smoothing::smooth(z, t.nx, t.ny);
    }
}

// Scan number m + 1, whose bit is 2^m: all stations are judged before any point changes, by the E test and by their buddies, then all points are
// corrected, then smoothed.
fn scan(
    request: &Request,
    m: usize,
    z: &mut [i32],
    support: &mut [u8],
    verdict: &mut [u8],
    d: &mut [i64; 512],
    room: &mut [Near; 512],
)
    requires { ScanReady request.now.terms request.now.guess.now request.now.stations.now m z.old support.old verdict.old }
    ensures { Scanned request.now.terms request.now.guess.now request.now.stations.now m z.old support.old verdict.old z.new support.new verdict.new d.new }
{
    let Request {
        terms: t,
        guess,
        stations,
    } = *request;
    let limit = limit_of(&t, m);
    let scan = (m as u8) + 1;
    scan_station::judge(guess, z, verdict, d, t.nx, t.ny, stations, limit, scan);
    buddies_if(verdict, d, &t, stations, scan);
    let radius = radius_of(&t, m);
    scan_correct::correct(z, support, verdict, d, t, stations, room, radius, 1 << m);
    smooth_if(z, &t);
}

// The whole work, in slices of the right length.
pub fn run(request: &Request, grid: &mut [i32], support: &mut [u8], verdict: &mut [u8])
    requires { Sound (request_of request.now) × Fits (request_of request.now) (length grid.old) (length support.old) (length verdict.old) }
    ensures { slices grid.new support.new verdict.new ≡ analysis (request_of request.now) }
{
    scan_start::begin(request, grid, support, verdict);
    let mut d = [0i64; 512];
    let mut room = [scan_lone::NOBODY; 512];
    for m in 0..request.terms.scans {
        scan(request, m, grid, support, verdict, &mut d, &mut room);
    }
}
