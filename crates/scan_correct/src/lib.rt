// One correction of a whole grid (document 01, "One scan", Correction), in the plan's mode (document 02, 5) and under its rule (document 02, 6).
#![tactic(auto)]

ghost use Rattle.std.specs.Prelude.{◌≡◌, ◌*◌};
ghost use Rattle.scheme.specs.Units.{stored};
ghost use Rattle.scan_point.specs.Near.{stations_with};
ghost use Rattle.scan_point.specs.Pass.{corrected, backed, PassReady};

use request::{Station, Terms};
use scan_lone::Near;

// The mode is a number of the call's, and here becomes the one that a correction is made for.
pub fn correct(
    z: &mut [i32],
    support: &mut [u8],
    verdict: &[u8],
    d: &[i64; 512],
    t: Terms,
    stations: &[Station],
    room: &mut [Near; 512],
    radius: u32,
    bit: u8,
)
    requires { PassReady z.old support.old t.nx t.ny (stations_with t.mode stations.now verdict.now d.now) radius bit }
    ensures { (z.new ≡ stored t.nx t.ny (corrected t.rule z.old t.nx (stations_with t.mode stations.now verdict.now d.now) (radius * radius)))
        × (support.new ≡ stored t.nx t.ny (backed support.old t.nx (stations_with t.mode stations.now verdict.now d.now) (radius * radius) bit)) }
{
    if t.mode == request::ROUND {
        scan_point::correct::<{ request::ROUND }>(
            z, support, verdict, d, t, stations, room, radius, bit,
        );
        return;
    }
    scan_point::correct::<{ request::ALONG_WIND }>(
        z, support, verdict, d, t, stations, room, radius, bit,
    );
}
