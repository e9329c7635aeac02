// The start of the work on an accepted request (document 01, "Verdicts before the first scan"): the first guess, no support and the first
// verdicts, in the slices that the results go to.
#![tactic(auto)]

ghost use Rattle.std.specs.Prelude.{◌≡◌, ◌*◌, ◌≤◌, length};
ghost use Rattle.lists.specs.Tab.{tab};
ghost use Rattle.scheme.specs.Units.{most_stations};
ghost use Rattle.scheme.specs.Accepted.{Shaped, Sound, Fits};
ghost use Rattle.request.specs.Tables.{request_of};
ghost use Rattle.scan_start.specs.Reached.{Reached};
ghost use Rattle.scan_start.specs.Start.{first_at};

use request::{Request, Station, Terms};

// The verdict of each station before the first scan. By the index: zipped with the stations, what is written is not among the loop's facts, and the
// proof did not close.
fn first_verdicts(verdict: &mut [u8], terms: &Terms, stations: &[Station])
    requires { Shaped terms.now.nx terms.now.ny (terms.now.nx * terms.now.ny) × (length stations.now ≤ most_stations) × (length verdict.old ≡ length stations.now) }
    ensures { verdict.new ≡ tab (length stations.now) (first_at terms.now stations.now) }
{
    for (k, v) in verdict.iter_mut().enumerate() {
        let first = scan_verdict::first_verdict(
            &stations[k],
            terms.nx,
            terms.ny,
            terms.time,
            terms.age,
        );
        *v = u8::from(first);
    }
}

// The state that the first scan finds.
pub fn begin(request: &Request, grid: &mut [i32], support: &mut [u8], verdict: &mut [u8])
    requires { Sound (request_of request.now) × Fits (request_of request.now) (length grid.old) (length support.old) (length verdict.old) }
    ensures { Reached request.now.terms request.now.guess.now request.now.stations.now 0 grid.new support.new verdict.new }
{
    field_value::copy(grid, request.guess);
    support.fill(0);
    first_verdicts(verdict, &request.terms, request.stations);
}
