// A request that is loaded, from a call or from a text (document 01): refused before anything is written, or analysed in the caller's own slices.
#![tactic(auto)]

ghost use Rattle.std.specs.Prelude.{length};
ghost use Rattle.scheme.specs.Refusals.{in_order};
ghost use Rattle.scheme.specs.Scan.{analysis};
ghost use Rattle.scheme.specs.Promises.{slices};
ghost use Rattle.scheme.specs.Accepted.{from_six, Formed, Fits};
ghost use Rattle.request.specs.Tables.{request_of};
ghost use Rattle.refusal.specs.Row.{SettlesAs};

use refusal::Refusal;
use request::Request;

// Rows 6 to 8 of the refusal table, which are all that is left to test; then the scans.
pub fn settled(
    request: &Request,
    grid: &mut [i32],
    support: &mut [u8],
    verdict: &mut [u8],
) -> Result<(), Refusal>
    requires { Formed (request_of request.now) × Fits (request_of request.now) (length grid.old) (length support.old) (length verdict.old) }
    ensures { SettlesAs (in_order (from_six (request_of request.now))) (analysis (request_of request.now)) (slices grid.old support.old verdict.old) result (slices grid.new support.new verdict.new) }
{
    refusal::of_request(request)?;
    scans::run(request, grid, support, verdict);
    Ok(())
}
