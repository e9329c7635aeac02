// The answer to a request (document 01): its refusal, or its analysis, as text.
#![tactic(auto)]

ghost use Rattle.std.specs.Prelude.{◌≡◌, length};
ghost use Rattle.scheme.specs.Promises.{Stands};
ghost use Rattle.scheme.specs.Text.{most_bytes, reply_text};
ghost use Rattle.scheme.specs.Accepted.{Formed, Fits};
ghost use Rattle.request.specs.Tables.{request_of};

use request::Request;

// The answer to a request. The analysis goes into grid, support and verdict.
fn answered(
    request: &Request,
    grid: &mut [i32],
    support: &mut [u8],
    verdict: &mut [u8],
    out: &mut [u8],
) -> usize
    requires { Formed (request_of request.now) × Fits (request_of request.now) (length grid.old) (length support.old) (length verdict.old) × (length out.old ≡ most_bytes) }
    ensures { Stands (reply_text (request_of request.now)) out.old result out.new }
{
    match analysis::settled(request, grid, support, verdict) {
        Ok(()) => {
            let (nx, ny) = (request.terms.nx, request.terms.ny);
            text_print::analysis_text(out, 0, nx, ny, grid, support, verdict)
        }
        Err(refused) => { text_print::first_two(out, 0, refused.number(), refused.place() as u32) }
    }
}

// The answer to a request, at the start of out; how many bytes it has. Here is room for the result.
pub fn reply_to(request: &Request, out: &mut [u8]) -> usize
    requires { Formed (request_of request.now) × (length out.old ≡ most_bytes) }
    ensures { Stands (reply_text (request_of request.now)) out.old result out.new }
{
    let points = request.terms.nx * request.terms.ny;
    let stations = request.stations.len();
    let mut grid = [0i32; 4096];
    let mut support = [0u8; 4096];
    let mut verdict = [0u8; 512];
    answered(
        request,
        &mut grid[..points],
        &mut support[..points],
        &mut verdict[..stations],
        out,
    )
}
