// The request text (document 01): its lines in their order, read into terms and what the caller lends, or the first line not in form.
#![tactic(auto)]

ghost use Rattle.std.specs.Prelude.{◌≡◌, ◌+◌, ◌*◌, ◌<◌, ◌^◌, length, map, IfOk};
ghost use Rattle.scheme.specs.Units.{most_stations};
ghost use Rattle.scheme.specs.Most.{most_points};
ghost use Rattle.scheme.specs.Text.Lines.{scan_line, row_line, station_line};
ghost use Rattle.scheme.specs.Text.Order.{lines, rows};
ghost use Rattle.request.specs.Tables.{station_of};
ghost use Rattle.text_lines.specs.Told.{entry_of};
ghost use Rattle.text_head.specs.Left.{left_of};
ghost use Rattle.text_request.specs.Told.{all_told, RequestIs};

use request::{Entry, Station, Terms};
use text_head::{Left, NotInForm};

// ---- lines of a kind, into what is lent: as many as it is long. Each kind has its loop: one for all would take the reader as a closure and the
// definition that it meets as a ghost argument, and its contract alone would be longer than a loop.

fn scan_lines<'a>(left: Left<'a>, entries: &mut [Entry]) -> Result<Left<'a>, NotInForm>
    requires { left.line + length entries.old < 2 ^ 32 }
    ensures said { lines (length entries.old) scan_line (left_of left.entry) ≡ all_told (map entry_of entries.new) result }
    ensures next { IfOk result (λ after. after.line ≡ left.entry.line + length entries.old) }
{
    let mut left = left;
    for entry in entries.iter_mut() {
        let (scan, after) = left.line(text_lines::entry_line(left.text, b"scan="))?;
        *entry = scan;
        left = after;
    }
    Ok(left)
}

fn station_lines<'a>(left: Left<'a>, stations: &mut [Station]) -> Result<Left<'a>, NotInForm>
    requires { left.line + length stations.old < 2 ^ 32 }
    ensures { lines (length stations.old) station_line (left_of left.entry) ≡ all_told (map station_of stations.new) result }
{
    let mut left = left;
    for station in stations.iter_mut() {
        let (read, after) = left.line(text_lines::station_line(left.text))?;
        *station = read;
        left = after;
    }
    Ok(left)
}

fn row_lines<'a>(left: Left<'a>, nx: usize, ny: usize, z: &mut [i32]) -> Result<Left<'a>, NotInForm>
    requires { (left.line + ny < 2 ^ 32) × (ny * nx ≡ length z.old) }
    ensures said { rows ny (row_line nx) (left_of left.entry) ≡ all_told z.new result }
    ensures next { IfOk result (λ after. after.line ≡ left.entry.line + ny) }
{
    let mut left = left;
    // By its index: of what a loop over chunks_exact_mut leaves in z, a proof would know no more than the length.
    for j in 0..ny {
        let at = j * nx;
        let end = at + nx;
        let Some(text) = text_lines::row_line(left.text, &mut z[at..end]) else {
            return Err(NotInForm { line: left.line });
        };
        left = Left {
            line: left.line + 1,
            text,
        };
    }
    Ok(left)
}

// ---- the whole request: each part where the one before ended

// Its terms, how many stations it has, and the number of the line after the last. Its first guess goes into the front of guess, and its stations into the front of stations.
pub fn read_request(
    text: &[u8],
    guess: &mut [i32],
    stations: &mut [Station],
) -> Result<(Terms, usize, u32), NotInForm>
    requires { (length guess.old ≡ most_points) × (length stations.old ≡ most_stations) }
    ensures { RequestIs text.now guess.new stations.new result }
{
    let (head, left) = text_head::head_lines(text)?;
    let mut entries = [request::NO_ENTRY; 6];
    let left = scan_lines(left, &mut entries[..head.scans as usize])?;
    let (buddies, left) = text_head::buddy_line(left);
    let (nx, ny) = (head.nx as usize, head.ny as usize);
    let left = row_lines(left, nx, ny, &mut guess[..ny * nx])?;
    let (count, left) = left.line(text_lines::number_line(left.text, b"stations=", 0, 512))?;
    let count = count as usize;
    let left = station_lines(left, &mut stations[..count])?;
    if !left.text.is_empty() {
        return Err(NotInForm { line: left.line });
    }
    let terms = text_head::terms_read(head, entries, buddies);
    Ok((terms, count, left.line))
}
