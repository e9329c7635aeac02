// Lines of the request text (document 01), one at a time: each is read at the front of a text, and comes with the bytes left after it.
#![tactic(auto)]

ghost use Rattle.std.specs.Prelude.{◌≡◌, ◌≤◌, length, [], ◌∷◌, IfSome};
ghost use Rattle.scheme.specs.Units.{least_side, most_side};
ghost use Rattle.scheme.specs.Text.Reader.{◌before◌};
ghost use Rattle.scheme.specs.Text.Pieces.{word, count, signed, mark, values};
ghost use Rattle.scheme.specs.Text.Lines.{number, grid_line, entry_line, row_line, observation, end, station_line};
ghost use Rattle.request.specs.Tables.{station_of};
ghost use Rattle.text_pieces.specs.Told.{told};
ghost use Rattle.text_lines.specs.Told.{told_as, size_of, entry_of, values_told};

use request::{Entry, Station, Wind};

// The sides of a grid.
#[derive(Clone, Copy)]
pub struct Size {
    pub nx: u32,
    pub ny: u32,
}

// ---- a number, and the byte that must follow it

fn count_before(text: &[u8], low: u32, high: u32, mark: u8) -> Option<(u32, &[u8])>
    ensures said { (count low high before word (mark ∷ [])) text.now ≡ told result }
    ensures in_range { IfSome result (λ number. (low ≤ number.0) × (number.0 ≤ high)) }
{
    text_pieces::before(text_pieces::count(text, low, high), mark)
}

fn signed_before(text: &[u8], mark: u8) -> Option<(i32, &[u8])>
    ensures { (signed before word (mark ∷ [])) text.now ≡ told result }
{
    text_pieces::before(text_pieces::signed(text), mark)
}

// ---- lines

// A line that says one number, in low..high.
pub fn number_line<'a>(text: &'a [u8], key: &[u8], low: u32, high: u32) -> Option<(u32, &'a [u8])>
    ensures said { number key.now (count low high) text.now ≡ told result }
    ensures in_range { IfSome result (λ number. (low ≤ number.0) × (number.0 ≤ high)) }
{
    let rest = text_pieces::word(text, key)?;
    count_before(rest, low, high, b'\n')
}

pub fn grid_line(text: &[u8]) -> Option<(Size, &[u8])>
    ensures said { grid_line text.now ≡ told_as size_of result }
    ensures columns { IfSome result (λ size. (least_side ≤ size.0.nx) × (size.0.nx ≤ most_side)) }
    ensures rows { IfSome result (λ size. (least_side ≤ size.0.ny) × (size.0.ny ≤ most_side)) }
{
    let rest = text_pieces::word(text, b"grid=")?;
    let (nx, rest) = count_before(rest, 2, 64, b',')?;
    let (ny, rest) = count_before(rest, 2, 64, b'\n')?;
    Some((Size { nx, ny }, rest))
}

// A line that says a radius and a limit: that of a scan, and that of the buddy check.
pub fn entry_line<'a>(text: &'a [u8], key: &[u8]) -> Option<(Entry, &'a [u8])>
    ensures { entry_line key.now text.now ≡ told_as entry_of result }
{
    let rest = text_pieces::word(text, key)?;
    let (radius, rest) = signed_before(rest, b',')?;
    let (limit, rest) = signed_before(rest, b'\n')?;
    Some((Entry { radius, limit }, rest))
}

// A station's value may be `M`.
fn observation(text: &[u8]) -> Option<(i32, &[u8])>
    ensures { observation text.now ≡ told result }
{
    match text_pieces::word(text, b"M") {
        Some(rest) => Some((request::MISSING, rest)),
        None => text_pieces::signed(text),
    }
}

// A station's until may be `open`.
fn end(text: &[u8]) -> Option<(u32, &[u8])>
    ensures { end text.now ≡ told result }
{
    match text_pieces::word(text, b"open") {
        Some(rest) => Some((request::NO_END, rest)),
        None => text_pieces::count(text, 0, u32::MAX),
    }
}

// One station. A text has no winds.
pub fn station_line(text: &[u8]) -> Option<(Station, &[u8])>
    ensures { station_line text.now ≡ told_as station_of result }
{
    let rest = text_pieces::word(text, b"st=")?;
    let (x, rest) = signed_before(rest, b',')?;
    let (y, rest) = signed_before(rest, b',')?;
    let (value, rest) = text_pieces::before(observation(rest), b',')?;
    let (observed, rest) = count_before(rest, 0, u32::MAX, b',')?;
    let (from, rest) = count_before(rest, 0, u32::MAX, b',')?;
    let (until, rest) = text_pieces::before(end(rest), b'\n')?;
    let wind = Wind {
        u: request::MISSING,
        v: request::MISSING,
    };
    let station = Station {
        x,
        y,
        value,
        observed,
        from,
        until,
        wind,
    };
    Some((station, rest))
}

// What follows a value that has so many after it. The printing of answers has the same line: what they share is the definition, and no crate.
fn mark_of(more: usize) -> u8
    ensures { result ≡ mark more }
{
    if more == 0 { b'\n' } else { b',' }
}

// As many values as z is long, into z.
fn values<'a>(text: &'a [u8], z: &mut [i32]) -> Option<&'a [u8]>
    ensures { values (length z.old) text.now ≡ values_told z.new result }
{
    let mut left = text;
    let mut more = z.len();
    for value in z.iter_mut() {
        more -= 1;
        let (number, rest) = text_pieces::before(text_pieces::signed(left), mark_of(more))?;
        *value = number;
        left = rest;
    }
    Some(left)
}

// One grid row, into z.
pub fn row_line<'a>(text: &'a [u8], z: &mut [i32]) -> Option<&'a [u8]>
    ensures { row_line (length z.old) text.now ≡ values_told z.new result }
{
    let rest = text_pieces::word(text, b"row=")?;
    values(rest, z)
}
