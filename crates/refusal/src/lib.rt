// The refusal table (documents 01 and 02): its rows in their order, and the first that refuses, with its place. Rows 1 to 5 are tested on what
// a call is handed, before its station columns are loaded; rows 6 to 8 search the request that was loaded.
#![tactic(auto)]

ghost use Rattle.std.specs.Prelude.{◌≡◌, ◌+◌, ◌*◌, ◌≤◌, ◌<◌, length};
ghost use Rattle.scheme.specs.Refusals.{number_of, place_of, in_order, most_windows};
ghost use Rattle.scheme.specs.Accepted.{Shaped, from_six, Formed};
ghost use Rattle.request.specs.Tables.{request_of, window_in, windows_in};
ghost use Rattle.refusal.specs.Row.{row_of, refusal_of};
ghost use Rattle.refusal.specs.Lengths.{four_and_five, analysis_lengths, window_lengths, screen_columns, screen_lengths};

use refusal_shapes::Lengths;
use request::{Request, Window};

// A row that refuses, and of those that search the place that they name: it has sixteen bits, as in the one number of C.
#[derive(Clone, Copy)]
pub enum Refusal {
    // 1: the grid's sides, or the length of the first guess
    Shape,
    // 2: the columns of a screen, with place 16
    Screen,
    // 2: a window
    Window(u16),
    // 3: a result slice of the wrong length
    Lengths,
    // 4: the station columns
    Columns,
    // 5: the count of scans, the mode, the rule
    Scans,
    // 6: an entry of the plan
    Plan(u16),
    // 6: the plan's buddy check, with place 6
    BuddyCheck,
    // 7: a value of the first guess
    FirstGuess(u16),
    // 8: a row of the station list
    Station(u16),
}

impl Refusal {
    // The row's number.
    pub fn number(self) -> u32
        ensures row { result ≡ number_of (row_of self) }
        ensures small { result ≤ 8 }
    {
        match self {
            Refusal::Shape => 1,
            Refusal::Screen | Refusal::Window(_) => 2,
            Refusal::Lengths => 3,
            Refusal::Columns => 4,
            Refusal::Scans => 5,
            Refusal::Plan(_) | Refusal::BuddyCheck => 6,
            Refusal::FirstGuess(_) => 7,
            Refusal::Station(_) => 8,
        }
    }

    // Its place, which is 0 where it names none.
    pub fn place(self) -> usize
        ensures row { result ≡ place_of (row_of self) }
        ensures small { result < 65536 }
    {
        match self {
            Refusal::Window(place)
            | Refusal::Plan(place)
            | Refusal::FirstGuess(place)
            | Refusal::Station(place) => usize::from(place),
            Refusal::Screen => request::MOST_WINDOWS,
            Refusal::BuddyCheck => request::MOST_SCANS,
            Refusal::Shape | Refusal::Lengths | Refusal::Columns | Refusal::Scans => 0,
        }
    }
}

// The one number of C: refusal·65,536 + place.
impl From<Refusal> for u32 {
    ghost use Rattle.std.specs.Prelude.{◌≡◌};
    ghost use Rattle.scheme.specs.Refusals.{as_one};
    ghost use Rattle.refusal.specs.Row.{row_of};

    ghost from_gives = { λ refused one. one ≡ as_one (row_of refused) };

    fn from(refused: Refusal) -> u32 {
        refused.number() * 65536 + refused.place() as u32
    }
}

// Rows 4 and 5, which the whole analysis and the window query share: the station columns, the count of scans.
#[tactic(auto, unfolding(scheme::specs::Refusals::in_order, scheme::specs::Refusals::refused_with, scheme::specs::Refusals::refused_at))]
fn four_and_five(l: Lengths) -> Result<(), Refusal>
    ensures { refusal_of result ≡ in_order (four_and_five l) }
{
    if refusal_shapes::columns_bad(l) {
        return Err(Refusal::Columns);
    }
    if refusal_shapes::scans_bad(l) {
        return Err(Refusal::Scans);
    }
    Ok(())
}

// The rows before 6 of the whole analysis: 1 and 3, then 4 and 5.
#[tactic(auto, unfolding(scheme::specs::Refusals::in_order, scheme::specs::Refusals::refused_with, scheme::specs::Refusals::refused_at))]
pub fn of_lengths(l: Lengths, grid: usize, support: usize, verdict: usize) -> Result<(), Refusal>
    ensures { refusal_of result ≡ in_order (analysis_lengths l grid support verdict) }
{
    if refusal_shapes::shape_bad(l.nx, l.ny, l.guess) {
        return Err(Refusal::Shape);
    }
    if refusal_shapes::lengths_bad(l.nx * l.ny, l.x, grid, support, verdict) {
        return Err(Refusal::Lengths);
    }
    four_and_five(l)
}

// The rows before 6 of the window query: 1 to 3, then 4 and 5.
#[tactic(auto, unfolding(scheme::specs::Refusals::in_order, scheme::specs::Refusals::refused_with, scheme::specs::Refusals::refused_at))]
pub fn of_window_lengths(l: Lengths, w: Window, grid: usize, support: usize) -> Result<(), Refusal>
    ensures { refusal_of result ≡ in_order (window_lengths l (window_in w) grid support) }
{
    if refusal_shapes::shape_bad(l.nx, l.ny, l.guess) {
        return Err(Refusal::Shape);
    }
    if refusal_shapes::window_bad(l.nx, l.ny, w) {
        return Err(Refusal::Window(0));
    }
    if refusal_shapes::window_lengths_bad(w.points(), grid, support) {
        return Err(Refusal::Lengths);
    }
    four_and_five(l)
}

// The first rows of a screen's query: 1, and the first of 2, by which its columns are equal.
#[tactic(auto, unfolding(scheme::specs::Refusals::in_order, scheme::specs::Refusals::refused_with, scheme::specs::Refusals::refused_at))]
pub fn of_screen_columns(
    l: Lengths,
    left: usize,
    right: usize,
    top: usize,
    bottom: usize,
) -> Result<(), Refusal>
    ensures { refusal_of result ≡ in_order (screen_columns l left right top bottom) }
{
    if refusal_shapes::shape_bad(l.nx, l.ny, l.guess) {
        return Err(Refusal::Shape);
    }
    if refusal_shapes::screen_bad(left, right, top, bottom) {
        return Err(Refusal::Screen);
    }
    Ok(())
}

// The rest of its rows before 6, on its windows: 2 and 3, then 4 and 5.
#[tactic(auto, unfolding(scheme::specs::Refusals::in_order, scheme::specs::Refusals::refused_with, scheme::specs::Refusals::refused_at))]
pub fn of_screen_lengths(
    l: Lengths,
    windows: &[Window],
    grid: usize,
    support: usize,
) -> Result<(), Refusal>
    requires { Shaped l.nx l.ny l.guess × (length windows.now ≤ most_windows) }
    ensures { refusal_of result ≡ in_order (screen_lengths l (windows_in windows.now) grid support) }
{
    if let Some(k) = refusal_shapes::first_bad_window(l.nx, l.ny, windows) {
        return Err(Refusal::Window(k as u16));
    }
    if refusal_shapes::window_lengths_bad(refusal_shapes::points_of_all(windows), grid, support) {
        return Err(Refusal::Lengths);
    }
    four_and_five(l)
}

// Rows 6 to 8: the plan's entries and its buddy check, the first guess, the stations.
#[tactic(auto, unfolding(scheme::specs::Refusals::in_order, scheme::specs::Refusals::refused_with, scheme::specs::Refusals::refused_at))]
pub fn of_request(request: &Request) -> Result<(), Refusal>
    requires { Formed (request_of request.now) }
    ensures { refusal_of result ≡ in_order (from_six (request_of request.now)) }
{
    let t = &request.terms;
    if let Some(m) = refusal_checks::first_bad_scan(t) {
        return Err(Refusal::Plan(m as u16));
    }
    if refusal_checks::buddies_bad(t) {
        return Err(Refusal::BuddyCheck);
    }
    if let Some(k) = refusal_checks::first_bad_guess(request.guess, t.nx, t.ny) {
        return Err(Refusal::FirstGuess(k as u16));
    }
    if let Some(k) = refusal_checks::first_bad_station(request.stations) {
        return Err(Refusal::Station(k as u16));
    }
    Ok(())
}
