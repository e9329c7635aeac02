// The exports of the archive (include/sosnyavik.h). The three calls on station columns group what they are handed, test what goes by lengths
// and counts, load the columns once, and hand the request on; nothing is written before it is accepted. They answer refusal·65,536 + place.
#![tactic(auto)]

ghost use Rattle.std.specs.Prelude.{◌≡◌, length};
ghost use Rattle.scheme.specs.Units.{asking};
ghost use Rattle.scheme.specs.Refusals.{accepted, in_order, as_one, window_at, windows_of};
ghost use Rattle.scheme.specs.Promises.{eight_columns, slices, Analyses, tile, Queries, four_columns, QueriesEach, ReadsKind, ReadsValue, Summarises};
ghost use Rattle.scheme.specs.Accepted.{Shaped, EqualScreen};
ghost use Rattle.request.specs.Tables.{window_in, windows_in};
ghost use Rattle.request.specs.Lent.{call_of, screen_of};
ghost use Rattle.refusal_shapes.specs.Tested.{lengths_of};
ghost use Rattle.refusal.specs.Lengths.{Passed, WindowPassed, screen_columns, ScreenPassed};
ghost use Rattle.refusal.specs.Row.{refusal_of};
ghost use Rattle.clause.specs.Settled.{AnalysesAs, QueriesAs, QueriesEachAs};

use refusal::Refusal;
use request::{Buddies, Call, Columns, Plan, Request, Screen, Window};
use scheme::Summary;

// ---- the calls on station columns
// Each loads the stations into room of its own: the room is on the stack, so what loads it cannot hand it out.

// The whole analysis that a call asks, once it passed the rows of lengths.
fn analyse_passed(
    call: &Call,
    grid: &mut [i32],
    support: &mut [u8],
    verdict: &mut [u8],
) -> Result<(), Refusal>
    requires { Passed (call_of call.now) (length grid.old) (length support.old) (length verdict.old) }
    ensures { AnalysesAs (call_of call.now) (slices grid.old support.old verdict.old) result (slices grid.new support.new verdict.new) }
{
    let mut room = [request::NO_STATION; 512];
    let stations = &mut room[..call.stations.x.len()];
    request::load(stations, &call.stations);
    let request = Request {
        terms: request::terms_of(call),
        guess: call.guess,
        stations,
    };
    analysis::settled(&request, grid, support, verdict)
}

// The whole analysis that a call asks.
fn analyse(
    call: &Call,
    grid: &mut [i32],
    support: &mut [u8],
    verdict: &mut [u8],
) -> Result<(), Refusal>
    ensures { AnalysesAs (call_of call.now) (slices grid.old support.old verdict.old) result (slices grid.new support.new verdict.new) }
{
    let lengths = refusal_shapes::lengths_of(call);
    refusal::of_lengths(lengths, grid.len(), support.len(), verdict.len())?;
    analyse_passed(call, grid, support, verdict)
}

// The window query that a call asks, once it passed.
fn query_passed(call: &Call, w: Window, grid: &mut [i32], support: &mut [u8]) -> Result<(), Refusal>
    requires { WindowPassed (call_of call.now) (window_in w) (length grid.old) (length support.old) }
    ensures { QueriesAs (call_of call.now) (window_in w) (tile grid.old support.old) result (tile grid.new support.new) }
{
    let mut room = [request::NO_STATION; 512];
    let stations = &mut room[..call.stations.x.len()];
    request::load(stations, &call.stations);
    let request = Request {
        terms: request::terms_of(call),
        guess: call.guess,
        stations,
    };
    window::settled(&request, w, grid, support)
}

// The window query that a call asks.
fn query(call: &Call, w: Window, grid: &mut [i32], support: &mut [u8]) -> Result<(), Refusal>
    ensures { QueriesAs (call_of call.now) (window_in w) (tile grid.old support.old) result (tile grid.new support.new) }
{
    let lengths = refusal_shapes::lengths_of(call);
    refusal::of_window_lengths(lengths, w, grid.len(), support.len())?;
    query_passed(call, w, grid, support)
}

// Each window of a screen, once the call passed, the windows that were loaded among it.
fn query_each_passed(
    call: &Call,
    screen: &Screen,
    windows: &[Window],
    grid: &mut [i32],
    support: &mut [u8],
) -> Result<(), Refusal>
    requires passed { ScreenPassed (call_of call.now) (screen_of screen.now) (length grid.old) (length support.old) }
    requires loaded { windows_in windows.now ≡ windows_of (screen_of screen.now) }
    ensures { QueriesEachAs (call_of call.now) (screen_of screen.now) (tile grid.old support.old) result (tile grid.new support.new) }
{
    let mut room = [request::NO_STATION; 512];
    let stations = &mut room[..call.stations.x.len()];
    request::load(stations, &call.stations);
    let request = Request {
        terms: request::terms_of(call),
        guess: call.guess,
        stations,
    };
    window_screen::settled(&request, windows, grid, support)
}

// Each window of a screen whose columns are equal: they are loaded here, before the rest of the rows.
fn query_each_loaded(
    call: &Call,
    screen: &Screen,
    grid: &mut [i32],
    support: &mut [u8],
) -> Result<(), Refusal>
    requires columns { accepted ≡ in_order (screen_columns (lengths_of (call_of call.now)) (length screen.now.left.now) (length screen.now.right.now) (length screen.now.top.now) (length screen.now.bottom.now)) }
    requires shape { Shaped call.now.nx call.now.ny (length call.now.guess.now) }
    requires equal { EqualScreen (screen_of screen.now) }
    ensures { QueriesEachAs (call_of call.now) (screen_of screen.now) (tile grid.old support.old) result (tile grid.new support.new) }
{
    let lengths = refusal_shapes::lengths_of(call);
    let mut room = [request::NO_WINDOW; 16];
    let windows = &mut room[..screen.left.len()];
    request::load_windows(windows, screen);
    refusal::of_screen_lengths(lengths, windows, grid.len(), support.len())?;
    query_each_passed(call, screen, windows, grid, support)
}

// Each window of a screen.
fn query_each(
    call: &Call,
    screen: &Screen,
    grid: &mut [i32],
    support: &mut [u8],
) -> Result<(), Refusal>
    ensures { QueriesEachAs (call_of call.now) (screen_of screen.now) (tile grid.old support.old) result (tile grid.new support.new) }
{
    let lengths = refusal_shapes::lengths_of(call);
    refusal::of_screen_columns(
        lengths,
        screen.left.len(),
        screen.right.len(),
        screen.top.len(),
        screen.bottom.len(),
    )?;
    query_each_loaded(call, screen, grid, support)
}

// ---- the exports: what C hands over a column at a time, grouped

// The one number that C is answered: 0 for a call that was not refused.
fn one_number(answer: Result<(), Refusal>) -> u32
    ensures { result ≡ as_one (refusal_of answer) }
{
    match answer {
        Ok(()) => 0,
        Err(refused) => u32::from(refused),
    }
}

#[unsafe(no_mangle)]
pub extern "C" fn sosnyavik_analyse(
    nx: u32,
    ny: u32,
    guess: &[i32],
    x: &[i32],
    y: &[i32],
    value: &[i32],
    observed: &[u32],
    from: &[u32],
    until: &[u32],
    wind_u: &[i32],
    wind_v: &[i32],
    count: u32,
    radius: &[i32],
    limit: &[i32],
    smooth: bool,
    mode: u32,
    rule: u32,
    buddy: bool,
    buddy_radius: i32,
    buddy_limit: i32,
    time: u32,
    age: u32,
    grid: &mut [i32],
    support: &mut [u8],
    verdict: &mut [u8],
) -> u32
    ensures { Analyses (asking nx ny guess.now (eight_columns x.now y.now value.now observed.now from.now until.now wind_u.now wind_v.now) count radius.now limit.now smooth mode rule (record { on = buddy; radius = buddy_radius; limit = buddy_limit }) time age) (slices grid.old support.old verdict.old) result (slices grid.new support.new verdict.new) }
{
    let call = Call {
        nx,
        ny,
        guess,
        stations: Columns {
            x,
            y,
            value,
            observed,
            from,
            until,
            wind_u,
            wind_v,
        },
        plan: Plan {
            scans: count,
            radius,
            limit,
            smooth,
            mode,
            rule,
            buddies: Buddies {
                on: buddy,
                radius: buddy_radius,
                limit: buddy_limit,
            },
        },
        time,
        age,
    };
    one_number(analyse(&call, grid, support, verdict))
}

#[unsafe(no_mangle)]
pub extern "C" fn sosnyavik_window(
    nx: u32,
    ny: u32,
    guess: &[i32],
    left: u32,
    right: u32,
    top: u32,
    bottom: u32,
    x: &[i32],
    y: &[i32],
    value: &[i32],
    observed: &[u32],
    from: &[u32],
    until: &[u32],
    wind_u: &[i32],
    wind_v: &[i32],
    count: u32,
    radius: &[i32],
    limit: &[i32],
    smooth: bool,
    mode: u32,
    rule: u32,
    buddy: bool,
    buddy_radius: i32,
    buddy_limit: i32,
    time: u32,
    age: u32,
    grid: &mut [i32],
    support: &mut [u8],
) -> u32
    ensures { Queries (asking nx ny guess.now (eight_columns x.now y.now value.now observed.now from.now until.now wind_u.now wind_v.now) count radius.now limit.now smooth mode rule (record { on = buddy; radius = buddy_radius; limit = buddy_limit }) time age) (window_at left right top bottom) (tile grid.old support.old) result (tile grid.new support.new) }
{
    let call = Call {
        nx,
        ny,
        guess,
        stations: Columns {
            x,
            y,
            value,
            observed,
            from,
            until,
            wind_u,
            wind_v,
        },
        plan: Plan {
            scans: count,
            radius,
            limit,
            smooth,
            mode,
            rule,
            buddies: Buddies {
                on: buddy,
                radius: buddy_radius,
                limit: buddy_limit,
            },
        },
        time,
        age,
    };
    let w = Window {
        left: left as usize,
        right: right as usize,
        top: top as usize,
        bottom: bottom as usize,
    };
    one_number(query(&call, w, grid, support))
}

#[unsafe(no_mangle)]
pub extern "C" fn sosnyavik_windows(
    nx: u32,
    ny: u32,
    guess: &[i32],
    left: &[u32],
    right: &[u32],
    top: &[u32],
    bottom: &[u32],
    x: &[i32],
    y: &[i32],
    value: &[i32],
    observed: &[u32],
    from: &[u32],
    until: &[u32],
    wind_u: &[i32],
    wind_v: &[i32],
    count: u32,
    radius: &[i32],
    limit: &[i32],
    smooth: bool,
    mode: u32,
    rule: u32,
    buddy: bool,
    buddy_radius: i32,
    buddy_limit: i32,
    time: u32,
    age: u32,
    grid: &mut [i32],
    support: &mut [u8],
) -> u32
    ensures { QueriesEach (asking nx ny guess.now (eight_columns x.now y.now value.now observed.now from.now until.now wind_u.now wind_v.now) count radius.now limit.now smooth mode rule (record { on = buddy; radius = buddy_radius; limit = buddy_limit }) time age) (four_columns left.now right.now top.now bottom.now) (tile grid.old support.old) result (tile grid.new support.new) }
{
    let call = Call {
        nx,
        ny,
        guess,
        stations: Columns {
            x,
            y,
            value,
            observed,
            from,
            until,
            wind_u,
            wind_v,
        },
        plan: Plan {
            scans: count,
            radius,
            limit,
            smooth,
            mode,
            rule,
            buddies: Buddies {
                on: buddy,
                radius: buddy_radius,
                limit: buddy_limit,
            },
        },
        time,
        age,
    };
    let screen = Screen {
        left,
        right,
        top,
        bottom,
    };
    one_number(query_each(&call, &screen, grid, support))
}

#[unsafe(no_mangle)]
pub extern "C" fn sosnyavik_reading_kind(
    nx: u32,
    ny: u32,
    field: &[i32],
    support: &[u8],
    x: i32,
    y: i32,
) -> u32
    ensures { ReadsKind nx ny field.now support.now x y result }
{
    field_reading::reading_kind(nx, ny, field, support, x, y)
}

#[unsafe(no_mangle)]
pub extern "C" fn sosnyavik_reading_value(
    nx: u32,
    ny: u32,
    field: &[i32],
    support: &[u8],
    x: i32,
    y: i32,
) -> f64
    ensures { ReadsValue nx ny field.now support.now x y result }
{
    field_reading::reading_value(nx, ny, field, support, x, y)
}

#[unsafe(no_mangle)]
pub extern "C" fn sosnyavik_summarise(nx: u32, ny: u32, field: &[i32]) -> Summary
    ensures { Summarises nx ny field.now result }
{
    field_summary::summary(nx, ny, field)
}
