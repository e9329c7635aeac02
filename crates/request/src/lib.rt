// A request as it is handed on: its terms, its first guess and its stations; a window, or the windows of a screen; and a call as it is lent, by columns.
// Each column of a call is read here, once.
#![tactic(auto)]

ghost use Rattle.std.specs.Prelude.{◌≡◌, true, ◌+◌, ◌-◌, ◌≤◌, length, EachIndex, get_or};
ghost use Rattle.scheme.specs.Units.{most_side, stations_of, most_scans, B, L};
ghost use Rattle.scheme.specs.Refusals.{windows_of, points_of};
ghost use Rattle.scheme.specs.Accepted.{Equal, Checked, OnGrid, EqualScreen};
ghost use Rattle.request.specs.Tables.{stations_in, no_entry, plan_in, window_in, windows_in};
ghost use Rattle.request.specs.Lent.{columns_of, plan_of, call_of, screen_of};
ghost use Rattle.request.specs.Loaded.{entry_at, Termed};

// The lowest i32 marks a missing observation, or wind, and until this minute means no end. A station keeps its marks as they came and has no Options:
// row 8 of the refusal table has still to read a wind that is half missing.
pub const MISSING: i32 = -2147483648;

pub const NO_END: u32 = 4294967295;

// The round weight, and the one that is stretched along the wind. Mode and rule stay numbers: `terms_of` promises those of any call, also of one that
// row 5 refuses.
pub const ROUND: u32 = 0;

pub const ALONG_WIND: u32 = 1;

// The rules for a lone station: that of the equations, and that of the listings.
pub const EQUATIONS: u32 = 1;

pub const LISTINGS: u32 = 2;

// The most windows of a screen, and the place of a refusal for its columns.
pub const MOST_WINDOWS: usize = 16;

// The most scans of a plan, and the place of a refusal for its buddy check.
pub const MOST_SCANS: usize = 6;

// ---- a request

// A wind, by its two parts.
#[derive(Clone, Copy)]
pub struct Wind {
    pub u: i32,
    pub v: i32,
}

// A station of the list.
#[derive(Clone, Copy)]
pub struct Station {
    pub x: i32,
    pub y: i32,
    pub value: i32,
    pub observed: u32,
    pub from: u32,
    pub until: u32,
    pub wind: Wind,
}

// What fills the room that stations are loaded into.
pub const NO_STATION: Station = Station {
    x: 0,
    y: 0,
    value: 0,
    observed: 0,
    from: 0,
    until: 0,
    wind: Wind { u: 0, v: 0 },
};

// A scan of a plan.
#[derive(Clone, Copy)]
pub struct Entry {
    pub radius: i32,
    pub limit: i32,
}

pub const NO_ENTRY: Entry = Entry {
    radius: 0,
    limit: 0,
};

// The buddy check of a plan. Off, it keeps what the call said and is no None, since a request is what its call asks, number for number (`UpToCount`).
#[derive(Clone, Copy)]
pub struct Buddies {
    pub on: bool,
    pub radius: i32,
    pub limit: i32,
}

// All of a request but its first guess and its stations. Entries past the count of scans are not read: room of a fixed size, since there is no heap.
#[derive(Clone, Copy)]
pub struct Terms {
    pub nx: usize,
    pub ny: usize,
    pub scans: usize,
    pub entries: [Entry; 6],
    pub smooth: bool,
    pub mode: u32,
    pub rule: u32,
    pub buddies: Buddies,
    pub time: u32,
    pub age: u32,
}

impl Terms {
    // B, which is 0 where the buddy check is off.
    pub fn buddy_radius(&self) -> u32
        requires { self.now.buddies.on ≡ true → Checked (plan_in self.now) }
        ensures { result ≡ B (plan_in self.now) }
    {
        if !self.buddies.on {
            return 0;
        }
        self.buddies.radius as u32
    }

    // L, of a check that is on.
    pub fn buddy_limit(&self) -> u32
        requires { Checked (plan_in self.now) }
        ensures { result ≡ L (plan_in self.now) }
    {
        self.buddies.limit as u32
    }
}

// A request: what is lent is read where it stands.
#[derive(Clone, Copy)]
pub struct Request<'a> {
    pub terms: Terms,
    pub guess: &'a [i32],
    pub stations: &'a [Station],
}

// ---- windows

// A window's four ends, which are inside it.
#[derive(Clone, Copy)]
pub struct Window {
    pub left: usize,
    pub right: usize,
    pub top: usize,
    pub bottom: usize,
}

// What fills the room that windows are loaded into.
pub const NO_WINDOW: Window = Window {
    left: 0,
    right: 0,
    top: 0,
    bottom: 0,
};

impl Window {
    // Its columns.
    pub fn width(self) -> usize
        requires { OnGrid most_side most_side (window_in self) }
        ensures { result ≡ self.right - self.left + 1 }
    {
        self.right + 1 - self.left
    }

    // Its rows.
    pub fn height(self) -> usize
        requires { OnGrid most_side most_side (window_in self) }
        ensures { result ≡ self.bottom - self.top + 1 }
    {
        self.bottom + 1 - self.top
    }

    // Its points.
    pub fn points(self) -> usize
        requires { OnGrid most_side most_side (window_in self) }
        ensures { result ≡ points_of (window_in self) }
    {
        self.width() * self.height()
    }
}

// ---- what a call is lent

// Its stations, a column for each of their parts.
#[derive(Clone, Copy)]
pub struct Columns<'a> {
    pub x: &'a [i32],
    pub y: &'a [i32],
    pub value: &'a [i32],
    pub observed: &'a [u32],
    pub from: &'a [u32],
    pub until: &'a [u32],
    pub wind_u: &'a [i32],
    pub wind_v: &'a [i32],
}

// Its plan, with a column each for radii and limits.
#[derive(Clone, Copy)]
pub struct Plan<'a> {
    pub scans: u32,
    pub radius: &'a [i32],
    pub limit: &'a [i32],
    pub smooth: bool,
    pub mode: u32,
    pub rule: u32,
    pub buddies: Buddies,
}

// All that it asks.
#[derive(Clone, Copy)]
pub struct Call<'a> {
    pub nx: u32,
    pub ny: u32,
    pub guess: &'a [i32],
    pub stations: Columns<'a>,
    pub plan: Plan<'a>,
    pub time: u32,
    pub age: u32,
}

// The windows of a screen, a column for each of their ends.
#[derive(Clone, Copy)]
pub struct Screen<'a> {
    pub left: &'a [u32],
    pub right: &'a [u32],
    pub top: &'a [u32],
    pub bottom: &'a [u32],
}

// The scans of a plan that has as many entries as it counts scans.
fn load_entries(entries: &mut [Entry], plan: &Plan)
    requires { (length entries.old ≡ plan.now.scans) × (plan.now.scans ≤ length plan.now.radius.now) × (plan.now.scans ≤ length plan.now.limit.now) }
    ensures { EachIndex entries.new (λ m. get_or entries.new m no_entry ≡ entry_at (plan_of plan.now) m) }
{
    for (m, entry) in entries.iter_mut().enumerate() {
        *entry = Entry {
            radius: plan.radius[m],
            limit: plan.limit[m],
        };
    }
}

// The terms of such a call.
pub fn terms_of(call: &Call) -> Terms
    requires { (call.now.plan.scans ≤ most_scans) × (call.now.plan.scans ≤ length call.now.plan.radius.now) × (call.now.plan.scans ≤ length call.now.plan.limit.now) }
    ensures { Termed result (call_of call.now) }
{
    let plan = call.plan;
    let scans = plan.scans as usize;
    let mut entries = [NO_ENTRY; 6];
    load_entries(&mut entries[..scans], &plan);
    Terms {
        nx: call.nx as usize,
        ny: call.ny as usize,
        scans,
        entries,
        smooth: plan.smooth,
        mode: plan.mode,
        rule: plan.rule,
        buddies: plan.buddies,
        time: call.time,
        age: call.age,
    }
}

// The columns of a call, as stations.
pub fn load(stations: &mut [Station], columns: &Columns)
    requires { Equal (columns_of columns.now) × (length stations.old ≡ length columns.now.x.now) }
    ensures { stations_in stations.new ≡ stations_of (columns_of columns.now) }
{
    for (k, station) in stations.iter_mut().enumerate() {
        *station = Station {
            x: columns.x[k],
            y: columns.y[k],
            value: columns.value[k],
            observed: columns.observed[k],
            from: columns.from[k],
            until: columns.until[k],
            wind: Wind {
                u: columns.wind_u[k],
                v: columns.wind_v[k],
            },
        };
    }
}

// The columns of a screen, as windows.
pub fn load_windows(windows: &mut [Window], screen: &Screen)
    requires { EqualScreen (screen_of screen.now) × (length windows.old ≡ length screen.now.left.now) }
    ensures { windows_in windows.new ≡ windows_of (screen_of screen.now) }
{
    for (k, window) in windows.iter_mut().enumerate() {
        *window = Window {
            left: screen.left[k] as usize,
            right: screen.right[k] as usize,
            top: screen.top[k] as usize,
            bottom: screen.bottom[k] as usize,
        };
    }
}
