// Whether a position is on the grid or near it, its place there, and the value of a field at that (document 01, "One scan", Value at a station;
// document 02, request 1).
#![tactic(auto)]

ghost use Rattle.std.specs.Prelude.{◌≡◌, ◌+◌, ◌-◌, ◌*◌, ◌≤◌, length, pos, nat_abs};
ghost use Rattle.scheme.specs.Units.{most_side, field_of, step, most_beyond};
ghost use Rattle.scheme.specs.Rounding.{rounded};
ghost use Rattle.scheme.specs.Verdicts.{near_axis, near_grid};
ghost use Rattle.scheme.specs.Value.{place, cell, sum_at};
ghost use Rattle.scheme.specs.Accepted.{Shaped};
ghost use Rattle.field_value.specs.Corners.{shares_of, AreShares, blend, Spotted};

// Neighbouring points are 64 position units apart.
const STEP: u32 = 64;

// ---- positions on and off the grid. An axis is no more than its number of points, which callers have as nx or ny: a type for it would be made
// anew at each call.

// Where the last of n points of an axis stands.
fn last(n: usize) -> i32
    requires { (1 ≤ n) × (n ≤ most_side) }
    ensures { result ≡ pos (step * (n - 1)) }
{
    (STEP * (n as u32 - 1)) as i32
}

// Beyond an axis of n points by at most so many units; by none is on it, its ends included.
fn near_axis(beyond: u32, n: usize, x: i32) -> bool
    requires { (beyond ≤ most_beyond) × (1 ≤ n) × (n ≤ most_side) }
    ensures { result ≡ near_axis beyond n x }
{
    let past = beyond as i32;
    (-past..=last(n) + past).contains(&x)
}

// Beyond a grid of nx columns and ny rows by at most so many units, along x and along y.
pub fn near_grid(beyond: u32, nx: usize, ny: usize, x: i32, y: i32) -> bool
    requires { (beyond ≤ most_beyond) × (1 ≤ nx) × (nx ≤ most_side) × (1 ≤ ny) × (ny ≤ most_side) }
    ensures { result ≡ near_grid beyond nx ny x y }
{
    near_axis(beyond, nx, x) & near_axis(beyond, ny, y)
}

// The place of a position on an axis of n points: itself, if it is on the axis, and else the nearer end.
pub fn place(n: usize, x: i32) -> u32
    requires { (1 ≤ n) × (n ≤ most_side) }
    ensures { result ≡ place n x }
{
    x.clamp(0, last(n)) as u32
}

// ---- the values of a field, or a row of them, put into another that is as long

// What std's copy_from_slice does, by a loop: the compiler makes memcpy of it, or vectors, and of that memmove, a name that the archive would then ask for.
pub fn copy<T: Copy>(to: &mut [T], from: &[T])
    requires { length to.old ≡ length from.now }
    ensures { to.new ≡ from.now }
{
    for (k, value) in to.iter_mut().enumerate() {
        *value = from[k];
    }
}

// ---- the value there. A field is a slice, with the nx and ny beside it that its owner has for much else; what the three are to one another is the
// one word Shaped.

// The lower corner of the cell of position x, on an axis of n points. On the last column or row that is the last cell.
pub fn cell(n: usize, x: u32) -> usize
    requires { 2 ≤ n }
    ensures value { result ≡ cell n x }
    ensures inside { result + 2 ≤ n }
    ensures low { step * result ≤ x }
{
    ((x / STEP) as usize).min(n - 2)
}

// Where a position lies in a stored field: the place of the lower corner of its cell, and how far past that corner it is.
#[derive(Clone, Copy)]
pub struct Spot {
    pub corner: usize,
    pub a: u32,
    pub b: u32,
}

impl Spot {
    // The parts that the cell's corners, p, q over r, s, have in what stands at the position, of 4096 in all.
    pub fn shares(self) -> [u32; 4]
        requires { (self.a ≤ step) × (self.b ≤ step) }
        ensures { result ≡ shares_of self.a self.b }
    {
        let left = STEP - self.a;
        let below = STEP - self.b;
        [left * below, self.a * below, left * self.b, self.a * self.b]
    }
}

// The spot of a position on the grid.
pub fn spot_of(nx: usize, ny: usize, x: u32, y: u32) -> Spot
    requires { Shaped nx ny (nx * ny) × (x ≤ step * (nx - 1)) × (y ≤ step * (ny - 1)) }
    ensures { Spotted nx ny x y result.corner result.a result.b }
{
    let m = cell(nx, x);
    let n = cell(ny, y);
    Spot {
        corner: n * nx + m,
        a: x - STEP * (m as u32),
        b: y - STEP * (n as u32),
    }
}

// The interpolation sum of four corners, by their shares.
fn blended(shares: [u32; 4], values: [i32; 4]) -> i64
    requires { AreShares shares }
    ensures { (result ≡ blend shares values) × (nat_abs result ≤ 35184372088832) }
{
    let mut sum: i64 = 0;
    for (share, value) in shares.iter().zip(values.iter()) {
        sum = rounding::plus(sum, *share, i64::from(*value));
    }
    sum
}

// The interpolation sum of a field at a position on the grid.
pub fn sum_at(z: &[i32], nx: usize, ny: usize, x: u32, y: u32) -> i64
    requires { Shaped nx ny (length z.now) × (x ≤ step * (nx - 1)) × (y ≤ step * (ny - 1)) }
    ensures { (result ≡ sum_at nx ny (field_of (pos 0) nx z.now) x y) × (nat_abs result ≤ 35184372088832) }
{
    let spot = spot_of(nx, ny, x, y);
    let p = spot.corner;
    blended(spot.shares(), [z[p], z[p + 1], z[p + nx], z[p + nx + 1]])
}

// The value of a field at a position on the grid: that sum divided by 4096 and rounded, once.
pub fn value_at(z: &[i32], nx: usize, ny: usize, x: u32, y: u32) -> i64
    requires { Shaped nx ny (length z.now) × (x ≤ step * (nx - 1)) × (y ≤ step * (ny - 1)) }
    ensures { result ≡ rounded (sum_at nx ny (field_of (pos 0) nx z.now) x y) 4096 }
{
    rounding::rounded(sum_at(z, nx, ny, x, y), 4096)
}
