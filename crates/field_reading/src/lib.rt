// A field read at a position, as a double (document 01, "Readings as doubles").
#![tactic(auto)]

ghost use Rattle.std.specs.Prelude.{◌≡◌, ◌-◌, ◌*◌, ◌≤◌, length, pos, nat_abs};
ghost use Rattle.scheme.specs.Units.{field_of, step};
ghost use Rattle.scheme.specs.Accepted.{Shaped};
ghost use Rattle.scheme.specs.Readings.{double, is_backed, reading_in, kind_of, value_of};
ghost use Rattle.scheme.specs.Promises.{Reads, ReadsKind, ReadsValue};
ghost use Rattle.field_reading.specs.Backing.{all_backed};

use scheme::Reading;

// The parts of a unit that an interpolation sum is counted in: those of a value, in shares of 4096 parts in all.
const PARTS_OF_SUM: u32 = 262144;

// n / d as a double.
#[tactic(auto, unfolding(scheme::specs::Readings::double))]
pub fn double(n: i64, d: u32) -> f64
    requires { nat_abs n ≤ 9007199254740992 }
    ensures { result ≡ double n d }
{
    (n as f64) / (d as f64)
}

// Every corner with a nonzero share has a nonzero support byte, of four corners.
fn all_backed(shares: [u32; 4], support: [u8; 4]) -> bool
    ensures { result ≡ all_backed shares support }
{
    shares
        .iter()
        .zip(support.iter())
        .all(|(share, byte)| *share == 0 || *byte != 0)
}

// The same, at a position on the grid.
fn is_backed(support: &[u8], nx: usize, ny: usize, x: u32, y: u32) -> bool
    requires { Shaped nx ny (length support.now) × (x ≤ step * (nx - 1)) × (y ≤ step * (ny - 1)) }
    ensures { result ≡ is_backed nx ny (field_of 0 nx support.now) x y }
{
    let spot = field_value::spot_of(nx, ny, x, y);
    let p = spot.corner;
    all_backed(
        spot.shares(),
        [
            support[p],
            support[p + 1],
            support[p + nx],
            support[p + nx + 1],
        ],
    )
}

// The reading of a field of the right shape.
fn reading_in(nx: usize, ny: usize, field: &[i32], support: &[u8], x: i32, y: i32) -> Reading
    requires { Shaped nx ny (length field.now) × (length support.now ≡ length field.now) }
    ensures { result ≡ reading_in nx ny (field_of (pos 0) nx field.now) (field_of 0 nx support.now) x y }
{
    if !field_value::near_grid(0, nx, ny, x, y) {
        return Reading::OffGrid;
    }
    let px = field_value::place(nx, x);
    let py = field_value::place(ny, y);
    let value = double(field_value::sum_at(field, nx, ny, px, py), PARTS_OF_SUM);
    if is_backed(support, nx, ny, px, py) {
        Reading::Backed(value)
    } else {
        Reading::FirstGuess(value)
    }
}

// The reading at any position, of any field of i32 and its support.
pub fn reading(nx: u32, ny: u32, field: &[i32], support: &[u8], x: i32, y: i32) -> Reading
    ensures { Reads nx ny field.now support.now x y result }
{
    let columns = nx as usize;
    let rows = ny as usize;
    if refusal_shapes::shape_bad(columns, rows, field.len()) {
        return Reading::Refused;
    }
    if support.len() != field.len() {
        return Reading::Refused;
    }
    reading_in(columns, rows, field, support, x, y)
}

// Its kind: 0 off grid, 1 first guess, 2 backed, 3 refused. The number is C's alone, and the type crate scheme's, so a function and no From.
#[tactic(auto, unfolding(scheme::specs::Readings::numbers_of))]
fn kind_of(r: Reading) -> u32
    ensures { result ≡ kind_of r }
{
    match r {
        Reading::OffGrid => 0,
        Reading::FirstGuess(_) => 1,
        Reading::Backed(_) => 2,
        Reading::Refused => 3,
    }
}

// And its double, positive zero for kinds 0 and 3.
#[tactic(auto, using(crate::specs::Point::zero_is), unfolding(scheme::specs::Readings::numbers_of))]
fn value_of(r: Reading) -> f64
    ensures { result ≡ value_of r }
{
    match r {
        Reading::FirstGuess(value) | Reading::Backed(value) => value,
        Reading::OffGrid | Reading::Refused => 0.0,
    }
}

// The reading as two calls, since an enum does not cross to C.
pub fn reading_kind(nx: u32, ny: u32, field: &[i32], support: &[u8], x: i32, y: i32) -> u32
    ensures { ReadsKind nx ny field.now support.now x y result }
{
    kind_of(reading(nx, ny, field, support, x, y))
}

pub fn reading_value(nx: u32, ny: u32, field: &[i32], support: &[u8], x: i32, y: i32) -> f64
    ensures { ReadsValue nx ny field.now support.now x y result }
{
    value_of(reading(nx, ny, field, support, x, y))
}
