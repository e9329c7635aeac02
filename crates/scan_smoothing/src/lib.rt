// Smoothing of the whole field, in place (document 01, "One scan", Smoothing; document 02, request 4).
#![tactic(auto)]

ghost use Rattle.std.specs.Prelude.{◌≡◌, ◌+◌, ◌-◌, ◌*◌, ◌≤◌, ◌<◌, length, get_or, pos, nat_abs};
ghost use Rattle.lists.specs.Filled.{Filled};
ghost use Rattle.scheme.specs.Units.{most_side, stored, field_of};
ghost use Rattle.scheme.specs.Rounding.{rounded};
ghost use Rattle.scheme.specs.Smoothing.{smoothed};
ghost use Rattle.scheme.specs.Most.{most_points};
ghost use Rattle.scheme.specs.Accepted.{Shaped};
ghost use Rattle.scheme.specs.Bounds.{Small};
ghost use Rattle.scan_smoothing.specs.Pattern.{SmallFrom, row_at, new_at};

// The three-by-three pattern is one table.
const PATTERN: [[u32; 3]; 3] = [[1, 2, 1], [2, 4, 2], [1, 2, 1]];

// Row b of the pattern, laid on three places from p on.
fn row_sum(z: &[i32], p: usize, b: usize) -> i32
    requires { (b < 3) × (p + 3 ≤ length z.now) × (length z.now ≤ most_points) × SmallFrom p z.now }
    ensures { result ≡ row_at z.now p b }
{
    let mut sum: i32 = 0;
    for (a, weight) in PATTERN[b].iter().enumerate() {
        sum += *weight as i32 * z[p + a];
    }
    sum
}

// A sixteenth, to the nearest whole number, halves away from zero. The shift goes to the lower number, so that less is added below zero. The
// branch decides that alone: then the machine has none, and makes four points at a time.
fn sixteenth(n: i32) -> i32
    requires { nat_abs n ≤ 1000000000 }
    ensures { result ≡ rounded n 16 }
{
    let m = if n < 0 { n + 7 } else { n + 8 };
    m >> 4
}

// The nx values from base on, into a row that is kept.
fn keep_row(row: &mut [i32; 64], z: &[i32], base: usize, nx: usize)
    requires { (nx ≤ most_side) × (base + nx ≤ length z.now) × (length z.now ≤ most_points) × (length row.old ≡ most_side) }
    ensures { Filled (pos 0) (λ k. get_or z.now (base + k) (pos 0)) 0 nx row.old row.new }
{
    row[..nx].copy_from_slice(&z[base..base + nx]);
}

// The inner points of the row that begins at base, from the rows that are kept, above it and its own as it was, and from the row below in the
// grid. By an index, since that grid is read and written at once.
fn smooth_row(z: &mut [i32], base: usize, nx: usize, above: &[i32; 64], here: &[i32; 64])
    requires { (2 ≤ nx) × (nx ≤ most_side) × (base + nx + nx ≤ length z.old) × (length z.old ≤ most_points) × SmallFrom (base + nx) z.old × (length above.now ≡ most_side) × Small above.now × (length here.now ≡ most_side) × Small here.now }
    ensures { Filled (pos 0) (λ k. new_at above.now here.now z.old (base + nx) (k - (base + 1))) (base + 1) (base + 1 + (nx - 2)) z.old z.new }
{
    for i in 0..nx - 2 {
        let n = row_sum(above, i, 0) + row_sum(here, i, 1) + row_sum(z, base + nx + i, 2);
        z[base + 1 + i] = sixteenth(n);
    }
}

// All points at once: each row is made from old rows alone. From the row below on the grid still has them; of the row above and of the row at
// hand a copy is kept, with room for the longest row (no heap: fixed memory). The first row and the last are border. Rows by an index, since each is
// made with the one that follows it.
pub fn smooth(z: &mut [i32], nx: usize, ny: usize)
    requires { Shaped nx ny (length z.old) × Small z.old }
    ensures { z.new ≡ stored nx ny (smoothed nx ny (field_of (pos 0) nx z.old)) }
{
    let mut above = [0i32; 64];
    let mut here = [0i32; 64];
    keep_row(&mut above, z, 0, nx);
    for j in 0..ny - 2 {
        let base = (j + 1) * nx;
        keep_row(&mut here, z, base, nx);
        smooth_row(z, base, nx, &above, &here);
        above = here;
    }
}
