// The weight of a station at a point (document 01, "One scan", Weight; document 02, 3): the round one, and the one stretched along a wind
// (document 02, 5).
#![tactic(auto)]

ghost use Rattle.std.specs.Prelude.{◌≡◌, ◌+◌, ◌*◌, ◌≤◌, ◌<◌, nat_abs, ◌-ℤ◌};
ghost use Rattle.scheme.specs.Weight.{square, weight};
ghost use Rattle.scheme.specs.Most.{most_square};
ghost use Rattle.scan_weight.specs.Along.{weight_by, most_strength, most_q};

// A weight is in parts of this.
pub const SCALE: u64 = 10000;

// The square of how far positions a and b lie apart along one axis.
pub fn square_apart(a: i32, b: i32) -> u32
    requires { (nat_abs a ≤ 16384) × (nat_abs b ≤ 16384) }
    ensures { (result ≡ square (a -ℤ b)) × (result ≤ 1073741824) }
{
    let d = a - b;
    (d * d) as u32
}

// The squared distance from a point at px to a station at x, where gap is the square of how far they lie apart along the other axis.
pub fn squared_distance(x: i32, px: i32, gap: u32) -> u32
    requires { (nat_abs x ≤ 16384) × (nat_abs px ≤ 16384) × (gap ≤ 1073741824) }
    ensures { result ≡ square (x -ℤ px) + gap }
{
    square_apart(x, px) + gap
}

// The weight at squared distance d2 for squared radius r2. A station beyond the radius costs a compare and no division. The quotient's
// upper part is the same for all stations of a scan, 10,000(R² - d2) = 20,000R² - 10,000(R² + d2), and past u32 from R = 464 on.
pub fn weight(r2: u32, d2: u32) -> u32
    requires { r2 ≤ most_square }
    ensures { result ≡ weight r2 d2 }
{
    if r2 <= d2 {
        return 0;
    }
    (2 * SCALE * (r2 as u64) / ((r2 + d2) as u64) - SCALE) as u32
}

// ---- along a wind

// The square of a number of at most 2^20 in size.
fn squared(z: i32) -> u64
    requires { nat_abs z ≤ 1048576 }
    ensures { (result ≡ square z) × (result ≤ 1099511627776) }
{
    let wide = z as i64;
    (wide * wide) as u64
}

// Up to here 10,000 times a number fits a u64: one division does.
const FEW: u64 = 1844674407370955;

// The whole part of 10,000(p - q)/(p + q). Where that product would not fit, two steps of long division give it exactly.
fn whole_part(p: u64, q: u64) -> u32
    requires { (q ≤ p) × (0 < p) × (100 * (p + q) < 9223372036854775808) }
    ensures { result ≡ weight p q }
{
    let upper = p - q;
    let lower = p + q;
    if upper <= FEW {
        return (SCALE * upper / lower) as u32;
    }
    let n = 100 * upper;
    (100 * (n / lower) + 100 * (n % lower) / lower) as u32
}

// The weight at squared distance d2 inside the squared radius r2, of a station whose wind has V = w2 and q = u·dx + v·dy. A calm wind, or one that
// is missing, has V = 0.
pub fn stretched(r2: u32, d2: u32, w2: u32, q: i32) -> u32
    requires { (r2 ≤ most_square) × (d2 < r2) × (w2 ≤ most_strength) × (nat_abs q ≤ most_q) }
    ensures { result ≡ weight_by r2 d2 w2 q }
{
    let far = d2 as u64;
    let gust = (w2 as u64) * far;
    if gust == 0 {
        return whole_part(r2 as u64, far);
    }
    whole_part((r2 as u64) * (gust + squared(q)), gust * far)
}
