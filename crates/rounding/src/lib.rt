// Weighted sums on i64, and their rounded quotient (document 01, "One scan", Rounding).
#![tactic(auto)]

ghost use Rattle.std.specs.Prelude.{◌≡◌, ◌*◌, ◌≤◌, ◌<◌, pos, nat_abs, ◌+ℤ◌, ◌*ℤ◌};
ghost use Rattle.scheme.specs.Rounding.{rounded};

// The total t with the value v, taken w times.
pub fn plus(t: i64, w: u32, v: i64) -> i64
    requires { (nat_abs t ≤ 4611686018427387904) × (w * nat_abs v ≤ 2305843009213693952) }
    ensures { result ≡ t +ℤ pos w *ℤ v }
{
    t + (w as i64) * v
}

// n / d to the nearest whole number, halves away from zero: half of d is added on the number's own side of zero, and the division drops
// what is left over.
pub fn rounded(n: i64, d: u32) -> i64
    requires { (nat_abs n ≤ 1000000000000000000) × (0 < d) }
    ensures { result ≡ rounded n d }
{
    let half = d as i64;
    let twice = 2 * n;
    let divisor = 2 * half;
    if n < 0 {
        (twice - half) / divisor
    } else {
        (twice + half) / divisor
    }
}
