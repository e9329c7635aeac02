// Smoothing by itself, for the tests: through an analysis a field comes nowhere near the ends of what smoothing is proved for. It is in an
// archive of its own, which nobody is handed.
#![tactic(auto)]

ghost use Rattle.std.specs.Prelude.{◌≡◌};
ghost use Rattle.std.specs.List.{list_all};
ghost use Rattle.trial_smoothing.specs.Trial.{fair, Smooths};

// A value as small as those of an accepted run.
fn is_fair(v: i32) -> bool
    ensures { result ≡ fair v }
{
    (-13000000..=13000000).contains(&v)
}

fn all_fair(field: &[i32]) -> bool
    ensures { result ≡ list_all fair field.now }
{
    field.iter().all(|v| is_fair(*v))
}

// The field is smoothed; or it is no field, or has a larger value, and is left as it was.
#[unsafe(no_mangle)]
pub extern "C" fn sosnyavik_trial_smooth(nx: u32, ny: u32, field: &mut [i32]) -> bool
    ensures { Smooths nx ny field.old result field.new }
{
    if refusal_shapes::shape_bad(nx as usize, ny as usize, field.len()) {
        return false;
    }
    if !all_fair(field) {
        return false;
    }
    scan_smoothing::smooth(field, nx as usize, ny as usize);
    true
}
