// The summary of a field (document 01, "Readings as doubles").
#![tactic(auto)]

ghost use Rattle.std.specs.Prelude.{◌≡◌, ◌<◌, length};
ghost use Rattle.scheme.specs.Readings.{units_of};
ghost use Rattle.scheme.specs.Promises.{Summarises};
ghost use Rattle.field_summary.specs.Ends.{units_between};

use scheme::{Summary, Units};

// The parts of a unit that a value is counted in.
const PARTS_OF_VALUE: u32 = 64;

// Lowest, highest and their span. The span is taken before anything becomes a double.
fn units_between(low: i32, high: i32) -> Units
    ensures { result ≡ units_between low high }
{
    let l = i64::from(low);
    let h = i64::from(high);
    Units {
        lowest: field_reading::double(l, PARTS_OF_VALUE),
        highest: field_reading::double(h, PARTS_OF_VALUE),
        span: field_reading::double(h - l, PARTS_OF_VALUE),
    }
}

// The three numbers of a whole field, from its lowest and its highest value.
fn units_of(field: &[i32]) -> Units
    requires { 0 < length field.now }
    ensures { result ≡ units_of field.now }
{
    let mut low = field[0];
    let mut high = field[0];
    for value in field {
        low = low.min(*value);
        high = high.max(*value);
    }
    units_between(low, high)
}

// The summary of any field of i32. A refused one holds three zeros, and its refusal as C's number: the struct is C's.
pub fn summary(nx: u32, ny: u32, field: &[i32]) -> Summary
    ensures { Summarises nx ny field.now result }
{
    if refusal_shapes::shape_bad(nx as usize, ny as usize, field.len()) {
        let units = Units {
            lowest: 0.0,
            highest: 0.0,
            span: 0.0,
        };
        return Summary {
            refusal: 1,
            place: 0,
            units,
        };
    }
    let units = units_of(field);
    Summary {
        refusal: 0,
        place: 0,
        units,
    }
}
