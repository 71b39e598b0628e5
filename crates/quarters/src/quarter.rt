// The quarter box: each side of a box in quarters, as 16 signed bits.
ghost use Rattle.std.specs.Prelude.{◌≡◌, ◌%◌, ◌<◌, pos, neg_ℤ};
ghost use Rattle.quarters.specs.Quarter.{side, saturated, quarter_floor, quarter_ceil, quarter_box, bits16};
ghost use Rattle.quarters.specs.Int16.{int16};
ghost use Rattle.quarters.specs.Steps.{quarters};

use math::vec3::Vec3;

// 4 * x, rounded up or down and cut to 32768; 0 where x is negative or a NaN. An `f64` holds
// 4 * x exactly, and each whole number below 32768. (std's `floor` and `ceil` with its saturating
// cast say the same and take nearly twice the instructions, and an empty cell's time is quarters.)
fn quarters_of(x: f32, ceil: bool) -> u64
    ensures { result ≡ quarters ceil x }
{
    let y = std::num::f32_to_f64_with_nan(x) * 4.0;
    let n = math::num::saturating_f64_to_u64(y);
    if n >= 32768 {
        32768
    } else if ceil && (n as f64) < y {
        n + 1
    } else {
        n
    }
}

fn positive(n: u64) -> i16
    ensures { result ≡ saturated (pos n) }
{
    n.min(32767) as i16
}

fn negative(n: u64) -> i16
    ensures { result ≡ saturated (neg_ℤ (pos n)) }
{
    -(n.min(32768) as i32) as i16
}

// The floor or the ceiling of 4 * x: that of a negative x is minus the other one of -x.
fn side_of(x: f32, ceil: bool) -> i16
    ensures { result ≡ side ceil x }
{
    if x < 0.0 {
        negative(quarters_of(-x, !ceil))
    } else {
        positive(quarters_of(x, ceil))
    }
}

// The Rust's `(x * 4.0).floor() as i16`.
pub fn quarter_floor(x: f32) -> i16
    ensures { result ≡ quarter_floor x }
{
    side_of(x, false)
}

// The Rust's `(x * 4.0).ceil() as i16`.
pub fn quarter_ceil(x: f32) -> i16
    ensures { result ≡ quarter_ceil x }
{
    side_of(x, true)
}

// A box in quarters, its sides in the order of the pages.
#[derive(Clone, Copy)]
pub struct QuarterBox {
    pub x_min: i16,
    pub x_max: i16,
    pub y_min: i16,
    pub y_max: i16,
    pub z_min: i16,
    pub z_max: i16,
}

pub fn quarter_box(min: Vec3, max: Vec3) -> QuarterBox
    ensures { result ≡ quarter_box min max }
{
    QuarterBox {
        x_min: quarter_floor(min.x),
        x_max: quarter_ceil(max.x),
        y_min: quarter_floor(min.y),
        y_max: quarter_ceil(max.y),
        z_min: quarter_floor(min.z),
        z_max: quarter_ceil(max.z),
    }
}

// A side as the 16 bits that stand in the pages.
pub fn bits16_of(x: i16) -> u32
    ensures bits { result ≡ bits16 x }
    ensures bound { result < 65536 }
{
    u32::from(x.cast_unsigned())
}

// The side whose bits are the low 16 of a word.
pub fn i16_of(bits: u32) -> i16
    ensures { result ≡ int16 (bits % 65536) }
{
    ((bits % 65536) as u16).cast_signed()
}
