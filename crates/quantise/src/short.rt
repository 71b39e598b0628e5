// Short numbers: a coordinate as 16 bits of the way along its axis of the box, and back.
ghost use Rattle.std.specs.Prelude.{◌≡◌, ◌*◌, ◌^◌, ◌≤◌, ◌<◌};
ghost use Rattle.quantise.specs.Short as Defined;
ghost use Rattle.quantise.specs.Short.{nearest_whole, magnitude, least, short, coordinate, shorts, beyond, outside, outside_count};
ghost use Rattle.quantise.specs.Coordinates.{coordinates};
ghost use Rattle.quantise.specs.Steps.{rounded_u16, border_of};
ghost use Rattle.std.specs.Float.Ieee.{lt};

use math::vec3::Vec3;

// A vertex as its three short numbers.
#[derive(Clone, Copy)]
pub struct Shorts {
    pub x: u16,
    pub y: u16,
    pub z: u16,
}

// A coordinate as its short number, and whether it was outside: pushed to the border.
#[derive(Clone, Copy)]
pub struct Short {
    pub q: u16,
    pub outside: bool,
}

// A vertex as its three short numbers, and how many of its coordinates were outside.
#[derive(Clone, Copy)]
pub struct Quantised {
    pub shorts: Shorts,
    pub outside: u32,
}

// How far along its axis a stands: 0 at lo, 1 at its other end.
pub fn fraction(a: f32, lo: f32, extent: f32) -> f32
    ensures { result ≡ Defined.fraction a lo extent }
{
    (a - lo) / extent
}

// Whether a fraction is below 0, above 1 or a NaN. (-0 isn't below 0.)
fn is_beyond(t: f32) -> bool
    ensures { result ≡ beyond t }
{
    !(0.0..=1.0).contains(&t)
}

// Where Rust's `t.clamp(0.0, 1.0)` and `as u16` put a fraction that is beyond: at the end that it is beyond, and a NaN at 0.
fn border_of(t: f32) -> u16
    ensures { result ≡ border_of t }
{
    if t > 1.0 { 65535 } else { 0 }
}

// A number of 2^-25ths to the nearest whole number, halves up, which is away from zero.
fn nearest_whole(fixed: u64) -> u64
    requires { fixed < 65535 * 2 ^ 25 }
    ensures { result ≡ nearest_whole fixed (2 ^ 25) }
{
    (fixed + 0x100_0000) / 0x200_0000
}

// Rust's `p.round() as u16`: halves away from zero, cut to the range, and 0 for a NaN. Above a
// quarter p is a whole number of 2^-25ths; 2^27 more, which an `f64` holds exactly, shows them as
// its digits, and there a half is added. (In the `f32` itself p + 0.5 may round up. std's `round`
// with its saturating cast says the same and takes more than twice the instructions.)
fn round_to_u16(p: f32) -> u16
    ensures { result ≡ rounded_u16 p }
{
    if p > 0.25 {
        if p < 65535.0 {
            let fixed = f64::to_bits((p as f64) + 134217728.0) % 0x10_0000_0000_0000;
            return nearest_whole(fixed) as u16;
        }
        return 65535;
    }
    0
}

// Whether the extent is below 2^-23, Rust's `f32::EPSILON`, in magnitude.
fn is_small(extent: f32) -> bool
    ensures { result ≡ lt (magnitude extent) least }
{
    extent.abs() < f32::EPSILON
}

// The Rust's `q`: where a stands from lo on, in 65535ths of extent; and whether that is outside. What is inside needs no clamping.
pub fn quantise_axis(a: f32, lo: f32, extent: f32) -> Short
    ensures short { result.q ≡ short a lo extent }
    ensures outside { result.outside ≡ outside a lo extent }
{
    if is_small(extent) {
        return Short {
            q: 0,
            outside: false,
        };
    }
    let t = fraction(a, lo, extent);
    if is_beyond(t) {
        return Short {
            q: border_of(t),
            outside: true,
        };
    }
    Short {
        q: round_to_u16(t * 65535.0),
        outside: false,
    }
}

// Whether a coordinate is outside, without a branch, so that a loop which only counts is done several at a time.
fn is_outside(a: f32, lo: f32, extent: f32) -> bool
    ensures { result ≡ outside a lo extent }
{
    let t = fraction(a, lo, extent);
    is_beyond(t) && !is_small(extent)
}

// The coordinate that q stands for.
pub fn unquantise_axis(q: u16, lo: f32, extent: f32) -> f32
    ensures { result ≡ coordinate q lo extent }
{
    lo + (q as f32) / 65535.0 * extent
}

// The box in which shorts are measured: by axis, lo from bb_min and extent from bb_size.
#[derive(Clone, Copy)]
pub struct Frame {
    pub bb_min: Vec3,
    pub bb_size: Vec3,
}

impl Frame {
    pub fn shorts_of(self, v: Vec3) -> Shorts
        ensures { result ≡ shorts v self.bb_min self.bb_size }
    {
        let Frame { bb_min, bb_size } = self;
        Shorts {
            x: quantise_axis(v.x, bb_min.x, bb_size.x).q,
            y: quantise_axis(v.y, bb_min.y, bb_size.y).q,
            z: quantise_axis(v.z, bb_min.z, bb_size.z).q,
        }
    }

    // How many of the three coordinates are outside.
    pub fn outside_of(self, v: Vec3) -> u32
        ensures count { result ≡ outside_count v self.bb_min self.bb_size }
        ensures bound { result ≤ 3 }
    {
        let Frame { bb_min, bb_size } = self;
        let x = is_outside(v.x, bb_min.x, bb_size.x);
        let y = is_outside(v.y, bb_min.y, bb_size.y);
        let z = is_outside(v.z, bb_min.z, bb_size.z);
        u32::from(x) + u32::from(y) + u32::from(z)
    }

    // Both.
    pub fn quantise(self, v: Vec3) -> Quantised
        ensures shorts { result.shorts ≡ shorts v self.bb_min self.bb_size }
        ensures outside { result.outside ≡ outside_count v self.bb_min self.bb_size }
        ensures bound { result.outside ≤ 3 }
    {
        let Frame { bb_min, bb_size } = self;
        let x = quantise_axis(v.x, bb_min.x, bb_size.x);
        let y = quantise_axis(v.y, bb_min.y, bb_size.y);
        let z = quantise_axis(v.z, bb_min.z, bb_size.z);
        Quantised {
            shorts: Shorts {
                x: x.q,
                y: y.q,
                z: z.q,
            },
            outside: u32::from(x.outside) + u32::from(y.outside) + u32::from(z.outside),
        }
    }

    pub fn unquantise(self, q: Shorts) -> Vec3
        ensures { result ≡ coordinates q self.bb_min self.bb_size }
    {
        let Frame { bb_min, bb_size } = self;
        Vec3 {
            x: unquantise_axis(q.x, bb_min.x, bb_size.x),
            y: unquantise_axis(q.y, bb_min.y, bb_size.y),
            z: unquantise_axis(q.z, bb_min.z, bb_size.z),
        }
    }
}
