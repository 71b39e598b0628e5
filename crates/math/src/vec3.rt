// A vector of three floats, by value.
ghost use Rattle.std.specs.Prelude.{◌≡◌, ◌+◌, ◌≤◌, length};
ghost use Rattle.math.specs.Floats.{floats_at};
ghost use Rattle.math.specs.Picked.{IsMin, IsMax};

use super::num::{f32_max, f32_min, float_of_bits};

#[derive(Clone, Copy)]
pub struct Vec3 {
    pub x: f32,
    pub y: f32,
    pub z: f32,
}

impl Vec3 {
    pub fn new(x: f32, y: f32, z: f32) -> Self
        ensures x { result.x ≡ x }
        ensures y { result.y ≡ y }
        ensures z { result.z ≡ z }
    {
        Self { x, y, z }
    }

    // The lesser by coordinate.
    pub fn min(self, rhs: Vec3) -> Self
        ensures x { IsMin self.x rhs.x result.x }
        ensures y { IsMin self.y rhs.y result.y }
        ensures z { IsMin self.z rhs.z result.z }
    {
        Self {
            x: f32_min(self.x, rhs.x),
            y: f32_min(self.y, rhs.y),
            z: f32_min(self.z, rhs.z),
        }
    }

    // The greater by coordinate.
    pub fn max(self, rhs: Vec3) -> Self
        ensures x { IsMax self.x rhs.x result.x }
        ensures y { IsMax self.y rhs.y result.y }
        ensures z { IsMax self.z rhs.z result.z }
    {
        Self {
            x: f32_max(self.x, rhs.x),
            y: f32_max(self.y, rhs.y),
            z: f32_max(self.z, rhs.z),
        }
    }
}

// The three floats whose bits are the words from `at` on.
pub fn floats_at(words: &[u32], at: usize) -> Vec3
    requires { at + 3 ≤ length words.now }
    ensures { result ≡ floats_at words.now at }
{
    let x = float_of_bits(words[at]);
    let y = float_of_bits(words[at + 1]);
    let z = float_of_bits(words[at + 2]);
    Vec3 { x, y, z }
}
