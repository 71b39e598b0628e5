// The record of a cell, by value: what a strip's first record holds, its box as vectors of floats. Writing makes it once from a strip whose box is finite,
// reading once from header and root; every function that needs the box or a flag takes it, or its boxes.
#![tactic(auto)]

ghost use Rattle.std.specs.Prelude.{◌≡◌, ◌≤◌, length};
ghost use Rattle.strip.specs.Reading.{head_at};
ghost use Rattle.cell_record.specs.Record.{record_of, root_in, frame_in};

use math::vec3::{Vec3, floats_at};
use quantise::short::Frame;
use quarters::bounds::Aabb;

#[derive(Clone, Copy)]
pub struct CellRecord {
    pub content_flags: u32,
    pub area_id: u32,
    pub version_unk2: u32,
    pub vft: u32,
    pub bb_min: Vec3,
    pub bb_max: Vec3,
    pub bb_size: Vec3,
}

impl CellRecord {
    // The box that splits into leaves.
    pub fn root_box(self) -> Aabb
        ensures { result ≡ root_in self }
    {
        Aabb {
            min: self.bb_min,
            max: self.bb_max,
        }
    }

    // The box in which shorts are measured.
    pub fn frame(self) -> Frame
        ensures { result ≡ frame_in self }
    {
        Frame {
            bb_min: self.bb_min,
            bb_size: self.bb_size,
        }
    }
}

// The record at the head of a strip. A caller has its words from `check_strip`.
pub fn record_at(strip: &[u32]) -> CellRecord
    requires { 14 ≤ length strip.now }
    ensures { result ≡ record_of (head_at strip.now 0) }
{
    CellRecord {
        content_flags: strip[1],
        area_id: strip[2],
        version_unk2: strip[3],
        vft: strip[4],
        bb_min: floats_at(strip, 5),
        bb_max: floats_at(strip, 8),
        bb_size: floats_at(strip, 11),
    }
}
