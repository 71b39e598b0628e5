// The cell's record: made once from header and root, and stored at the head of a strip by the bits of its floats.
ghost use Rattle.std.specs.Prelude.{◌≡◌, ◌+◌, ◌≤◌, length};
ghost use Rattle.fields.specs.Put.{put};
ghost use Rattle.strip.specs.Cell.{head_words};
ghost use Rattle.cell_record.specs.Record.{record_of, head_by};
ghost use Rattle.cell_record.specs.Floats.{floats};
ghost use Rattle.read_grammar.specs.Derives.{vec_of, head_of};
ghost use Rattle.read_records.specs.Words.{value_words};

use super::words::{put_vec, put_words};
use cell_record::CellRecord;
use fields::u32_le;
use math::num::float_of_bits;
use math::vec3::Vec3;

// The three floats that stand in b from off on.
fn vec3_le(b: &[u8], off: u16) -> Vec3
    ensures { result ≡ floats (vec_of b.now off) }
{
    let at = usize::from(off);
    Vec3 {
        x: float_of_bits(u32_le(b, at)),
        y: float_of_bits(u32_le(b, at + 4)),
        z: float_of_bits(u32_le(b, at + 8)),
    }
}

// The record of a cell with this header and this root.
pub fn record_of<'a>(header: &'a [u8], root: &'a [u8]) -> CellRecord
    ensures { result ≡ record_of (head_of header.now root.now) }
{
    let bb_min = vec3_le(root, 0);
    let bb_max = vec3_le(root, 16);
    let bb_size = vec3_le(header, 0x60);
    CellRecord {
        content_flags: u32_le(header, 0x10),
        area_id: u32_le(header, 0x140),
        version_unk2: u32_le(header, 0x160),
        vft: u32_le(header, 0),
        bb_min,
        bb_max,
        bb_size,
    }
}

// Kind, content flags, area id, version and vft.
fn put_values(cell: CellRecord, strip: &mut [u32])
    requires { 14 ≤ length strip.old }
    ensures { strip.new ≡ put 0 (value_words cell) strip.old }
{
    put_words(
        strip,
        0,
        [
            0x1000_0000,
            cell.content_flags,
            cell.area_id,
            cell.version_unk2,
            cell.vft,
        ],
    );
}

// The record's 14 words, at the head of the strip.
pub fn put_cell(cell: CellRecord, strip: &mut [u32])
    requires { 14 ≤ length strip.old }
    ensures { strip.new ≡ put 0 (head_words (head_by cell)) strip.old }
{
    let bb_min = cell.bb_min;
    let bb_max = cell.bb_max;
    let bb_size = cell.bb_size;
    put_values(cell, strip);
    put_vec(bb_min, strip, 5);
    put_vec(bb_max, strip, 8);
    put_vec(bb_size, strip, 11);
}
