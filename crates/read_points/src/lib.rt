// The points of the sector tree: the second pass, over a tree that the first accepted. It writes each point with its shorts as they are, and turns
// them back at the end: the walk, which may be 4,096 deep, then carries no box, and its frames stay small.
#![tactic(auto)]

ghost use Rattle.std.specs.Prelude.{◌≡◌, true, [], ◌∷◌, ◌+◌, ◌*◌, ◌≤◌, length};
ghost use Rattle.fields.specs.Bytes.{cut};
ghost use Rattle.fields.specs.Put.{put};
ghost use Rattle.fields.specs.Sizes.{point_size};
ghost use Rattle.strip.specs.Cell.{point_words};
ghost use Rattle.read_grammar.specs.Trees.{subs_to};
ghost use Rattle.read_grammar.specs.Derives.{point_of};
ghost use Rattle.read_grammar.specs.Formed.{Bytes};
ghost use Rattle.read_records.specs.Back.{back_in};
ghost use Rattle.read_sectors.specs.Sector.{good_data, points_of};
ghost use Rattle.read_sectors.specs.Walk.{walk};
ghost use Rattle.read_points.specs.Write.{as_shorts, points_words, points_in, HasRoom, Written, turned_at, turned};

use cell_record::CellRecord;
use fields::sizes::{POINT_SIZE, SECTOR_DATA_SIZE, SECTOR_SIZE};
use fields::{u8_le, u16_le, u64_le};
use quantise::short::{Frame, Shorts};
use read_records::words::{put_position, put_words};
use read_sectors::sub_at;
use res_reader::ResReader;

// The 4 words of the point whose bytes are b, the position as its shorts.
fn put_point(b: &[u8], strip: &mut [u32], at: usize)
    requires { at + 4 ≤ length strip.old }
    ensures { strip.new ≡ put at (point_words (point_of as_shorts b.now)) strip.old }
{
    let first = 0x4000_0000 + u32::from(u8_le(b, 6)) + 0x100 * u32::from(u8_le(b, 7));
    let x = u32::from(u16_le(b, 0));
    let y = u32::from(u16_le(b, 2));
    let z = u32::from(u16_le(b, 4));
    put_words(strip, at, [first, x, y, z]);
}

// The first n points of a part.
fn put_points(points: &[u8], n: usize, strip: &mut [u32], at: usize)
    requires { (point_size * n ≤ length points.now) × (at + 4 * n ≤ length strip.old) }
    ensures { strip.new ≡ put at (points_words as_shorts (cut point_size n points.now)) strip.old }
{
    for i in 0..n {
        let from = POINT_SIZE * i;
        let to = from + POINT_SIZE;
        put_point(&points[from..to], strip, at + 4 * i);
    }
}

// The points of a sector, where they are good; the word after them.
fn put_sector_points<'a>(
    reader: &ResReader<'a>,
    sector: &'a [u8],
    strip: &mut [u32],
    at: usize,
) -> usize
    requires sector_value { good_data reader.now.system.now reader.now.graphics.now sector.now ≡ true }
    requires sector_in_bounds { at + 4 * length (points_of reader.now.system.now reader.now.graphics.now sector.now) ≤ length strip.old }
    ensures next { result ≡ at + 4 * length (points_of reader.now.system.now reader.now.graphics.now sector.now) }
    ensures content { strip.new ≡ put at (points_words as_shorts (points_of reader.now.system.now reader.now.graphics.now sector.now)) strip.old }
{
    let va = u64_le(sector, 0x2C);
    if va == 0 {
        return at;
    }
    let data = reader.resolve(va, SECTOR_DATA_SIZE);
    let n = usize::from(u16_le(data, 0x1A));
    if n == 0 {
        return at;
    }
    let points = reader.resolve(u64_le(data, 0x10), POINT_SIZE * n);
    put_points(points, n, strip, at);
    at + 4 * n
}

// Where a writing walk stands: the visits left, and the strip's next word.
#[derive(Clone, Copy)]
struct TreeCursor {
    left: usize,
    at: usize,
}

// The points of the sector at va and of all below it. The sections go by reference, as in `read_sectors`.
#[cycle(put_sector_put_subs)]
fn put_sector<'a>(
    reader: &ResReader<'a>,
    va: u64,
    strip: &mut [u32],
    from: TreeCursor,
) -> TreeCursor
    requires { HasRoom (walk reader.now.system.now reader.now.graphics.now from.left (va ∷ [])) from.at (length strip.old) }
    ensures { Written (walk reader.now.system.now reader.now.graphics.now from.left (va ∷ [])) from.at strip.old result strip.new }
{
    let sector = reader.resolve(va, SECTOR_SIZE);
    let next = put_sector_points(reader, sector, strip, from.at);
    let on = TreeCursor {
        left: from.left - 1,
        at: next,
    };
    put_subs(reader, sector, strip, on)
}

// The points of the trees at a sector's four subs, the last sub first.
#[cycle(put_sector_put_subs)]
fn put_subs<'a>(
    reader: &ResReader<'a>,
    sector: &'a [u8],
    strip: &mut [u32],
    start: TreeCursor,
) -> TreeCursor
    requires { HasRoom (walk reader.now.system.now reader.now.graphics.now start.left (subs_to sector.now 4)) start.at (length strip.old) }
    ensures { Written (walk reader.now.system.now reader.now.graphics.now start.left (subs_to sector.now 4)) start.at strip.old result strip.new }
{
    let mut cursor = start;
    for i in (0..4).rev() {
        let va = sub_at(sector, i);
        if va != 0 {
            cursor = put_sector(reader, va, strip, cursor);
        }
    }
    cursor
}

// The position of the point at `at`, turned back.
fn turn_point(strip: &mut [u32], at: usize, frame: Frame)
    requires { at + 4 ≤ length strip.old }
    ensures { strip.new ≡ turned_at frame.bb_min frame.bb_size at strip.old }
{
    let q = Shorts {
        x: (strip[at + 1] % 0x1_0000) as u16,
        y: (strip[at + 2] % 0x1_0000) as u16,
        z: (strip[at + 3] % 0x1_0000) as u16,
    };
    put_position(q, frame, strip, at + 1);
}

// Those of the n points from `at` on.
fn turn_points(strip: &mut [u32], at: usize, n: usize, frame: Frame)
    requires { at + 4 * n ≤ length strip.old }
    ensures { strip.new ≡ turned frame.bb_min frame.bb_size n at strip.old }
{
    for i in 0..n {
        turn_point(strip, at + 4 * i, frame);
    }
}

// That a section holds bytes, which a proof is told of a slice that is a parameter, and not of one in a struct. It does nothing.
fn bytes_known(section: &[u8])
    ensures { Bytes section.now }
{}

// The points of the tree at root, in the cell's box, go to the strip from the word `at` on; the word after them. It writes
// what `read_sector_tree` accepted, and has nothing to refuse.
pub fn put_tree_points<'a>(
    reader: ResReader<'a>,
    root: u64,
    cell: CellRecord,
    strip: &mut [u32],
    at: usize,
) -> usize
    requires { HasRoom (walk reader.system.now reader.graphics.now 4096 (root ∷ [])) at (length strip.old) }
    ensures next { result ≡ at + 4 * length (points_in (walk reader.entry.system.now reader.entry.graphics.now 4096 (root ∷ []))) }
    ensures content { strip.new ≡ put at (points_words (back_in cell) (points_in (walk reader.entry.system.now reader.entry.graphics.now 4096 (root ∷ [])))) strip.old }
{
    bytes_known(reader.system);
    bytes_known(reader.graphics);
    let start = TreeCursor { left: 4096, at };
    let next = put_sector(&reader, root, strip, start).at;
    turn_points(strip, at, (next - at) / 4, cell.frame());
    next
}
