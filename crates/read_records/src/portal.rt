// Portals: 28 bytes each in the pages, 11 words in the strip.
ghost use Rattle.std.specs.Prelude.{◌≡◌, map, ◌+◌, ◌*◌, ◌≤◌, length};
ghost use Rattle.fields.specs.Bytes.{cut};
ghost use Rattle.fields.specs.Put.{put};
ghost use Rattle.fields.specs.Sizes.{portal_size};
ghost use Rattle.strip.specs.Cell.{each, portal_words};
ghost use Rattle.read_grammar.specs.Derives.{portal_of};
ghost use Rattle.read_records.specs.Back.{back_by, back_in};
ghost use Rattle.read_records.specs.Words.{front_words, back_words};

use super::words::{put_position, put_words, shorts_at};
use cell_record::CellRecord;
use fields::sizes::PORTAL_SIZE;
use fields::{u8_le, u16_le, u32_le};
use quantise::short::Frame;

// Kind, angle and flags_unk.
fn put_front(b: &[u8], strip: &mut [u32], at: usize)
    requires { at + 2 ≤ length strip.old }
    ensures { strip.new ≡ put at (front_words b.now) strip.old }
{
    let kind = u32::from(u8_le(b, 0));
    let angle = u32::from(u8_le(b, 1));
    let flags_unk = u32::from(u16_le(b, 2));
    put_words(strip, at, [0x3000_0000 + 0x100 * angle + kind, flags_unk]);
}

// Polygons and areas of both ends; the first of each pair of polygons is read.
fn put_back(b: &[u8], strip: &mut [u32], at: usize)
    requires { at + 3 ≤ length strip.old }
    ensures { strip.new ≡ put at (back_words b.now) strip.old }
{
    let poly_from = u32::from(u16_le(b, 16));
    let poly_to = u32::from(u16_le(b, 20));
    let areas = u32_le(b, 24);
    put_words(
        strip,
        at,
        [
            poly_from + 65536 * poly_to,
            areas % 16384 + 65536 * (areas / 16384 % 16384),
            areas / 0x1000_0000,
        ],
    );
}

fn put_portal(b: &[u8], frame: Frame, strip: &mut [u32], at: usize)
    requires { at + 11 ≤ length strip.old }
    ensures { strip.new ≡ put at (portal_words (portal_of (back_by frame.bb_min frame.bb_size) b.now)) strip.old }
{
    put_front(b, strip, at);
    let from = shorts_at(b, 4);
    let to = shorts_at(b, 10);
    put_position(from, frame, strip, at + 2);
    put_position(to, frame, strip, at + 5);
    put_back(b, strip, at + 8);
}

// The first n portals of a part, from the strip's word `at` on.
pub fn put_portals(portals: &[u8], n: usize, cell: CellRecord, strip: &mut [u32], at: usize)
    requires { (portal_size * n ≤ length portals.now) × (at + 11 * n ≤ length strip.old) }
    ensures { strip.new ≡ put at (each portal_words (map (portal_of (back_in cell)) (cut portal_size n portals.now))) strip.old }
{
    let frame = cell.frame();
    for i in 0..n {
        let from = PORTAL_SIZE * i;
        let to = from + PORTAL_SIZE;
        put_portal(&portals[from..to], frame, strip, at + 11 * i);
    }
}
