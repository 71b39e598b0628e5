// The blocks behind the sectors: portals and links. Nothing here refuses: what a caller lends was checked before.
#![tactic(auto)]

ghost use Rattle.std.specs.Prelude.{◌≡◌, [], ◌∷◌, ◌+◌, ◌*◌, ◌^◌, ◌≤◌, ◌<◌, length};
ghost use Rattle.fields.specs.Bytes.{les, cat};
ghost use Rattle.fields.specs.Put.{put};
ghost use Rattle.fields.specs.Rows.{row_bytes, pack};
ghost use Rattle.fields.specs.Sizes.{portal_size};
ghost use Rattle.strip.specs.Reading.{nav_portal_at, low16, high16};
ghost use Rattle.strip.specs.Rows.{portals_at, polygons_at, after_polygons};
ghost use Rattle.write_blocks.specs.Layout.{end_of};
ghost use Rattle.write_blocks.specs.Laid.{Laid};
ghost use Rattle.write_pages.specs.Items.{links_of};
ghost use Rattle.write_blocks.specs.Optional.{block_of, size_of};
ghost use Rattle.write_pages.specs.Pages.{portal_row, portal_items};

use fields::sizes::PORTAL_SIZE;
use math::vec3::floats_at;
use quantise::short::Frame;
use write_blocks::Layout;

// A portal's areas in one word: area_from (14 bits), area_to (14), area_unk (4). Both areas stand in w.
fn portal_areas(w: u32, unk: u32) -> u32
    ensures { result ≡ pack ((14, low16 w) ∷ (14, high16 w) ∷ (4, unk) ∷ []) }
{
    w % 0x4000 + 0x4000 * (w / 0x1_0000 % 0x4000) + 0x1000_0000 * (unk % 16)
}

// A portal, 28 bytes, from its record at `at`.
fn put_portal(out: &mut [u8], to: usize, strip: &[u32], at: usize, frame: Frame)
    requires { at + 11 ≤ length strip.now }
    ensures { out.new ≡ put to (row_bytes (portal_row frame.bb_min frame.bb_size (nav_portal_at strip.now at))) out.old }
{
    let a = frame.shorts_of(floats_at(strip, at + 2));
    let b = frame.shorts_of(floats_at(strip, at + 5));
    let polys = strip[at + 8];
    let areas = portal_areas(strip[at + 9], strip[at + 10]);
    let words = [
        strip[at],
        strip[at + 1],
        u32::from(a.x),
        u32::from(a.y),
        u32::from(a.z),
        u32::from(b.x),
        u32::from(b.y),
        u32::from(b.z),
        polys,
        polys,
        polys / 0x1_0000,
        polys / 0x1_0000,
        areas,
        areas / 0x1_0000,
    ];
    stores::put_all(out, to, 2, &words);
}

// n portals, from the record at `first` on.
fn put_portals(out: &mut [u8], start: usize, strip: &[u32], first: usize, n: usize, frame: Frame)
    requires { (first + 11 * n ≤ length strip.now) × (start + portal_size * n < 2 ^ 28) }
    ensures { out.new ≡ put start (cat (portal_items frame.bb_min frame.bb_size (portals_at strip.now first n))) out.old }
{
    for i in 0..n {
        put_portal(out, start + PORTAL_SIZE * i, strip, first + 11 * i, frame);
    }
}

// The block of n portals, from the record at `first` on: none where there is no portal.
pub fn lay_portals(
    out: &mut [u8],
    l: Layout,
    strip: &[u32],
    first: usize,
    n: usize,
    frame: Frame,
) -> Layout
    requires { (first + 11 * n ≤ length strip.now) × (end_of l.at (size_of (portal_size * n)) < 2 ^ 28) }
    ensures { Laid l (block_of (cat (portal_items frame.bb_min frame.bb_size (portals_at strip.now first n)))) result out.old out.new }
{
    if n == 0 {
        return l;
    }
    let start = write_blocks::pad(out, l, PORTAL_SIZE * n);
    put_portals(out, start, strip, first, n, frame);
    l.alloc(PORTAL_SIZE * n)
}

// The links of n polygons, 2 bytes each.
fn put_links(out: &mut [u8], start: usize, strip: &[u32], n: usize)
    requires { (after_polygons strip.now 14 n ≤ length strip.now) × (start + 2 * length (links_of (polygons_at strip.now 14 n)) < 2 ^ 28) }
    ensures { out.new ≡ put start (les 2 (links_of (polygons_at strip.now 14 n))) out.old }
{
    let mut to = start;
    let mut at = 14;
    for _ in 0..n {
        let p = strip::poly_at(strip, at);
        stores::put_all(out, to, 2, &strip[p.link_at..p.vertex_at]);
        to += 2 * p.links;
        at = p.next;
    }
}

// The block of the links of n polygons, `count` of them: none where there is no link.
pub fn lay_links(out: &mut [u8], l: Layout, strip: &[u32], n: usize, count: usize) -> Layout
    requires { (after_polygons strip.now 14 n ≤ length strip.now) × (count ≡ length (links_of (polygons_at strip.now 14 n))) × (end_of l.at (size_of (2 * count)) < 2 ^ 28) }
    ensures { Laid l (block_of (les 2 (links_of (polygons_at strip.now 14 n)))) result out.old out.new }
{
    if count == 0 {
        return l;
    }
    let start = write_blocks::pad(out, l, 2 * count);
    put_links(out, start, strip, n);
    l.alloc(2 * count)
}
