// The items of the polygon list, each built in its place in the block of its part.
#![tactic(auto)]

ghost use Rattle.std.specs.Prelude.{◌≡◌, [], ◌∷◌, ◌+◌, ◌*◌, ◌%◌, ◌^◌, ◌≤◌, ◌<◌, length, get_or};
ghost use Rattle.fields.specs.Bytes.{les, cat};
ghost use Rattle.fields.specs.Put.{put};
ghost use Rattle.fields.specs.Sizes.{poly_size};
ghost use Rattle.write_blocks.specs.Layout.{behind};
ghost use Rattle.write_blocks.specs.Laid.{Laid};
ghost use Rattle.write_blocks.specs.Lists.{part_sizes};
ghost use Rattle.write_blocks.specs.ListRoom.{ListRoom};
ghost use Rattle.strip.specs.Reading.{polygon_of};
ghost use Rattle.write_pages.specs.Items.{part_word};
ghost use Rattle.write_polygons.specs.Parts.{parts_of};
ghost use Rattle.write_polygons.specs.Made.{pair_word, count_bits, polygon_words};
ghost use Rattle.write_polygons.specs.Records.{start, following, past, records_at, Standing};

use fields::sizes::POLY_SIZE;
use strip::Poly;
use write_blocks::Layout;
use write_list_blocks::Parts;

// As many records take at most a page.
const POLYS_PER_PART: usize = 341;

fn pair_word(a: u32, b: u32) -> u32
    ensures { result ≡ pair_word a b }
{
    a % 65536 + 65536 * (b % 65536)
}

fn low_bits(x: usize) -> u32
    ensures { result ≡ x % 65536 }
{
    (x % 65536) as u32
}

fn count_bits(vertices: usize) -> u32
    ensures { result ≡ count_bits vertices }
{
    (vertices % 2048 * 32) as u32
}

// The word at 0x2C.
fn part_word(k: usize, links: usize, before: usize) -> u32
    ensures { result ≡ part_word k links before }
{
    (k / POLYS_PER_PART % 256 * 16 + links % 8 * 4096 + before % 131072 * 32768) as u32
}

// Where a polygon stands: its first word in the strip, its number, and how many indices and links come before its own.
#[derive(Clone, Copy)]
pub struct PolyCursor {
    pub at: usize,
    pub number: usize,
    pub start: usize,
    pub links: usize,
}

// Behind the polygon p.
fn behind_polygon(c: PolyCursor, p: Poly) -> PolyCursor
    requires { (c.number + 1 < 2 ^ 64) × (c.start + p.vertices < 2 ^ 64) × (c.links + p.links < 2 ^ 64) }
    ensures { result ≡ following c p }
{
    PolyCursor {
        at: p.next,
        number: c.number + 1,
        start: c.start + p.vertices,
        links: c.links + p.links,
    }
}

// A polygon's record, at `place`. The words of its quarter box stand in `sides`, three to a polygon.
fn put_polygon(
    strip: &[u32],
    p: Poly,
    own: u32,
    c: PolyCursor,
    sides: &[u32],
    out: &mut [u8],
    place: usize,
)
    requires { (p.flags_at + 3 ≤ length strip.now) × (3 * c.number + 3 ≤ length sides.now) }
    ensures { out.new ≡ put place
        (les 4 (polygon_words own c.number c.start c.links (get_or sides.now (3 * c.number) 0) (get_or sides.now (3 * c.number + 1) 0)
        (get_or sides.now (3 * c.number + 2) 0) (polygon_of strip.now p))) out.old }
{
    let flags_at = p.flags_at;
    let side = 3 * c.number;
    let first = pair_word(strip[flags_at], count_bits(p.vertices));
    let second = pair_word(low_bits(c.start), own);
    let last = part_word(c.number, p.links, c.links);
    let words = [
        first,
        second,
        0,
        0,
        0,
        0,
        sides[side],
        sides[side + 1],
        sides[side + 2],
        strip[flags_at + 1],
        strip[flags_at + 2],
        last,
    ];
    stores::put_all(out, place, 4, &words);
}

// The records of m polygons from c on, at `place`. The answer stands behind them.
fn put_records(
    strip: &[u32],
    own: u32,
    c: PolyCursor,
    m: usize,
    sides: &[u32],
    out: &mut [u8],
    place: usize,
) -> PolyCursor
    requires { Standing strip.now sides.now c m × (place + poly_size * m < 2 ^ 28) }
    ensures cursor { result ≡ past strip.now c m }
    ensures stored { out.new ≡ put place (cat (records_at own strip.now c m)) out.old }
{
    let mut next = c;
    let mut to = place;
    for _ in 0..m {
        let p = strip::poly_at(strip, next.at);
        let after = behind_polygon(next, p);
        put_polygon(strip, p, own, next, sides, out, to);
        next = after;
        to += POLY_SIZE;
    }
    next
}

// What stands behind a part.
#[derive(Clone, Copy)]
struct Part {
    layout: Layout,
    cursor: PolyCursor,
}

// A part: the block of m records from c on.
fn lay_part(
    out: &mut [u8],
    l: Layout,
    strip: &[u32],
    own: u32,
    c: PolyCursor,
    m: usize,
    sides: &[u32],
) -> Part
    requires { Standing strip.now sides.now c m × (behind l.at (poly_size * m) < 2 ^ 28) }
    ensures cursor { result.cursor ≡ past strip.now c m }
    ensures laid { Laid l (cat (records_at own strip.now c m) ∷ []) result.layout out.old out.new }
{
    let place = write_blocks::pad(out, l, POLY_SIZE * m);
    let next = put_records(strip, own, c, m, sides, out, place);
    Part {
        layout: l.alloc(POLY_SIZE * m),
        cursor: next,
    }
}

// The records of all parts, n of them.
pub fn lay_records(
    out: &mut [u8],
    l: Layout,
    strip: &[u32],
    own: u32,
    n: usize,
    sides: &[u32],
) -> Layout
    requires { Standing strip.now sides.now start n × ListRoom l.at poly_size n (part_sizes poly_size n) }
    ensures { Laid l (parts_of poly_size n (records_at own strip.now start n)) result out.old out.new }
{
    let mut layout = l;
    let mut next = PolyCursor {
        at: 14,
        number: 0,
        start: 0,
        links: 0,
    };
    for m in Parts::new(POLY_SIZE, n) {
        let part = lay_part(out, layout, strip, own, next, m, sides);
        layout = part.layout;
        next = part.cursor;
    }
    layout
}
