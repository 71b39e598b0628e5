// The four lists: vertices, indices and edges, whose items stand in words of work and from there are laid out part by part, and polygons, whose
// records `write_polygons` builds in their blocks. Around the items stand the lists' headers, part tables and offsets.
#![tactic(auto)]

ghost use Rattle.std.specs.Prelude.{◌≡◌, [], ◌∷◌, ◌+◌, ◌-◌, ◌*◌, ◌^◌, ◌≤◌, ◌<◌, length, take, drop};
ghost use Rattle.fields.specs.Bytes.{cat};
ghost use Rattle.fields.specs.Put.{put};
ghost use Rattle.write_blocks.specs.Layout.{behind};
ghost use Rattle.write_blocks.specs.Laid.{Laid};
ghost use Rattle.write_blocks.specs.Lists.{part_sizes, list_sizes, list_blocks};
ghost use Rattle.write_blocks.specs.ListRoom.{ListRoom};
ghost use Rattle.write_lists.specs.Words.{item_of, items_in, number_items};
ghost use Rattle.areas.specs.Tables.{area_ids};
ghost use Rattle.write_vertices.specs.Table.{met};
ghost use Rattle.write_plan.specs.Plan.{boxes};
ghost use Rattle.write_pages.specs.Items.{vertex_items, edge_items, polygon_items};
ghost use Rattle.strip.specs.Rows.{polygons_at, after_polygons};
ghost use Rattle.write_edges.specs.Made.{edge_words, corners_at};
ghost use Rattle.write_polygons.specs.Parts.{parts_of};
ghost use Rattle.fields.specs.Sizes.{edge_size, index_size, list_vft_edges, list_vft_indices, list_vft_polys, list_vft_vertices, poly_size, vertex_size};

use areas::Areas;
use fields::sizes::{
    EDGE_SIZE, INDEX_SIZE, LIST_VFT_EDGES, LIST_VFT_INDICES, LIST_VFT_POLYS, LIST_VFT_VERTICES,
    POLY_SIZE, VERTEX_SIZE,
};
use write_blocks::Layout;
use write_list_blocks::Parts;

// An item of w bytes: the first `whole` of its words, and what is left of it from the next word.
fn put_item(item: &[u32], whole: usize, w: usize, out: &mut [u8], at: usize)
    requires { (whole < length item.now) × (4 * whole ≤ w) × (at + w < 2 ^ 28) }
    ensures { out.new ≡ put at (item_of whole w item.now) out.old }
{
    stores::put_all(out, at, 4, &item[..whole]);
    stores::put_le(out, at + 4 * whole, w - 4 * whole, u64::from(item[whole]));
}

// The items of a part, m of them.
fn put_items(
    words: &[u32],
    from: usize,
    m: usize,
    whole: usize,
    w: usize,
    out: &mut [u8],
    at: usize,
)
    requires { (from + (whole + 1) * m ≤ length words.now) × (4 * whole ≤ w) × (at + w * m < 2 ^ 28) }
    ensures { out.new ≡ put at (cat (items_in whole w m (drop from words.now))) out.old }
{
    let size = whole + 1;
    let end = from + size * m;
    let mut place = at;
    for item in words[from..end].chunks_exact(size) {
        put_item(item, whole, w, out, place);
        place += w;
    }
}

// A part: its block.
fn lay_part(
    out: &mut [u8],
    l: Layout,
    words: &[u32],
    from: usize,
    m: usize,
    whole: usize,
    w: usize,
) -> Layout
    requires { (from + (whole + 1) * m ≤ length words.now) × (4 * whole ≤ w) × (behind l.at (w * m) < 2 ^ 28) }
    ensures { Laid l (cat (items_in whole w m (drop from words.now)) ∷ []) result out.old out.new }
{
    let start = write_blocks::pad(out, l, w * m);
    put_items(words, from, m, whole, w, out, start);
    l.alloc(w * m)
}

// The items of all parts, n of them, whose words stand from `base` on.
fn lay_items(
    out: &mut [u8],
    l: Layout,
    words: &[u32],
    base: usize,
    n: usize,
    whole: usize,
    w: usize,
) -> Layout
    requires { (base + (whole + 1) * n ≤ length words.now) × (4 * whole ≤ w) × ListRoom l.at w n (part_sizes w n) }
    ensures { Laid l (parts_of w n (items_in whole w n (drop base words.now))) result out.old out.new }
{
    let mut next = l;
    let mut from = base;
    for m in Parts::new(w, n) {
        next = lay_part(out, next, words, from, m, whole, w);
        from += (whole + 1) * m;
    }
    next
}

// A list of n items of w bytes that stand in words from `base` on, `whole` + 1 to an item: header, part table, items of each part, offsets.
pub fn write_list(
    out: &mut [u8],
    l: Layout,
    vft: u32,
    words: &[u32],
    base: usize,
    n: usize,
    whole: usize,
    w: usize,
) -> Layout
    requires { (base + (whole + 1) * n ≤ length words.now) × (4 * whole ≤ w) × ListRoom l.at w n (list_sizes w n) }
    ensures { Laid l (list_blocks l.at vft w (items_in whole w n (drop base words.now))) result out.old out.new }
{
    let parts = write_list_blocks::lay_list_front(out, l, vft, w, n);
    let offsets = lay_items(out, parts, words, base, n, whole, w);
    write_list_blocks::lay_offsets(out, offsets, w, n)
}

// The list of the n vertices of the table in work, behind its `buckets` roots of trees.
pub fn lay_vertices(out: &mut [u8], l: Layout, work: &[u32], buckets: usize, n: usize) -> Layout
    requires { (buckets + 2 * n ≤ length work.now) × ListRoom l.at vertex_size n (list_sizes vertex_size n) }
    ensures { Laid l (list_blocks l.at list_vft_vertices vertex_size (vertex_items (met work.now buckets n))) result out.old out.new }
{
    write_list(out, l, LIST_VFT_VERTICES, work, buckets, n, 1, VERTEX_SIZE)
}

// The list of the n indices that stand in work from `from` on.
pub fn lay_indices(out: &mut [u8], l: Layout, work: &[u32], from: usize, n: usize) -> Layout
    requires { (from + n ≤ length work.now) × ListRoom l.at index_size n (list_sizes index_size n) }
    ensures { Laid l (list_blocks l.at list_vft_indices index_size (number_items index_size (take n (drop from work.now)))) result out.old out.new }
{
    write_list(out, l, LIST_VFT_INDICES, work, from, n, 0, INDEX_SIZE)
}

// The list of the edges of the strip's n polygons, which have `corners` corners, by the area table. Its items are made in work from `base` on.
pub fn lay_edges(
    out: &mut [u8],
    l: Layout,
    strip: &[u32],
    n: usize,
    corners: usize,
    areas: Areas,
    work: &mut [u32],
    base: usize,
) -> Layout
    requires { (after_polygons strip.now 14 n ≤ length strip.now) × (corners ≡ length (corners_at strip.now n)) × (base + 2 * corners ≤ length work.old)
        × ListRoom l.at edge_size corners (list_sizes edge_size corners) }
    ensures laid { Laid l (list_blocks l.at list_vft_edges edge_size (edge_items (area_ids areas) (corners_at strip.now n))) result out.old out.new }
    ensures made { work.new ≡ put base (edge_words (area_ids areas) (corners_at strip.now n)) work.old }
{
    write_edges::put_edges(strip, n, &areas.ids, areas.len, work, base);
    write_list(out, l, LIST_VFT_EDGES, work, base, corners, 1, EDGE_SIZE)
}

// The list of the n polygons of a cell with this area id, whose quarter boxes stand in `sides`, three words to each. A record is built in its block.
pub fn lay_polygons(
    out: &mut [u8],
    l: Layout,
    strip: &[u32],
    area_id: u32,
    n: usize,
    sides: &[u32],
) -> Layout
    requires { (after_polygons strip.now 14 n ≤ length strip.now) × (sides.now ≡ boxes (polygons_at strip.now 14 n))
        × ListRoom l.at poly_size n (list_sizes poly_size n) }
    ensures { Laid l (list_blocks l.at list_vft_polys poly_size (polygon_items area_id 0 0 0 (polygons_at strip.now 14 n))) result out.old out.new }
{
    let parts = write_list_blocks::lay_list_front(out, l, LIST_VFT_POLYS, POLY_SIZE, n);
    let offsets = write_polygons::lay_records(out, parts, strip, area_id, n, sides);
    write_list_blocks::lay_offsets(out, offsets, POLY_SIZE, n)
}
