// Pass two over a cell's polygons: it writes the words of those that pass one accepted, and cannot fail.
#![tactic(auto)]

ghost use Rattle.std.specs.Prelude.{◌≡◌, map, ◌+◌, ◌*◌, ◌≤◌, length};
ghost use Rattle.fields.specs.Bytes.{cut};
ghost use Rattle.fields.specs.Put.{put};
ghost use Rattle.fields.specs.Sizes.{edge_size, index_size, poly_size, vertex_size};
ghost use Rattle.strip.specs.Cell.{polygon_words, each};
ghost use Rattle.read_grammar.specs.Polygons.{start_of, count_of};
ghost use Rattle.read_lists.specs.Lists.{total};
ghost use Rattle.read_lists.specs.Listed.{Readable};
ghost use Rattle.read_polygon_words.specs.Front.{links_of};
ghost use Rattle.read_list_set.specs.Items.{items_in};
ghost use Rattle.read_polygon_tally.specs.Tally.{size_of};
ghost use Rattle.read_polygon_sides.specs.Sides.{OpenIn, InsideOf};
ghost use Rattle.read_polygons.specs.Polygons.{limits_of, polygon_made};
ghost use Rattle.read_polygons.specs.Passes.{source_in, PutBy, Passed};

use fields::sizes::POLY_SIZE;
use fields::u16_le;
use read_lists::{list_run, list_start, walk_to};
use read_polygon_sides::{Cursors, Pages, put_sides};
use read_polygon_words::{link_count, put_front};

// Where a writer of polygons stands: the strip's next word, and the cursors.
#[derive(Clone, Copy)]
pub struct PolygonCursor {
    pub at: usize,
    pub cursors: Cursors,
}

// The polygon whose 48 bytes are rec, from the strip's word `at` on.
fn put_polygon(
    pages: &Pages,
    rec: &[u8],
    from: Cursors,
    out: &mut [u32],
    at: usize,
) -> PolygonCursor
    requires { OpenIn pages.now from × InsideOf pages.now (start_of rec.now) (count_of rec.now) × (at + size_of (length (links_of pages.now.links.now)) rec.now ≤ length out.old) }
    ensures { PutBy pages.now (polygon_words (polygon_made (source_in pages.now) rec.now)) out.old at result out.new }
{
    let n = link_count(rec, pages.links.len() / 2);
    let count = (u16_le(rec, 2) / 32 % 2048) as usize;
    let start = u16_le(rec, 4) as usize;
    put_front(rec, pages.links, n, count, out, at);
    let next = at + 4 + n;
    let cursors = put_sides(pages, start, count, from, out, next);
    PolygonCursor {
        at: next + 9 * count,
        cursors,
    }
}

// The first m polygons of `run`.
fn put_run(
    pages: &Pages,
    run: &[u8],
    m: usize,
    from: Cursors,
    out: &mut [u32],
    at: usize,
) -> PolygonCursor
    requires { OpenIn pages.now from × (poly_size * m ≤ length run.now)
        × Passed (limits_of (source_in pages.now)) (source_in pages.now).indices 0 (cut poly_size m run.now) at (length out.old) }
    ensures { PutBy pages.now (each polygon_words (map (polygon_made (source_in pages.now)) (cut poly_size m run.now))) out.old at result out.new }
{
    let mut c = from;
    let mut e = at;
    for k in 0..m {
        let low = POLY_SIZE * k;
        let high = low + POLY_SIZE;
        let r = put_polygon(pages, &run[low..high], c, out, e);
        e = r.at;
        c = r.cursors;
    }
    PolygonCursor { at: e, cursors: c }
}

// The n polygons of a list, from the strip's word `at` on; the word after them.
pub fn put_polygons(pages: &Pages, polys: &[u8], n: usize, out: &mut [u32], at: usize) -> usize
    requires readable { Readable pages.now.reader.system.now pages.now.reader.graphics.now vertex_size pages.now.vertices.now × Readable pages.now.reader.system.now pages.now.reader.graphics.now index_size pages.now.indices.now × Readable pages.now.reader.system.now pages.now.reader.graphics.now edge_size pages.now.edges.now × Readable pages.now.reader.system.now pages.now.reader.graphics.now poly_size polys.now × (n ≡ total polys.now) }
    requires passed { Passed (limits_of (source_in pages.now)) (source_in pages.now).indices 0 (items_in pages.now.reader.system.now pages.now.reader.graphics.now poly_size polys.now) at (length out.old) }
    ensures next { result ≡ at + length (each polygon_words (map (polygon_made (source_in pages.now)) (items_in pages.now.reader.system.now pages.now.reader.graphics.now poly_size polys.now))) }
    ensures content { out.new ≡ put at (each polygon_words (map (polygon_made (source_in pages.now)) (items_in pages.now.reader.system.now pages.now.reader.graphics.now poly_size polys.now))) out.old }
{
    let mut c = Cursors {
        vertices: list_start(pages.vertices),
        indices: list_start(pages.indices),
        edges: list_start(pages.edges),
    };
    let mut p = list_start(polys);
    let mut e = at;
    let mut i = 0;
    // A turn takes the polygons of one part, so the step is the part's: no `for`, as in `put_edges` of `read_polygon_sides`.
    while i < n {
        p = walk_to(polys, p, i);
        let run = list_run(pages.reader, polys, POLY_SIZE, p, i);
        let m = run.len() / POLY_SIZE;
        let r = put_run(pages, run, m, c, out, e);
        e = r.at;
        c = r.cursors;
        i += m;
    }
    e
}
