// The vertices and edges of a polygon, by the cursors over their lists. Nothing here can fail: pass one looked at the run.
#![tactic(auto)]

ghost use Rattle.std.specs.Prelude.{◌≡◌, true, map, ◌+◌, ◌*◌, ◌≤◌, ◌<◌, length, take, drop};
ghost use Rattle.fields.specs.Bytes.{cut, le_at};
ghost use Rattle.fields.specs.Put.{put};
ghost use Rattle.fields.specs.Sizes.{edge_size, index_size, vertex_size};
ghost use Rattle.strip.specs.Cell.{vec_words, edge_words, each};
ghost use Rattle.read_grammar.specs.Polygons.{edge_of};
ghost use Rattle.read_grammar.specs.Derives.{area_of};
ghost use Rattle.read_lists.specs.Lists.{total};
ghost use Rattle.read_lists.specs.Listed.{Readable};
ghost use Rattle.read_lists.specs.Cursors.{AtPart};
ghost use Rattle.read_records.specs.Back.{back_by};
ghost use Rattle.read_polygon_words.specs.Words.{all_below};
ghost use Rattle.read_list_set.specs.Items.{items_in};
ghost use Rattle.read_polygon_sides.specs.Sides.{sides, OpenIn, InsideOf, Near};
ghost use Rattle.read_polygon_sides.specs.Corner.{corner};

use fields::sizes::{EDGE_SIZE, INDEX_SIZE, VERTEX_SIZE};
use quantise::short::Frame;
use read_edge_words::put_edge_run;
use read_lists::{Cursor, list_run, seek};
use read_polygon_words::{index_at, put_vertex};
use res_reader::ResReader;

// What polygons are made from: the reader of the two sections, the part tables of the three lists, the bytes of the link table, the header, and the cell's box.
#[derive(Clone, Copy)]
pub struct Pages<'a> {
    pub reader: ResReader<'a>,
    pub vertices: &'a [u8],
    pub indices: &'a [u8],
    pub edges: &'a [u8],
    pub links: &'a [u8],
    pub header: &'a [u8],
    pub frame: Frame,
}

// Where the cursors over the three lists stand.
#[derive(Clone, Copy)]
pub struct Cursors {
    pub vertices: Cursor,
    pub indices: Cursor,
    pub edges: Cursor,
}

// Two of them.
#[derive(Clone, Copy)]
pub struct Corners {
    pub vertices: Cursor,
    pub indices: Cursor,
}

// A run of edges, part by part; where the cursor stands then.
fn put_edges(
    pages: &Pages,
    from: Cursor,
    start: usize,
    count: usize,
    out: &mut [u32],
    at: usize,
) -> Cursor
    requires { Readable pages.now.reader.system.now pages.now.reader.graphics.now edge_size pages.now.edges.now × AtPart pages.now.edges.now from × (start + count ≤ total pages.now.edges.now) × (at + 6 * count ≤ length out.old) }
    ensures cursor { AtPart pages.now.edges.now result }
    ensures content { out.new ≡ put at (each edge_words (map (edge_of (area_of pages.now.header.now)) (take count (drop start (items_in pages.now.reader.system.now pages.now.reader.graphics.now edge_size pages.now.edges.now))))) out.old }
{
    let mut c = from;
    let mut k = 0;
    // A turn takes as many items as the cursor's part holds, so the step is the part's; a `for` has none such, and an iterator would have to hand its cursor back.
    while k < count {
        c = seek(pages.edges, c, start + k);
        let run = list_run(pages.reader, pages.edges, EDGE_SIZE, c, start + k);
        let n = (run.len() / EDGE_SIZE).min(count - k);
        put_edge_run(pages.header, run, n, out, at + 6 * k);
        k += n;
    }
    c
}

// The vertices that indices `from` to n of `run` name, as long as they stand in `part`, which holds `count` of them, the first with number `first`; where it ends.
fn put_near(
    part: &[u8],
    first: usize,
    count: usize,
    frame: Frame,
    run: &[u8],
    from: usize,
    n: usize,
    out: &mut [u32],
    at: usize,
) -> usize
    requires { (vertex_size * count ≤ length part.now) × (index_size * n ≤ length run.now) × (at + 3 * n ≤ length out.old) × (from < n) × (first ≤ le_at 2 run.now (index_size * from)) × (le_at 2 run.now (index_size * from) < first + count) }
    ensures progress { from < result }
    ensures content { Near (back_by frame.bb_min frame.bb_size) part.now first count run.now from n at out.old result out.new }
{
    for k in from..n {
        let j = index_at(run, k);
        if j < first || count <= j - first {
            return k;
        }
        let low = VERTEX_SIZE * (j - first);
        let high = low + VERTEX_SIZE;
        put_vertex(&part[low..high], frame, out, at + 3 * k);
    }
    n
}

// The vertices that the first n indices of `run` name. The part of one is looked up, and serves for those behind it.
fn put_vertex_run(
    pages: &Pages,
    from: Cursor,
    run: &[u8],
    n: usize,
    out: &mut [u32],
    at: usize,
) -> Cursor
    requires readable { Readable pages.now.reader.system.now pages.now.reader.graphics.now vertex_size pages.now.vertices.now × AtPart pages.now.vertices.now from × (index_size * n ≤ length run.now) × (at + 3 * n ≤ length out.old) }
    requires run_value { all_below (total pages.now.vertices.now) (cut index_size n run.now) ≡ true }
    ensures cursor { AtPart pages.now.vertices.now result }
    ensures content { out.new ≡ put at (each vec_words (map (corner (back_by pages.now.frame.bb_min pages.now.frame.bb_size) (items_in pages.now.reader.system.now pages.now.reader.graphics.now vertex_size pages.now.vertices.now)) (cut index_size n run.now))) out.old }
{
    let mut d = from;
    let mut k = 0;
    // A turn goes as far as the indices stay in one part.
    while k < n {
        d = seek(pages.vertices, d, index_at(run, k));
        let first = d.first;
        let count = d.count;
        let part = list_run(pages.reader, pages.vertices, VERTEX_SIZE, d, first);
        k = put_near(part, first, count, pages.frame, run, k, n, out, at);
    }
    d
}

// A run of vertices by their indices, part by part.
fn put_vertices(
    pages: &Pages,
    from: Corners,
    start: usize,
    count: usize,
    out: &mut [u32],
    at: usize,
) -> Corners
    requires readable { Readable pages.now.reader.system.now pages.now.reader.graphics.now vertex_size pages.now.vertices.now × Readable pages.now.reader.system.now pages.now.reader.graphics.now index_size pages.now.indices.now × AtPart pages.now.vertices.now from.vertices × AtPart pages.now.indices.now from.indices }
    requires count_bound { (start + count ≤ total pages.now.indices.now) × (at + 3 * count ≤ length out.old) × (all_below (total pages.now.vertices.now) (take count (drop start (items_in pages.now.reader.system.now pages.now.reader.graphics.now index_size pages.now.indices.now))) ≡ true) }
    ensures vertices { AtPart pages.now.vertices.now result.vertices }
    ensures indices { AtPart pages.now.indices.now result.indices }
    ensures content { out.new ≡ put at (each vec_words (map (corner (back_by pages.now.frame.bb_min pages.now.frame.bb_size) (items_in pages.now.reader.system.now pages.now.reader.graphics.now vertex_size pages.now.vertices.now)) (take count (drop start (items_in pages.now.reader.system.now pages.now.reader.graphics.now index_size pages.now.indices.now))))) out.old }
{
    let mut c = from.indices;
    let mut d = from.vertices;
    let mut k = 0;
    // As in `put_edges`.
    while k < count {
        c = seek(pages.indices, c, start + k);
        let run = list_run(pages.reader, pages.indices, INDEX_SIZE, c, start + k);
        let n = (run.len() / INDEX_SIZE).min(count - k);
        d = put_vertex_run(pages, d, run, n, out, at + 3 * k);
        k += n;
    }
    Corners {
        vertices: d,
        indices: c,
    }
}

// A polygon's vertices and edges.
pub fn put_sides(
    pages: &Pages,
    start: usize,
    count: usize,
    from: Cursors,
    out: &mut [u32],
    at: usize,
) -> Cursors
    requires lists_open { OpenIn pages.now from × (at + 9 * count ≤ length out.old) }
    requires inside { InsideOf pages.now start count }
    ensures cursors { OpenIn pages.now result }
    ensures content { out.new ≡ put at (sides (area_of pages.now.header.now) (back_by pages.now.frame.bb_min pages.now.frame.bb_size) (items_in pages.now.reader.system.now pages.now.reader.graphics.now vertex_size pages.now.vertices.now) (items_in pages.now.reader.system.now pages.now.reader.graphics.now index_size pages.now.indices.now) (items_in pages.now.reader.system.now pages.now.reader.graphics.now edge_size pages.now.edges.now) start count) out.old }
{
    let corners = Corners {
        vertices: from.vertices,
        indices: from.indices,
    };
    let two = put_vertices(pages, corners, start, count, out, at);
    let e = put_edges(pages, from.edges, start, count, out, at + 3 * count);
    Cursors {
        vertices: two.vertices,
        indices: two.indices,
        edges: e,
    }
}
