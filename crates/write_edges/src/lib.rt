// The items of the edge list, made in words of work: two to a corner, one for each half of its edge.
#![tactic(auto)]

ghost use Rattle.std.specs.Prelude.{cond, ◌≡◌, ◌+◌, ◌*◌, ◌%◌, ◌^◌, ◌≤◌, ◌<◌, ltb, length, take};
ghost use Rattle.fields.specs.Put.{put};
ghost use Rattle.strip.specs.Reading.{half_at, polygon_of};
ghost use Rattle.strip.specs.Rows.{after_polygons};
ghost use Rattle.distinct.specs.Distinct.{index_of};
ghost use Rattle.write_pages.specs.Items.{half_of, no_half};
ghost use Rattle.write_edges.specs.Made.{edge_words, corners_on, corners_at};

use strip::Poly;

// The index of an area, of which a half holds five bits.
fn index_bits(ids: &[u32], len: usize, id: u32) -> u32
    ensures { result ≡ index_of (take len ids.now) id % 32 }
{
    (distinct::index_of(ids, len, id) % 32) as u32
}

// The half of edge i whose three words stand at `at`, or that of NONE where there are only `edges`.
fn half_item(strip: &[u32], at: usize, i: usize, edges: usize, ids: &[u32], len: usize) -> u32
    requires { i < edges → at + 3 ≤ length strip.now }
    ensures { result ≡ half_of (take len ids.now) (cond (ltb i edges) (half_at strip.now at) no_half) }
{
    if i < edges {
        let last = strip[at + 2];
        let index = index_bits(ids, len, strip[at]);
        return areas::edge::half_word(index, strip[at + 1], last / 65536, last % 65536);
    }
    let index = index_bits(ids, len, areas::ADJACENT_NONE);
    areas::edge::half_word(index, areas::ADJACENT_NONE, 0, 0)
}

// The edges of a polygon, from `base` on.
fn put_run(strip: &[u32], p: Poly, ids: &[u32], len: usize, work: &mut [u32], base: usize)
    requires { (p.edge_at + 6 * p.edges ≤ length strip.now) × (p.edge_at + 6 * p.vertices < 2 ^ 63)
        × (base + 2 * p.vertices ≤ length work.old) }
    ensures { work.new ≡ put base (edge_words (take len ids.now) (corners_on strip.now (polygon_of strip.now p))) work.old }
{
    let edges = p.edges;
    for i in 0..p.vertices {
        let e = p.edge_at + 6 * i;
        let a = half_item(strip, e, i, edges, ids, len);
        let b = half_item(strip, e + 3, i, edges, ids, len);
        let place = base + 2 * i;
        work[place] = a;
        work[place + 1] = b;
    }
}

// The edges of n polygons, from `base` on.
pub fn put_edges(strip: &[u32], n: usize, ids: &[u32], len: usize, work: &mut [u32], base: usize)
    requires { (after_polygons strip.now 14 n ≤ length strip.now) × (base + 2 * length (corners_at strip.now n) ≤ length work.old) }
    ensures { work.new ≡ put base (edge_words (take len ids.now) (corners_at strip.now n)) work.old }
{
    let mut at: usize = 14;
    let mut place = base;
    for _i in 0..n {
        let p = strip::poly_at(strip, at);
        put_run(strip, p, ids, len, work, place);
        place += 2 * p.vertices;
        at = p.next;
    }
}
