// The words of a polygon's front and vertices, from bytes that are at hand. Nothing here can fail: pass two calls it for what pass one accepted. Edges are `read_edge_words`.
#![tactic(auto)]

ghost use Rattle.std.specs.Prelude.{◌≡◌, ◌+◌, ◌*◌, ◌≤◌, length};
ghost use Rattle.fields.specs.Bytes.{cut, le_at};
ghost use Rattle.fields.specs.Put.{put};
ghost use Rattle.fields.specs.Sizes.{index_size};
ghost use Rattle.strip.specs.Cell.{vec_words};
ghost use Rattle.read_grammar.specs.Polygons.{vertex_of, link_run, count_of};
ghost use Rattle.read_records.specs.Back.{back_by};
ghost use Rattle.read_polygon_words.specs.Words.{link_start, links_named, link_count, all_below};
ghost use Rattle.read_polygon_words.specs.Front.{links_of, front_of};

use fields::sizes::INDEX_SIZE;
use fields::{u16_le, u32_le};
use quantise::short::Frame;
use read_records::words::{put_position, put_words, shorts_at};

// A vertex, 6 bytes: the bits of its coordinates.
pub fn put_vertex(v: &[u8], frame: Frame, out: &mut [u32], at: usize)
    requires { at + 3 ≤ length out.old }
    ensures { out.new ≡ put at (vec_words (vertex_of (back_by frame.bb_min frame.bb_size) v.now)) out.old }
{
    put_position(shorts_at(v, 0), frame, out, at);
}

// Index k of `run`. Two bytes are lent to the reader of numbers, which then needs no look at the end.
pub fn index_at(run: &[u8], k: usize) -> usize
    requires { index_size * k + index_size ≤ length run.now }
    ensures { result ≡ le_at 2 run.now (index_size * k) }
{
    let from = INDEX_SIZE * k;
    let to = from + INDEX_SIZE;
    usize::from(u16_le(&run[from..to], 0))
}

// Whether the first n indices of `run` are below a limit.
pub fn all_below(run: &[u8], n: usize, limit: usize) -> bool
    requires { index_size * n ≤ length run.now }
    ensures { result ≡ all_below limit (cut index_size n run.now) }
{
    // no `all` over the range: tried, and what it returns didn't close
    for k in 0..n {
        if limit <= index_at(run, k) {
            return false;
        }
    }
    true
}

// How many links a polygon has by a table of n: none where their run is not inside it.
pub fn link_count(rec: &[u8], n: usize) -> usize
    ensures count { result ≡ link_count n rec.now }
    ensures bound { result ≤ 7 }
{
    let w = u32_le(rec, 0x2C);
    let start = (w / 32768 % 131072) as usize;
    let named = (w / 4096 % 8) as usize;
    if start + named <= n { named } else { 0 }
}

// A polygon's n links.
fn put_links(rec: &[u8], links: &[u8], n: usize, out: &mut [u32], at: usize)
    requires { (n ≡ link_count (length (links_of links.now)) rec.now) × (at + n ≤ length out.old) }
    ensures { out.new ≡ put at (link_run (links_of links.now) (link_start rec.now) (links_named rec.now)) out.old }
{
    let start = (u32_le(rec, 0x2C) / 32768 % 131072) as usize;
    for k in 0..n {
        out[at + k] = u32::from(u16_le(links, 2 * (start + k)));
    }
}

// The words before a polygon's vertices: n links, `count` vertices and as many edges.
pub fn put_front(rec: &[u8], links: &[u8], n: usize, count: usize, out: &mut [u32], at: usize)
    requires { (n ≡ link_count (length (links_of links.now)) rec.now) × (n ≤ 7) × (count ≡ count_of rec.now) × (at + 4 + n ≤ length out.old) }
    ensures { out.new ≡ put at (front_of (links_of links.now) rec.now) out.old }
{
    let first = 0x2000_0000 + (n * 0x100_0000 + (count * 0x1000 + count));
    put_words(
        out,
        at,
        [
            first as u32,
            u32::from(u16_le(rec, 0)),
            u32_le(rec, 0x24),
            u32_le(rec, 0x28),
        ],
    );
    put_links(rec, links, n, out, at + 4);
}
