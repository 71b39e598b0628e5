// The words of a polygon's edges, from bytes that are at hand. Nothing here can fail: pass two calls it for what pass one accepted.
#![tactic(auto)]

ghost use Rattle.std.specs.Prelude.{◌≡◌, map, ◌+◌, ◌*◌, ◌≤◌, length};
ghost use Rattle.fields.specs.Bytes.{cut};
ghost use Rattle.fields.specs.Put.{put};
ghost use Rattle.fields.specs.Sizes.{edge_size};
ghost use Rattle.strip.specs.Cell.{half_words, edge_words, each};
ghost use Rattle.read_grammar.specs.Polygons.{half_of, edge_of};
ghost use Rattle.read_grammar.specs.Derives.{area_of};

use areas::ADJACENT_NONE;
use areas::edge::decode_end;
use fields::sizes::EDGE_SIZE;
use fields::u32_le;
use read_records::words::put_words;

// The area of an index, by the header's table.
fn area_of(header: &[u8], i: u32) -> u32
    ensures { result ≡ area_of header.now i }
{
    if i < u32_le(header, 0x94) {
        u32_le(header, 0x98 + 4 * (i as usize))
    } else {
        ADJACENT_NONE
    }
}

fn put_half(header: &[u8], raw: u32, out: &mut [u32], at: usize)
    requires { at + 3 ≤ length out.old }
    ensures { out.new ≡ put at (half_words (half_of (area_of header.now) raw)) out.old }
{
    let e = decode_end(raw);
    let area = area_of(header, e.index);
    put_words(
        out,
        at,
        [area, e.poly, e.unk3 % 2048 + 65536 * (e.unk2 % 4)],
    );
}

// An edge, 8 bytes.
fn put_edge<'a>(header: &'a [u8], e: &'a [u8], out: &mut [u32], at: usize)
    requires { at + 6 ≤ length out.old }
    ensures { out.new ≡ put at (edge_words (edge_of (area_of header.now) e.now)) out.old }
{
    put_half(header, u32_le(e, 0), out, at);
    put_half(header, u32_le(e, 4), out, at + 3);
}

// The first n edges of `run`.
pub fn put_edge_run<'a>(header: &'a [u8], run: &'a [u8], n: usize, out: &mut [u32], at: usize)
    requires { (edge_size * n ≤ length run.now) × (at + 6 * n ≤ length out.old) }
    ensures { out.new ≡ put at (each edge_words (map (edge_of (area_of header.now)) (cut edge_size n run.now))) out.old }
{
    for k in 0..n {
        let from = EDGE_SIZE * k;
        let to = from + EDGE_SIZE;
        put_edge(header, &run[from..to], out, at + 6 * k);
    }
}
