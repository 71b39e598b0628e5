// Entries of the leaves, by which the oracle holds them against the Rust and times them; `units_c` exports them. Floats pass as their bits, and each
// entry takes every argument.
#![tactic(auto)]

ghost use Rattle.std.specs.Prelude.{◌≡◌, ◌∷◌, [], ◌%◌, ◌/◌, ◌*◌, ◌+◌, ◌≤◌, min, length, take, drop};
ghost use Rattle.std.specs.Float.{binary32};
ghost use Rattle.std.specs.Float.Ieee.{of_bits, to_bits};
ghost use Rattle.fields.specs.Bytes.{over};
ghost use Rattle.fields.specs.Put.{put};
ghost use Rattle.distinct.specs.Numbers.{up_to, numbers_from};
ghost use Rattle.quantise.specs.Short.{short, coordinate};
ghost use Rattle.quarters.specs.Quarter.{bits16};
ghost use Rattle.areas.specs.Areas.{seeded};
ghost use Rattle.areas.specs.Tables.{area_at};
ghost use Rattle.write_vertex_numbers.specs.Numbers.{triples_of, answer_with};
ghost use Rattle.strip.specs.Outcome.{shown};
ghost use Rattle.strip.specs.Checked.{strip_outcome};
ghost use Rattle.write_blocks.specs.Layout.{place_of};
ghost use Rattle.math.specs.Floats.{floats_at};
ghost use Rattle.units.specs.Entries.{side_of, seed_at, index_or_full, shorts_to, count_or_why, number_of, answer_of};

use math::num::{bits_of_float, float_of_bits};
use math::vec3::floats_at;
use quantise::short::{Frame, Shorts};
use quarters::quarter::{bits16_of, quarter_ceil, quarter_floor};
use strip::Reason;

// The short of a on an axis.
pub fn leaf_short(a: u32, lo: u32, extent: u32) -> u32
    ensures { result ≡ short (of_bits binary32 a) (of_bits binary32 lo) (of_bits binary32 extent) }
{
    let made = quantise::short::quantise_axis(
        float_of_bits(a),
        float_of_bits(lo),
        float_of_bits(extent),
    );
    made.q as u32
}

// The coordinate of a short, of which the low 16 bits count.
pub fn leaf_back(q: u32, lo: u32, extent: u32) -> u32
    ensures { result ≡ to_bits binary32 (coordinate (q % 65536) (of_bits binary32 lo) (of_bits binary32 extent)) }
{
    bits_of_float(quantise::short::unquantise_axis(
        (q % 65536) as u16,
        float_of_bits(lo),
        float_of_bits(extent),
    ))
}

// A side of a quarter box in 16 bits: the floor for 0, and otherwise the ceiling.
pub fn leaf_quarter(x: u32, ceil: u32) -> u32
    ensures { result ≡ bits16 (side_of (of_bits binary32 x) ceil) }
{
    if ceil == 0 {
        return bits16_of(quarter_floor(float_of_bits(x)));
    }
    bits16_of(quarter_ceil(float_of_bits(x)))
}

// Id i of the table with which a cell begins, 0 past its end; or, for an i from 32 on, how many ids it has.
pub fn leaf_seed_area(own: u32, i: usize) -> u32
    ensures { result ≡ seed_at (seeded own) i }
{
    let t = areas::seed_areas(own);
    if i < 32 {
        return t.ids[i];
    }
    t.len as u32
}

// The index of an id among the first len of ids, which is added where it is new; or 32 where it would be a 33rd.
pub fn leaf_ensure_area(ids: &mut [u32; 32], len: usize, id: u32) -> u32
    ensures answer { result ≡ index_or_full (area_at (take len ids.old) id) }
    ensures table { ids.new ≡ over (up_to 32 (take len ids.old) id) ids.old }
{
    let e = areas::ensure_id(ids, len, id);
    let at = e.at;
    match at {
        Some(i) => i,
        None => 32,
    }
}

// Where a block of `size` bytes starts, the end so far being `end`.
pub fn leaf_place(end: u32, size: u32) -> u64
    ensures { result ≡ place_of end size }
{
    write_blocks::place(end, size)
}

fn store(out: &mut [u32], at: usize, q: Shorts)
    requires { at + 3 ≤ length out.old }
    ensures { out.new ≡ put at (q.x ∷ q.y ∷ q.z ∷ []) out.old }
{
    out[at] = q.x as u32;
    out[at + 1] = q.y as u32;
    out[at + 2] = q.z as u32;
}

// The shorts of each vertex, three words to a vertex, in a box given by bb_min and bb_size; as many as both slices hold, which is the answer.
pub fn leaf_quantise_all(vertices: &[u32], bounds: &[u32; 6], out: &mut [u32]) -> usize
    ensures count { result ≡ min (length vertices.now / 3) (length out.old / 3) }
    ensures content { out.new ≡ over (shorts_to vertices.now (floats_at bounds.now 0) (floats_at bounds.now 3) result) out.old }
{
    let frame = Frame {
        bb_min: floats_at(bounds, 0),
        bb_size: floats_at(bounds, 3),
    };
    let n = (vertices.len() / 3).min(out.len() / 3);
    for i in 0..n {
        let q = frame.shorts_of(floats_at(vertices, 3 * i));
        store(out, 3 * i, q);
    }
    n
}

// How many distinct triples there are, two words to a triple, whose numbers then stand first in work; 65537 where there are more than
// 65,536; 65538 where there is less work than four words to a triple.
pub fn leaf_number_all(triples: &[u32], work: &mut [u32]) -> usize
    ensures answer { result ≡ count_or_why (answer_with (length work.old) (triples_of triples.now)) }
    ensures numbers { result ≤ 65536 → take (length (triples_of triples.now)) work.new ≡ numbers_from [] (triples_of triples.now) }
    ensures rest { drop (4 * length (triples_of triples.now)) work.new ≡ drop (4 * length (triples_of triples.now)) work.old }
{
    match write_vertex_numbers::number_all(triples, work) {
        Ok(n) => n,
        Err(refusal) => match refusal.reason {
            Reason::ManyVertices => 65537,
            _ => 65538,
        },
    }
}

// Whether a strip is well formed: 0 with its polygons, portals and points, or a refusal's number with its place.
pub fn leaf_check_strip(strip: &[u32], answer: &mut [u64; 8]) -> u32
    ensures number { result ≡ number_of (shown (strip_outcome strip.now)) }
    ensures words { answer.new ≡ over (answer_of (shown (strip_outcome strip.now))) answer.old }
{
    match strip_check::check_strip(strip) {
        Ok(n) => {
            answer[0] = n.polys as u64;
            answer[1] = n.portals as u64;
            answer[2] = n.points as u64;
            0
        }
        Err(r) => {
            answer[0] = r.place as u64;
            u32::from(r.reason)
        }
    }
}
