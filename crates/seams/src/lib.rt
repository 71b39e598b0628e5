// The seam count: how many halves of a strip's edges lie towards a neighbouring cell.
#![tactic(auto)]

ghost use Rattle.std.specs.Prelude.{◌≡◌, ◌+◌, ◌*◌, ◌≤◌, length};
ghost use Rattle.fields.specs.Bytes.{over};
ghost use Rattle.answers.specs.Words.{number_of, answer_words};
ghost use Rattle.strip.specs.Reading.{half_at, edges_at};
ghost use Rattle.strip.specs.Rows.{polygons_at, after_polygons};
ghost use Rattle.strip.specs.Tests.{one_if};
ghost use Rattle.strip.specs.Outcome.{shown, paper};
ghost use Rattle.seams.specs.Seams.{counted, edge_count, half_count, seam_outcome};
ghost use Rattle.seams.specs.Entries.{seam_words};

use answers::{accept, refuse};
use strip::Refusal;
use touching::touch;

// 1 if the half at `at` is counted, otherwise 0.
#[tactic(auto, unfolding(crate::specs::Seams::counted))]
fn half_seams(strip: &[u32], at: usize, own: u32) -> u64
    requires { at + 3 ≤ length strip.now }
    ensures count { result ≡ one_if (counted own (half_at strip.now at)) }
    ensures bound { result ≤ 1 }
{
    u64::from(touch(own, strip[at]))
}

// The counted halves of `n` edges from `at` on, by halves, which stand there in one row, two to an edge.
fn few_seams(strip: &[u32], at: usize, n: usize, own: u32) -> u64
    requires { at + 6 * n ≤ length strip.now }
    ensures count { result ≡ edge_count (counted own) (edges_at strip.now at n) }
    ensures bound { result ≤ 2 * n }
{
    let mut count = 0;
    for i in 0..2 * n {
        count += half_seams(strip, at + 3 * i, own);
    }
    count
}

// The same by edges.
fn many_seams(strip: &[u32], at: usize, n: usize, own: u32) -> u64
    requires { at + 6 * n ≤ length strip.now }
    ensures count { result ≡ edge_count (counted own) (edges_at strip.now at n) }
    ensures bound { result ≤ 2 * n }
{
    let mut count = 0;
    for i in 0..n {
        let edge = at + 6 * i;
        count += half_seams(strip, edge, own);
        count += half_seams(strip, edge + 3, own);
    }
    count
}

// The same, whichever way is the faster one. Where the compiler knows that there are fewer than 16 halves, it lays out the turns of the loop over them
// one behind the other, two halves to a turn, so that only the number of edges is left to guess for the processor; of more edges it takes four at a
// time and has to count the rest apart.
fn edge_seams(strip: &[u32], at: usize, n: usize, own: u32) -> u64
    requires { at + 6 * n ≤ length strip.now }
    ensures count { result ≡ edge_count (counted own) (edges_at strip.now at n) }
    ensures bound { result ≤ 2 * n }
{
    if n < 8 {
        return few_seams(strip, at, n, own);
    }
    many_seams(strip, at, n, own)
}

// The counted halves of the first `n` polygons, surplus edges included.
fn poly_seams(strip: &[u32], n: usize, own: u32) -> u64
    requires { after_polygons strip.now 14 n ≤ length strip.now }
    ensures { result ≡ half_count (counted own) (polygons_at strip.now 14 n) }
{
    let mut count = 0;
    let mut at = 14;
    for _ in 0..n {
        let p = strip::poly_at(strip, at);
        count += edge_seams(strip, p.edge_at, p.edges, own);
        at = p.next;
    }
    count
}

// How many halves of all the strip's edges lie towards a neighbour, or refusal 3 with its place.
pub fn count_seams(strip: &[u32]) -> Result<u64, Refusal>
    ensures { paper result ≡ shown (seam_outcome strip.now) }
{
    let counts = strip_check::check_strip(strip)?;
    Ok(poly_seams(strip, counts.polys, strip[2]))
}

// `count_seams` for C: the count.
pub fn seams_entry(strip: &[u32], answer: &mut [u64; 8]) -> u32
    ensures number { result ≡ number_of (shown (seam_outcome strip.now)) }
    ensures words { answer.new ≡ over (answer_words seam_words (shown (seam_outcome strip.now))) answer.old }
{
    match count_seams(strip) {
        Ok(n) => accept(answer, &[n]),
        Err(r) => refuse(answer, u32::from(r.reason), r.place),
    }
}
