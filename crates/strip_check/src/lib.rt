// Whether a strip is well formed: record by record, in order, with the counts of what it holds or the place where it is bad.
#![tactic(auto)]

ghost use Rattle.std.specs.Prelude.{◌≡◌, ◌+◌, ◌*◌, ◌≤◌, ◌<◌, MatchResult, IsTrue, Err, false, length};
ghost use Rattle.strip.specs.Scan.{first_good, all_below, edges_fit, poly_fits, cell_record, polygon_record, portal_record, point_record, end_record, record_at};
ghost use Rattle.strip.specs.Outcome.{shown, paper};
ghost use Rattle.strip.specs.Checked.{strip_outcome};

use strip::{Counts, Poly, Reason, Record, Refusal, poly_at};

// Ranks of records, by which they are in order: those that one may follow are a row of ranks, from `low` to `high`. The strip's start has 0. A
// polygon follows the cell and its like, so polygons stand on one side of the cell; 3, on the other side, is for a second kind of them. They are numbers and
// no enum, since the definitions (`strip/specs/Scan`) compare them.
const POLYGON_RANK: u32 = 1;

const CELL_RANK: u32 = 2;

const PORTAL_RANK: u32 = 4;

const POINT_RANK: u32 = 5;

// Whether `n` words from `at` on are below `limit`.
fn all_below(strip: &[u32], at: usize, n: usize, limit: u32) -> bool
    requires { at + n ≤ length strip.now }
    ensures { result ≡ all_below strip.now at n limit }
{
    strip[at..at + n].iter().all(|word| *word < limit)
}

// Whether `n` edges from `at` on have no unnamed bit.
fn edges_fit(strip: &[u32], at: usize, n: usize) -> bool
    requires { at + 6 * n ≤ length strip.now }
    ensures { result ≡ edges_fit strip.now at n }
{
    for i in 0..n {
        let edge = at + 6 * i;
        if 16777216 <= strip[edge + 2] || 16777216 <= strip[edge + 5] {
            return false;
        }
    }
    true
}

// Whether a polygon's words have no unnamed bit.
#[tactic(auto, unfolding(strip::specs::Scan::poly_fits))]
fn poly_fits(strip: &[u32], p: Poly) -> bool
    requires { (p.flags_at < length strip.now) × (p.link_at + p.links ≤ length strip.now) × (p.edge_at + 6 * p.edges ≤ length strip.now) }
    ensures { result ≡ poly_fits strip.now p }
{
    strip[p.flags_at] < 65536
        && all_below(strip, p.link_at, p.links, 65536)
        && edges_fit(strip, p.edge_at, p.edges)
}

// Whether the first word `w` is good after a record of rank `rank`: that is from `low` to `high`, and the bits below the kind stay under
// `limit`.
#[tactic(auto, unfolding(strip::specs::Scan::first_good))]
fn first_good(w: u32, rank: u32, low: u32, high: u32, limit: u32) -> bool
    ensures { result ≡ first_good low high limit rank w }
{
    low <= rank && rank <= high && w % 268435456 < limit
}

// The strip is bad at `place`. It is never put into its caller: as short as `Ok` is, the compiler would take the two for one value, and look a second time
// at the kind of each record.
#[inline(never)]
fn bad(place: usize) -> Result<(), usize>
    ensures { result ≡ Err place }
{
    Err(place)
}

// Where a test isn't passed the strip is bad at `place`.
fn check(passed: bool, place: usize) -> Result<(), usize>
    ensures { MatchResult result (λ _. IsTrue passed) (λ p. (passed ≡ false) × (p ≡ place)) }
{
    if passed { Ok(()) } else { bad(place) }
}

// The record at `at`, for each kind, or the place where the strip is bad: its first word is judged, then whether all its words are there, then the rest.
// `rank` is that of the record before it. Five functions, since each kind has tests of its own, and as one the row of them is no shorter.
#[tactic(auto, unfolding(strip::specs::Scan::cell_record))]
fn cell_record(strip: &[u32], at: usize, rank: u32) -> Result<Record, usize>
    requires { at < length strip.now }
    ensures { result ≡ cell_record strip.now at rank }
{
    let good = first_good(strip[at], rank, 0, 0, 1);
    check(good, at)?;
    check(at + 14 <= strip.len(), strip.len())?;
    Ok(Record::Cell)
}

#[tactic(auto, unfolding(strip::specs::Scan::polygon_record))]
fn polygon_record(strip: &[u32], at: usize, rank: u32) -> Result<Record, usize>
    requires { at < length strip.now }
    ensures { result ≡ polygon_record strip.now at rank }
{
    let good = first_good(strip[at], rank, POLYGON_RANK, CELL_RANK, 268435456);
    check(good, at)?;
    let p = poly_at(strip, at);
    check(p.next <= strip.len(), strip.len())?;
    check(poly_fits(strip, p), at)?;
    Ok(Record::Polygon(p))
}

#[tactic(auto, unfolding(strip::specs::Scan::portal_record, strip::specs::Scan::portal_fits))]
fn portal_record(strip: &[u32], at: usize, rank: u32) -> Result<Record, usize>
    requires { at < length strip.now }
    ensures { result ≡ portal_record strip.now at rank }
{
    let good = first_good(strip[at], rank, POLYGON_RANK, PORTAL_RANK, 65536);
    check(good, at)?;
    check(at + 11 <= strip.len(), strip.len())?;
    check(strip[at + 1] < 65536 && strip[at + 10] < 256, at)?;
    Ok(Record::Portal)
}

#[tactic(auto, unfolding(strip::specs::Scan::point_record))]
fn point_record(strip: &[u32], at: usize, rank: u32) -> Result<Record, usize>
    requires { at < length strip.now }
    ensures { result ≡ point_record strip.now at rank }
{
    let good = first_good(strip[at], rank, POLYGON_RANK, POINT_RANK, 65536);
    check(good, at)?;
    check(at + 4 <= strip.len(), strip.len())?;
    Ok(Record::Point)
}

#[tactic(auto, unfolding(strip::specs::Scan::end_record))]
fn end_record(strip: &[u32], at: usize, rank: u32) -> Result<Record, usize>
    requires { at < length strip.now }
    ensures { result ≡ end_record strip.now at rank }
{
    let good = first_good(strip[at], rank, POLYGON_RANK, POINT_RANK, 1);
    check(good, at)?;
    check(strip.len() <= at + 1, at + 1)?;
    Ok(Record::End)
}

// The record at `at`, after one of rank `rank`, or the place where the strip is bad.
#[tactic(auto, unfolding(strip::specs::Scan::record_at, strip::specs::Scan::record_of))]
pub fn record_at(strip: &[u32], at: usize, rank: u32) -> Result<Record, usize>
    ensures { result ≡ record_at strip.now at rank }
{
    check(at < strip.len(), strip.len())?;
    match strip[at] >> 28 {
        1 => cell_record(strip, at, rank),
        2 => polygon_record(strip, at, rank),
        3 => portal_record(strip, at, rank),
        4 => point_record(strip, at, rank),
        5 => end_record(strip, at, rank),
        _ => Err(at),
    }
}

// Whether a strip is well formed: its counts, or refusal 3 with its place.
pub fn check_strip(strip: &[u32]) -> Result<Counts, Refusal>
    ensures { paper result ≡ shown (strip_outcome strip.now) }
{
    let mut counts = Counts {
        polys: 0,
        portals: 0,
        points: 0,
    };
    let mut at = 0;
    let mut rank = 0;
    // no `for`: a record says where the next one begins, and what may follow
    loop {
        match record_at(strip, at, rank) {
            Ok(Record::Cell) => {
                at += 14;
                rank = CELL_RANK;
            }
            Ok(Record::Polygon(p)) => {
                counts.polys += 1;
                at = p.next;
                rank = POLYGON_RANK;
            }
            Ok(Record::Portal) => {
                counts.portals += 1;
                at += 11;
                rank = PORTAL_RANK;
            }
            Ok(Record::Point) => {
                counts.points += 1;
                at += 4;
                rank = POINT_RANK;
            }
            Ok(Record::End) => return Ok(counts),
            Err(place) => return Err(Refusal {
                reason: Reason::BadStrip,
                place,
            }),
        }
    }
}
