// Where a walker can get to: marks each polygon that a chain of steps leads to from one of them. No memory is lent but the marks; what the walk notes
// for itself stands in local arrays, which are cleared at each call, so that small cells have small ones.
#![tactic(auto)]

ghost use Rattle.std.specs.Prelude.{◌≡◌, ◌≤◌, ◌<◌, length, set, replicate};
ghost use Rattle.strip.specs.Outcome.{shown, left, paper};
ghost use Rattle.reach_walk.specs.Walk.{Known};
ghost use Rattle.reach.specs.Settled.{Settled, Ready, Walked};
ghost use Rattle.reach.specs.Reached.{reach_outcome};

use reach_marks::{Notes, clear, count_marks, portal_pass};
use reach_places::note_places;
use reach_walk::{Ground, Guide, chain_portals, sweep};
use strip::{Reason, Refusal};
use strip_parts::first_portal;

// What a walk is asked: the strip, the polygon that it starts from, where the portals stand, and how many there are.
#[derive(Clone, Copy)]
struct Request<'a> {
    strip: &'a [u32],
    start: usize,
    portal_at: usize,
    portals: usize,
}

// Sweeps over all polygons and then all portals, until none sees more; the answer is how many are seen.
fn settle(guide: &Guide, marks: &mut [u8], notes: &mut Notes) -> usize
    requires { Known guide.now.strip.now (length marks.old) guide.now.ground guide.now.places.now }
    ensures { Settled guide.now.strip.now guide.now.ground marks.old marks.new result }
{
    let g = guide.ground;
    let mut count = count_marks(marks);
    // no `for`: it ends when nothing new is seen
    loop {
        sweep(guide, marks, notes);
        portal_pass(guide.strip, g.portal_at, g.portals, g.own, marks, notes);
        let next = count_marks(marks);
        if next == count {
            return count;
        }
        count = next;
    }
}

// Only the start is seen.
fn first_marks(marks: &mut [u8], start: usize)
    requires { start < length marks.old }
    ensures { marks.new ≡ set (replicate (length marks.old) 0) start 2 }
{
    clear(marks);
    marks[start] = 2;
}

// Marks 1 each polygon that a chain of steps leads to from the start, 0 the others, one mark to a polygon. The tables come cleared.
fn walk(
    request: &Request,
    marks: &mut [u8],
    places: &mut [usize],
    first: &mut [u16],
    behind: &mut [u16],
) -> usize
    requires { Ready request.now.strip.now request.now.portal_at request.now.portals request.now.start (length marks.old) × (1 ≤ length places.old) }
    ensures { Walked request.now.strip.now request.now.portal_at request.now.portals request.now.start (length marks.old) marks.new result }
{
    let stride = note_places(request.strip, marks.len(), places);
    chain_portals(
        request.strip,
        request.portal_at,
        request.portals,
        first,
        behind,
    );
    first_marks(marks, request.start);
    let ground = Ground {
        own: request.strip[2],
        stride,
        portal_at: request.portal_at,
        portals: request.portals,
    };
    let guide = Guide {
        strip: request.strip,
        ground,
        places,
        first,
        behind,
    };
    let mut notes = Notes {
        items: [0; 1024],
        count: 0,
    };
    settle(&guide, marks, &mut notes)
}

// The same with tables for so many polygons and portals. It is never put into its caller, so that each size has a frame of its own.
#[inline(never)]
fn walk_with<const POLYGONS: usize, const PORTALS: usize>(
    request: &Request,
    marks: &mut [u8],
) -> usize
    requires ready { Ready request.now.strip.now request.now.portal_at request.now.portals request.now.start (length marks.old) }
    requires sizes { (1 ≤ POLYGONS) × (POLYGONS ≤ 65536) × (PORTALS ≤ 65536) }
    ensures { Walked request.now.strip.now request.now.portal_at request.now.portals request.now.start (length marks.old) marks.new result }
{
    let mut places = [0; POLYGONS];
    let mut first = [0; PORTALS];
    let mut behind = [0; PORTALS];
    walk(request, marks, &mut places, &mut first, &mut behind)
}

// The same with tables that suit the strip: any would do, and small cells take little stack. A cell that can be saved has fewer than 16,384 polygons and
// portals. Past that places are noted of every so many polygons, and as many portals are chained as numbers in two bytes tell apart.
fn mark_all(request: &Request, marks: &mut [u8]) -> usize
    requires { Ready request.now.strip.now request.now.portal_at request.now.portals request.now.start (length marks.old) }
    ensures { Walked request.now.strip.now request.now.portal_at request.now.portals request.now.start (length marks.old) marks.new result }
{
    match marks.len().max(request.portals) {
        ..=256 => walk_with::<256, 256>(request, marks),
        ..=2048 => walk_with::<2048, 2048>(request, marks),
        ..=16384 => walk_with::<16384, 16384>(request, marks),
        _ => walk_with::<16384, 65536>(request, marks),
    }
}

// Marks 1 each polygon that a chain of steps leads to from `start`, 0 the others, and says how many are marked; or 3 with its place, 42 where `start` is no
// polygon, 43 where there are fewer bytes than polygons.
pub fn reachable(strip: &[u32], start: usize, marks: &mut [u8]) -> Result<usize, Refusal>
    ensures answer { paper result ≡ shown (reach_outcome strip.now start (length marks.old)) }
    ensures marks { marks.new ≡ left (reach_outcome strip.now start (length marks.old)) marks.old }
{
    let counts = strip_check::check_strip(strip)?;
    if counts.polys <= start {
        return Err(Refusal::from(Reason::NoSuchPolygon));
    }
    if marks.len() < counts.polys {
        return Err(Refusal::from(Reason::FewMarks));
    }
    let request = Request {
        strip,
        start,
        portal_at: first_portal(strip, counts),
        portals: counts.portals,
    };
    Ok(mark_all(&request, &mut marks[..counts.polys]))
}
