// A walk over a strip's polygons: each that is seen takes its steps once. Notes say which to go on with, and chains which portals lead from a polygon; both
// may lack some, so that a sweep over all marks goes on with what was not noted. Nothing but time rests on notes and chains.
#![tactic(auto)]

ghost use Rattle.std.specs.Prelude.{◌≡◌, ◌+◌, ◌*◌, ◌≤◌, ◌<◌, MatchOption, length};
ghost use Rattle.reach_places.specs.Places.{Places};
ghost use Rattle.reach_walk.specs.Walk.{Known, visited, Worked, Left, Swept};

use reach_marks::{Notes, cross, edge_pass};
use reach_places::place_of;
use strip::poly_at;

// What a walk needs to know of a strip: the cell's own id, how many polygons there are to a place of the table, and where the portals stand.
#[derive(Clone, Copy)]
pub struct Ground {
    pub own: u32,
    pub stride: usize,
    pub portal_at: usize,
    pub portals: usize,
}

// What a walk reads: the strip, what is known of it, the places of its polygons, the first portal of each polygon, and the one behind each portal. Both
// tables of portals hold a portal's number and 1, and 0 for none: so they come cleared, in two bytes for each.
#[derive(Clone, Copy)]
pub struct Guide<'a> {
    pub strip: &'a [u32],
    pub ground: Ground,
    pub places: &'a [usize],
    pub first: &'a [u16],
    pub behind: &'a [u16],
}

// Polygon i takes its steps, if it is seen and has not taken them.
fn visit(guide: &Guide, i: usize, marks: &mut [u8], notes: &mut Notes)
    requires { Places guide.now.strip.now (length marks.old) guide.now.ground.stride guide.now.places.now × (i < length marks.old) }
    ensures { marks.new ≡ visited guide.now.strip.now guide.now.ground i marks.old }
{
    if marks[i] == 2 {
        let g = guide.ground;
        let at = place_of(guide.strip, marks.len(), g.stride, guide.places, i);
        let p = poly_at(guide.strip, at);
        let edges = p.vertices.min(p.edges);
        edge_pass(guide.strip, p.edge_at, edges, g.own, marks, notes);
        marks[i] = 1;
    }
}

// Portal k, if there is one.
fn try_portal(guide: &Guide, k: usize, marks: &mut [u8], notes: &mut Notes)
    requires { guide.now.ground.portal_at + 11 * guide.now.ground.portals ≤ length guide.now.strip.now }
    ensures { Worked guide.now.strip.now guide.now.ground marks.old marks.new }
{
    let g = guide.ground;
    if k < g.portals {
        cross(guide.strip, g.portal_at + 11 * k, g.own, marks, notes);
    }
}

// The portal of entry i, if there is one.
fn portal_at(table: &[u16], i: usize) -> Option<usize> {
    usize::from(*table.get(i)?).checked_sub(1)
}

// The portal behind portal k; a chain leads down, or it ends.
fn behind(table: &[u16], k: usize) -> Option<usize>
    ensures { MatchOption result Unit (λ next. next < k) }
{
    portal_at(table, k).filter(|next| *next < k)
}

// The portals of polygon i's chain.
fn follow(guide: &Guide, i: usize, marks: &mut [u8], notes: &mut Notes)
    requires { guide.now.ground.portal_at + 11 * guide.now.ground.portals ≤ length guide.now.strip.now }
    ensures { Worked guide.now.strip.now guide.now.ground marks.old marks.new }
{
    let mut next = portal_at(guide.first, i);
    while let Some(k) = next {
        try_portal(guide, k, marks, notes);
        next = behind(guide.behind, k);
    }
}

// Polygon i takes its steps and its portals, if it is one that is seen and has not taken them.
fn leave(guide: &Guide, i: usize, marks: &mut [u8], notes: &mut Notes)
    requires { Known guide.now.strip.now (length marks.old) guide.now.ground guide.now.places.now }
    ensures { Left guide.now.strip.now guide.now.ground i marks.old marks.new }
{
    if i < marks.len() && marks[i] == 2 {
        visit(guide, i, marks, notes);
        follow(guide, i, marks, notes);
    }
}

// Goes on with what is noted, and with what is noted then, as long as there is something; no more often than there are polygons.
fn drain(guide: &Guide, marks: &mut [u8], notes: &mut Notes)
    requires { Known guide.now.strip.now (length marks.old) guide.now.ground guide.now.places.now }
    ensures { Worked guide.now.strip.now guide.now.ground marks.old marks.new }
{
    for _ in 0..marks.len() {
        let Some(noted) = notes.take_last() else {
            return;
        };
        leave(guide, noted, marks, notes);
    }
}

// Polygon i, and then all that is noted.
fn start_from(guide: &Guide, i: usize, marks: &mut [u8], notes: &mut Notes)
    requires { Known guide.now.strip.now (length marks.old) guide.now.ground guide.now.places.now }
    ensures { Left guide.now.strip.now guide.now.ground i marks.old marks.new }
{
    leave(guide, i, marks, notes);
    drain(guide, marks, notes);
}

// Every polygon in order, and from each all that is noted. What is seen then and has not taken its steps was not seen before.
pub fn sweep(guide: &Guide, marks: &mut [u8], notes: &mut Notes)
    requires { Known guide.now.strip.now (length marks.old) guide.now.ground guide.now.places.now }
    ensures { Swept guide.now.strip.now guide.now.ground marks.old marks.new }
{
    for i in 0..marks.len() {
        start_from(guide, i, marks, notes);
    }
}

// Puts portal k, whose record is at `at`, before its chain, if there is room for it.
fn chain_portal(strip: &[u32], at: usize, k: usize, first: &mut [u16], behind: &mut [u16])
    requires { (at + 11 ≤ length strip.now) × (k < 65535) }
{
    let from = (strip[at + 8] % 65536) as usize;
    if k < behind.len() && from < first.len() {
        behind[k] = first[from];
        first[from] = (k + 1) as u16;
    }
}

// Chains the first portals, as many as there is room for and at most 65,535. What the chains hold is not promised, since nothing rests on it.
pub fn chain_portals(strip: &[u32], at: usize, n: usize, first: &mut [u16], behind: &mut [u16])
    requires { at + 11 * n ≤ length strip.now }
    ensures first { length first.new ≡ length first.old }
    ensures behind { length behind.new ≡ length behind.old }
{
    for k in 0..n.min(65535) {
        chain_portal(strip, at + 11 * k, k, first, behind);
    }
}
