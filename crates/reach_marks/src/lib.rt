// The marks of a strip's polygons, one byte each, and what a step does to them: 0 a polygon that is not seen, 2 one that is seen and whose steps are not
// taken yet, 1 one that is done. They are bytes and no enum, since C lends them. Whatever is marked 2 is also noted, as long as there is room: notes say
// where to go on, and nothing but time rests on them.
#![tactic(auto)]

ghost use Rattle.std.specs.Prelude.{◌≡◌, ◌+◌, ◌*◌, ◌≤◌, ◌<◌, ◌⊎◌, MatchOption, length, replicate, slice_index};
ghost use Rattle.strip.specs.Reading.{half_at, edges_at, nav_portal_at};
ghost use Rattle.strip.specs.Rows.{portals_at};
ghost use Rattle.reach_marks.specs.Marks as Marks;
ghost use Rattle.reach_marks.specs.Marks.{half_pass, edge_pass, portal_pass, marked};

use nobody::{cut, nobody};

// Which polygons to go on with, as many as there is room for. The last ones noted come first.
#[derive(Drop)]
pub struct Notes {
    pub items: [usize; 1024],
    pub count: usize,
}

impl Notes {
    // Notes polygon j, unless there is no room left.
    fn note(&mut self, j: usize) {
        if self.count < self.items.len() {
            self.items[self.count] = j;
            self.count += 1;
        }
    }

    // The polygon that was noted last, if there is one; it is noted no more.
    pub fn take_last(&mut self) -> Option<usize>
        ensures { MatchOption result (self.old.count ≡ 0 ⊎ 1024 < self.old.count) (λ j. (self.old.count ≡ self.new.count + 1) × (j ≡ slice_index self.old.items self.new.count)) }
    {
        if self.count == 0 || self.items.len() < self.count {
            return None;
        }
        self.count -= 1;
        Some(self.items[self.count])
    }
}

// Polygon j is seen, if there is one.
#[tactic(auto, unfolding(crate::specs::Marks::mark))]
fn mark(marks: &mut [u8], notes: &mut Notes, j: usize)
    ensures { marks.new ≡ Marks.mark j marks.old }
{
    if j < marks.len() && marks[j] == 0 {
        marks[j] = 2;
        notes.note(j);
    }
}

// What the half at `at` leads to is seen.
#[tactic(auto, unfolding(crate::specs::Marks::half_pass))]
fn half_pass(strip: &[u32], at: usize, own: u32, marks: &mut [u8], notes: &mut Notes)
    requires { at + 3 ≤ length strip.now }
    ensures { marks.new ≡ half_pass own (half_at strip.now at) marks.old }
{
    let poly = strip[at + 1];
    if strip[at] == own && !nobody(poly) {
        mark(marks, notes, cut(poly) as usize);
    }
}

// What the halves of n edges from `at` on lead to is seen.
pub fn edge_pass(strip: &[u32], at: usize, n: usize, own: u32, marks: &mut [u8], notes: &mut Notes)
    requires { at + 6 * n ≤ length strip.now }
    ensures { marks.new ≡ edge_pass own (edges_at strip.now at n) marks.old }
{
    for i in 0..n {
        half_pass(strip, at + 6 * i, own, marks, notes);
        half_pass(strip, at + 6 * i + 3, own, marks, notes);
    }
}

// Where polygon `from` is seen, polygon `to` is.
#[tactic(auto, using(std::proofs::lemmas::List::get_or_past), unfolding(crate::specs::Marks::lead))]
fn lead(marks: &mut [u8], notes: &mut Notes, from: usize, to: usize)
    ensures { marks.new ≡ Marks.lead from to marks.old }
{
    if from < marks.len() && marks[from] != 0 {
        mark(marks, notes, to);
    }
}

// What the portal at `at` leads to is seen, if where it leads from is.
#[tactic(auto, unfolding(crate::specs::Marks::cross, strip::specs::Reading::nav_portal_at))]
pub fn cross(strip: &[u32], at: usize, own: u32, marks: &mut [u8], notes: &mut Notes)
    requires { at + 11 ≤ length strip.now }
    ensures { marks.new ≡ Marks.cross own (nav_portal_at strip.now at) marks.old }
{
    let polys = strip[at + 8];
    let areas = strip[at + 9];
    if areas % 65536 == own && areas / 65536 == own {
        let from = (polys % 65536) as usize;
        let to = (polys / 65536) as usize;
        lead(marks, notes, from, to);
    }
}

// The n portals from `at` on, one after the other.
pub fn portal_pass(
    strip: &[u32],
    at: usize,
    n: usize,
    own: u32,
    marks: &mut [u8],
    notes: &mut Notes,
)
    requires { at + 11 * n ≤ length strip.now }
    ensures { marks.new ≡ portal_pass own (portals_at strip.now at n) marks.old }
{
    for i in 0..n {
        cross(strip, at + 11 * i, own, marks, notes);
    }
}

// How many are seen.
pub fn count_marks(marks: &[u8]) -> usize
    ensures { result ≡ marked marks.now }
{
    marks.iter().filter(|mark| **mark != 0).count()
}

pub fn clear(marks: &mut [u8])
    ensures { marks.new ≡ replicate (length marks.old) 0 }
{
    marks.fill(0);
}
