// Whether a drawing can be made before a byte of it is: the polygons counted, and the room that the text needs.
#![tactic(auto)]

ghost use Rattle.std.specs.Prelude.{◌≡◌, true, ◌+◌, ◌*◌, ◌≤◌, ◌<◌, leb, length};
ghost use Rattle.strip.specs.Reading.{head_at};
ghost use Rattle.strip.specs.Rows.{polygons_at, after_polygons};
ghost use Rattle.obj_text.specs.Text.{text_of};
ghost use Rattle.obj_text.specs.Counts.{vertex_count};
ghost use Rattle.obj_length.specs.Last.{last};
ghost use Rattle.obj_room.specs.Tally.{Tells};

use obj_length::measure;
use strip::poly_at;

// A pass over the first words of the first n polygons: how many vertices they have, or the number of the first one with fewer than 3.
pub fn tally_polygons(strip: &[u32], n: usize) -> Result<usize, usize>
    requires { after_polygons strip.now 14 n ≤ length strip.now }
    ensures { Tells (polygons_at strip.now 14 n) result }
{
    let mut count = 0;
    let mut at = 14;
    for i in 0..n {
        let p = poly_at(strip, at);
        if p.vertices < 3 {
            return Err(i);
        }
        count += p.vertices;
        at = p.next;
    }
    Ok(count)
}

// Whether room is lent for any text of so many vertices and polygons. A vertex's line has 20 bytes at most, its number and the space 7 below a
// million, and a polygon's line 2 more. Larger cells are measured.
fn is_ample(vertices: usize, polys: usize, room: usize) -> bool
    ensures { result ≡ true → (vertices < 1000000) × (27 * vertices + 2 * polys ≤ room) }
{
    vertices < 1_000_000 && polys < 1_000_000 && 27 * vertices + 2 * polys <= room
}

// Whether the text has room. `vertices` are those of the n polygons. It is measured only where the counts leave it open.
pub fn fits(strip: &[u32], n: usize, vertices: usize, room: usize) -> bool
    requires { (14 ≤ length strip.now) × (after_polygons strip.now 14 n ≤ length strip.now) × (vertices ≡ vertex_count (polygons_at strip.now 14 n)) × (room < last) }
    ensures { result ≡ leb (length (text_of (head_at strip.now 0) (polygons_at strip.now 14 n))) room }
{
    is_ample(vertices, n, room) || measure(strip, n, vertices) <= room
}
