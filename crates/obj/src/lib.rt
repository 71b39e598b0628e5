// A strip's polygons as Wavefront OBJ text: the checks in their order, and then the text.
#![tactic(auto)]

ghost use Rattle.std.specs.Prelude.{◌≡◌, ◌≤◌, length};
ghost use Rattle.strip.specs.Reading.{head_at};
ghost use Rattle.strip.specs.Rows.{polygons_at, after_polygons};
ghost use Rattle.strip.specs.Outcome.{shown, left, paper};
ghost use Rattle.obj.specs.Obj.{drawn, obj_outcome};

use obj_room::{fits, tally_polygons};
use obj_text::put_obj;
use strip::{Reason, Refusal};
use strip_parts::check_cell;

// The drawing of the first n polygons, or 41 or 2.
fn draw(strip: &[u32], n: usize, text: &mut [u8]) -> Result<usize, Refusal>
    requires { (14 ≤ length strip.now) × (after_polygons strip.now 14 n ≤ length strip.now) }
    ensures answer { paper result ≡ shown (drawn (length text.old) (head_at strip.now 0) (polygons_at strip.now 14 n)) }
    ensures text { text.new ≡ left (drawn (length text.old) (head_at strip.now 0) (polygons_at strip.now 14 n)) text.old }
{
    match tally_polygons(strip, n) {
        Ok(vertices) if fits(strip, n, vertices, text.len()) => Ok(put_obj(text, strip, n)),
        Ok(_) => Err(Reason::TooShort.into()),
        Err(place) => Err(Refusal {
            reason: Reason::ThinPolygon,
            place,
        }),
    }
}

// Exports the strip's polygons into the lent text, and answers its length; or refusal 3, 10, 41 or 2 with its place.
pub fn export_obj(strip: &[u32], text: &mut [u8]) -> Result<usize, Refusal>
    ensures answer { paper result ≡ shown (obj_outcome strip.now (length text.old)) }
    ensures text { text.new ≡ left (obj_outcome strip.now (length text.old)) text.old }
{
    let counts = check_cell(strip)?;
    draw(strip, counts.polys, text)
}
