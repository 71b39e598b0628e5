// The exported library: C entries, each of which takes every argument. Their bodies stand in the crates of their calls, and how they answer in `answers`.
#![tactic(auto)]

ghost use Rattle.std.specs.Prelude.{◌≡◌, ◌*◌, length, drop};
ghost use Rattle.fields.specs.Bytes.{over};
ghost use Rattle.strip.specs.Outcome.{shown, left};
ghost use Rattle.ynv_read.specs.Parse.{parse_outcome};
ghost use Rattle.read_entry.specs.Entries.{parsed_words};
ghost use Rattle.ynv_write.specs.Serialize.{serialize_outcome};
ghost use Rattle.write_entry.specs.Entries.{written_words};
ghost use Rattle.seams.specs.Seams.{seam_outcome};
ghost use Rattle.seams.specs.Entries.{seam_words};
ghost use Rattle.picking.specs.Picking.{pick_outcome, spot_outcome};
ghost use Rattle.pick_entry.specs.Entries.{found_words, spot_words};
ghost use Rattle.obj.specs.Obj.{obj_outcome};
ghost use Rattle.obj_entry.specs.Entries.{obj_words};
ghost use Rattle.reach.specs.Reached.{reach_outcome};
ghost use Rattle.reach_entry.specs.Entries.{reach_words};
ghost use Rattle.cell_grid.specs.Grid.{cell_at, bounds_outcome};
ghost use Rattle.cell_grid.specs.Entries.{cell_words, bounds_words};
ghost use Rattle.answers.specs.Words.{number_of, answer_words};

// Reads a cell's pages into the lent strip: the words of the strip, polygons, portals, points and the sectors visited.
#[unsafe(no_mangle)]
pub extern "C" fn ynv_parse<'a>(
    system: &'a [u8],
    graphics: &'a [u8],
    strip: &mut [u32],
    answer: &mut [u64; 8],
) -> u32
    ensures number { result ≡ number_of (shown (parse_outcome system.now graphics.now (length strip.old))) }
    ensures answer { answer.new ≡ over (answer_words parsed_words (shown (parse_outcome system.now graphics.now (length strip.old)))) answer.old }
    ensures strip { strip.new ≡ left (parse_outcome system.now graphics.now (length strip.old)) strip.old }
{
    read_entry::parse_entry(system, graphics, strip, answer)
}

// Writes a strip's cell into the lent pages: their length in bytes, how many points are stored and dropped, and how many coordinates are pushed to the
// border. `work` is for the call's own use, four words to a word of the strip, of which no word from twice the strip's words on is changed, refused or not.
#[unsafe(no_mangle)]
pub extern "C" fn ynv_serialize(
    strip: &[u32],
    work: &mut [u32],
    pages: &mut [u8],
    answer: &mut [u64; 8],
) -> u32
    ensures number { result ≡ number_of (shown (serialize_outcome strip.now (length work.old) (length pages.old))) }
    ensures answer { answer.new ≡ over (answer_words written_words (shown (serialize_outcome strip.now (length work.old) (length pages.old)))) answer.old }
    ensures pages { pages.new ≡ left (serialize_outcome strip.now (length work.old) (length pages.old)) pages.old }
    ensures work { length work.new ≡ length work.old }
    ensures beyond { drop (2 * length strip.now) work.new ≡ drop (2 * length strip.now) work.old }
{
    write_entry::serialize_entry(strip, work, pages, answer)
}

// How many halves of all the strip's edges lie towards a neighbour.
#[unsafe(no_mangle)]
pub extern "C" fn ynv_count_seams(strip: &[u32], answer: &mut [u64; 8]) -> u32
    ensures number { result ≡ number_of (shown (seam_outcome strip.now)) }
    ensures answer { answer.new ≡ over (answer_words seam_words (shown (seam_outcome strip.now))) answer.old }
{
    seams::seams_entry(strip, answer)
}

// The lowest-numbered polygon that contains a spot, in shorts of the cell's box: 1 and its number, or 0 where none does.
#[unsafe(no_mangle)]
pub extern "C" fn ynv_pick_poly(strip: &[u32], x: u16, y: u16, answer: &mut [u64; 8]) -> u32
    ensures number { result ≡ number_of (shown (pick_outcome strip.now (record { x = x; y = y }))) }
    ensures answer { answer.new ≡ over (answer_words found_words (shown (pick_outcome strip.now (record { x = x; y = y })))) answer.old }
{
    pick_entry::pick_entry(strip, x, y, answer)
}

// The spot of a position: its two shorts by the cell's box.
#[unsafe(no_mangle)]
pub extern "C" fn ynv_spot_for_position(strip: &[u32], x: f32, y: f32, answer: &mut [u64; 8]) -> u32
    ensures number { result ≡ number_of (shown (spot_outcome strip.now x y)) }
    ensures answer { answer.new ≡ over (answer_words spot_words (shown (spot_outcome strip.now x y))) answer.old }
{
    pick_entry::spot_entry(strip, x, y, answer)
}

// Writes the strip's polygons into the lent text as Wavefront OBJ: the bytes of the text.
#[unsafe(no_mangle)]
pub extern "C" fn ynv_export_obj(strip: &[u32], text: &mut [u8], answer: &mut [u64; 8]) -> u32
    ensures number { result ≡ number_of (shown (obj_outcome strip.now (length text.old))) }
    ensures answer { answer.new ≡ over (answer_words obj_words (shown (obj_outcome strip.now (length text.old)))) answer.old }
    ensures text { text.new ≡ left (obj_outcome strip.now (length text.old)) text.old }
{
    obj_entry::obj_entry(strip, text, answer)
}

// Marks 1 each polygon that a chain of steps leads to from polygon `start`, 0 the others, a byte to a polygon: how many are marked.
#[unsafe(no_mangle)]
pub extern "C" fn ynv_reachable(
    strip: &[u32],
    start: u64,
    marks: &mut [u8],
    answer: &mut [u64; 8],
) -> u32
    ensures number { result ≡ number_of (shown (reach_outcome strip.now start (length marks.old))) }
    ensures answer { answer.new ≡ over (answer_words reach_words (shown (reach_outcome strip.now start (length marks.old)))) answer.old }
    ensures marks { marks.new ≡ left (reach_outcome strip.now start (length marks.old)) marks.old }
{
    reach_entry::reach_entry(strip, start, marks, answer)
}

// The two coordinates of the cell that contains a position. It refuses nothing.
#[unsafe(no_mangle)]
pub extern "C" fn ynv_cell_for_position(x: f32, y: f32, answer: &mut [u64; 8]) -> u32
    ensures number { result ≡ 0 }
    ensures answer { answer.new ≡ over (cell_words (cell_at x y)) answer.old }
{
    cell_grid::cell_entry(x, y, answer)
}

// The four sides of a cell as the bits of floats: least x, least y, greatest x, greatest y.
#[unsafe(no_mangle)]
pub extern "C" fn ynv_cell_bounds(cx: u32, cy: u32, answer: &mut [u64; 8]) -> u32
    ensures number { result ≡ number_of (shown (bounds_outcome cx cy)) }
    ensures answer { answer.new ≡ over (answer_words bounds_words (shown (bounds_outcome cx cy))) answer.old }
{
    cell_grid::bounds_entry(cx, cy, answer)
}
