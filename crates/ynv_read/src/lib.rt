// The reader of a cell's pages. It decides first (`read_decide`), and then whether the lent strip is long enough. Then it fills the strip, where nothing
// can fail.
#![tactic(auto)]

ghost use Rattle.std.specs.Prelude.{◌≡◌, [], ◌∷◌, ℕ, ◌+◌, ◌*◌, ◌≤◌, length};
ghost use Rattle.fields.specs.Put.{put};
ghost use Rattle.fields.specs.Sizes.{portal_size};
ghost use Rattle.strip.specs.Cell.{Cell, encode};
ghost use Rattle.strip.specs.Outcome.{shown, left, paper};
ghost use Rattle.read_sectors.specs.Walk.{walk};
ghost use Rattle.read_points.specs.Write.{points_in, points_words, HasRoom};
ghost use Rattle.read_grammar.specs.Derives.{back_of};
ghost use Rattle.read_decide.specs.Reading.{made, root_at, head, polygons, portal_count, portals, read_cell};
ghost use Rattle.read_decide.specs.Deciding.{polys_words, portals_words, HeaderRoot, ListsReady};
ghost use Rattle.ynv_read.specs.Parse.{parse_outcome};
ghost use Rattle.ynv_read.specs.Filling.{Given, PolysFit, Fillable};

use cell_record::CellRecord;
use fields::u64_le;
use read_decide::{
    Parsed, decide, header_of, links_of, list_addresses, portal_count, portals_of, root_of,
};
use read_lists::list_table;
use read_points::put_tree_points;
use read_polygon_sides::Pages;
use read_polygons::put_polygons;
use read_records::cell::{put_cell, record_of};
use read_records::portal::put_portals;
use res_reader::ResReader;
use strip::{Reason, Refusal};

// Each of these goes on from the word `at`, and answers the word after what it stored.
fn fill_portals<'a>(
    reader: ResReader<'a>,
    header: &'a [u8],
    cell: CellRecord,
    strip: &mut [u32],
    at: usize,
) -> usize
    requires { Given reader.system.now reader.graphics.now header.now cell × (portal_size * portal_count reader.system.now reader.graphics.now ≤ length (portals reader.system.now reader.graphics.now)) × (at + 11 * portal_count reader.system.now reader.graphics.now ≤ length strip.old) }
    ensures next { result ≡ at + 11 * portal_count reader.entry.system.now reader.entry.graphics.now }
    ensures content { strip.new ≡ put at (portals_words reader.entry.system.now reader.entry.graphics.now) strip.old }
{
    let n = portal_count(header);
    put_portals(portals_of(reader, header), n, cell, strip, at);
    at + 11 * n
}

fn fill_points<'a>(
    reader: ResReader<'a>,
    header: &'a [u8],
    cell: CellRecord,
    strip: &mut [u32],
    at: usize,
) -> usize
    requires { Given reader.system.now reader.graphics.now header.now cell × HasRoom (walk reader.system.now reader.graphics.now 4096 (root_at reader.system.now reader.graphics.now ∷ [])) at (length strip.old) }
    ensures next { result ≡ at + 4 * length (points_in (walk reader.entry.system.now reader.entry.graphics.now 4096 (root_at reader.entry.system.now reader.entry.graphics.now ∷ []))) }
    ensures content { strip.new ≡ put at (points_words (back_of (head reader.entry.system.now reader.entry.graphics.now)) (points_in (walk reader.entry.system.now reader.entry.graphics.now 4096 (root_at reader.entry.system.now reader.entry.graphics.now ∷ [])))) strip.old }
{
    put_tree_points(reader, u64_le(header, 0x120), cell, strip, at)
}

fn fill_polygons<'a>(
    reader: ResReader<'a>,
    header: &'a [u8],
    cell: CellRecord,
    n: usize,
    strip: &mut [u32],
) -> usize
    requires given { Given reader.system.now reader.graphics.now header.now cell }
    requires lists_ready { ListsReady reader.system.now reader.graphics.now × (n ≡ length (polygons reader.system.now reader.graphics.now)) × PolysFit reader.system.now reader.graphics.now (length strip.old) }
    ensures next { result ≡ 14 + length (polys_words reader.entry.system.now reader.entry.graphics.now) }
    ensures content { strip.new ≡ put 14 (polys_words reader.entry.system.now reader.entry.graphics.now) strip.old }
{
    let a = list_addresses(header);
    let pages = Pages {
        reader,
        vertices: list_table(reader, a.vertices),
        indices: list_table(reader, a.indices),
        edges: list_table(reader, a.edges),
        links: links_of(reader, header),
        header,
        frame: cell.frame(),
    };
    let polys = list_table(reader, a.polygons);
    put_polygons(&pages, polys, n, strip, 14)
}

// All the words of a cell that was accepted.
fn fill<'a>(
    reader: ResReader<'a>,
    header: &'a [u8],
    root: &'a [u8],
    polys: usize,
    strip: &mut [u32],
)
    requires { HeaderRoot reader.system.now reader.graphics.now header.now root.now × Fillable reader.system.now reader.graphics.now polys (length strip.old) }
    ensures { (c : Cell) (k : ℕ) → read_cell reader.entry.system.now reader.entry.graphics.now ≡ made c k → strip.new ≡ put 0 (encode c) strip.old }
{
    let cell = record_of(header, root);
    put_cell(cell, strip);
    let portals_at = fill_polygons(reader, header, cell, polys, strip);
    let points_at = fill_portals(reader, header, cell, strip, portals_at);
    let end = fill_points(reader, header, cell, strip, points_at);
    strip[end] = 0x5000_0000;
}

// Reads the cell of two lent sections into the lent strip. A refusal leaves the strip as it was.
pub fn parse_ynv<'a>(
    system: &'a [u8],
    graphics: &'a [u8],
    strip: &mut [u32],
) -> Result<Parsed, Refusal>
    ensures answer { paper result ≡ shown (parse_outcome system.now graphics.now (length strip.old)) }
    ensures strip { strip.new ≡ left (parse_outcome system.now graphics.now (length strip.old)) strip.old }
{
    let reader = ResReader::new(system, graphics);
    let header = header_of(reader);
    let root = root_of(reader, header);
    let parsed = decide(reader, header, root)?;
    if strip.len() < parsed.words {
        return Err(Refusal::from(Reason::TooShort));
    }
    fill(reader, header, root, parsed.polys, strip);
    Ok(parsed)
}
