// Pass one over a cell's polygons: 37 and 38, and how many words they make.
#![tactic(auto)]

ghost use Rattle.std.specs.Prelude.{◌≡◌, ◌+◌, ◌*◌, ◌^◌, ◌≤◌, ◌<◌, length, take, drop};
ghost use Rattle.fields.specs.Bytes.{cut};
ghost use Rattle.fields.specs.Sizes.{index_size, poly_size};
ghost use Rattle.strip.specs.Outcome.{paper};
ghost use Rattle.read_lists.specs.Lists.{total};
ghost use Rattle.read_lists.specs.Listed.{Readable};
ghost use Rattle.read_lists.specs.Cursors.{AtPart};
ghost use Rattle.read_polygon_words.specs.Words.{all_below};
ghost use Rattle.read_list_set.specs.Items.{items_in};
ghost use Rattle.read_polygon_tally.specs.Tally.{tally_of, tally_from};
ghost use Rattle.read_polygon_tally.specs.Steps.{Below, Stepped, Small};

use fields::sizes::{INDEX_SIZE, POLY_SIZE};
use fields::u16_le;
use read_list_set::Limits;
use read_lists::{Cursor, list_run, list_start, seek, walk_to};
use read_polygon_words::{all_below, link_count};
use res_reader::ResReader;
use strip::{Reason, Refusal};

// Where the cursor over the indices stands behind a run of them that are all below a limit. The run is taken part by part: what a part holds of it is one slice.
fn run_below<'a>(
    reader: ResReader<'a>,
    table: &'a [u8],
    from: Cursor,
    start: usize,
    count: usize,
    limit: usize,
) -> Option<Cursor>
    requires { Readable reader.system.now reader.graphics.now index_size table.now × AtPart table.now from × (start + count ≤ total table.now) }
    ensures { Below table.now (all_below limit (take count (drop start (items_in reader.entry.system.now reader.entry.graphics.now index_size table.now)))) result }
{
    let mut c = from;
    let mut k = 0;
    // A turn takes as many indices as the cursor's part holds, so the step is the part's; a `for` has none such, and an iterator would have to hand its cursor back.
    while k < count {
        c = seek(table, c, start + k);
        let run = list_run(reader, table, INDEX_SIZE, c, start + k);
        let n = (run.len() / INDEX_SIZE).min(count - k);
        if !all_below(run, n, limit) {
            return None;
        }
        k += n;
    }
    Some(c)
}

// The words of polygon p, whose 48 bytes are rec, and where the cursor over the indices stands behind it.
fn check_polygon<'a>(
    reader: ResReader<'a>,
    rec: &'a [u8],
    p: usize,
    limits: Limits,
    table: &'a [u8],
    from: Cursor,
) -> Result<(usize, Cursor), Refusal>
    requires { Readable reader.system.now reader.graphics.now index_size table.now × AtPart table.now from × (limits.indices ≡ total table.now) }
    ensures { Stepped table.now 18434 (tally_of limits (items_in reader.entry.system.now reader.entry.graphics.now index_size table.now) p rec.now) result }
{
    let count = (u16_le(rec, 2) / 32 % 2048) as usize;
    let start = u16_le(rec, 4) as usize;
    if limits.indices < start + count || limits.edges < start + count {
        return Err(Refusal {
            reason: Reason::BadRun,
            place: p,
        });
    }
    let Some(c) = run_below(reader, table, from, start, count, limits.vertices) else {
        return Err(Refusal {
            reason: Reason::BadIndex,
            place: p,
        });
    };
    Ok((4 + link_count(rec, limits.links) + 9 * count, c))
}

// The first m polygons of `run`, of which the very first is number `first`.
fn check_run<'a>(
    reader: ResReader<'a>,
    run: &'a [u8],
    m: usize,
    first: usize,
    limits: Limits,
    table: &'a [u8],
    from: Cursor,
) -> Result<(usize, Cursor), Refusal>
    requires { Readable reader.system.now reader.graphics.now index_size table.now × AtPart table.now from × (limits.indices ≡ total table.now) × (poly_size * m ≤ length run.now) × (first + m < 2 ^ 32) }
    ensures { Stepped table.now (18434 * m) (tally_from limits (items_in reader.entry.system.now reader.entry.graphics.now index_size table.now) first (cut poly_size m run.now)) result }
{
    let mut words = 0;
    let mut c = from;
    for k in 0..m {
        let low = POLY_SIZE * k;
        let high = low + POLY_SIZE;
        let (more, next) = check_polygon(reader, &run[low..high], first + k, limits, table, c)?;
        words += more;
        c = next;
    }
    Ok((words, c))
}

// The n polygons of a list, part by part: the first refusal in order, or their words.
pub fn check_polygons<'a>(
    reader: ResReader<'a>,
    polys: &'a [u8],
    n: usize,
    limits: Limits,
    table: &'a [u8],
) -> Result<usize, Refusal>
    requires { Readable reader.system.now reader.graphics.now index_size table.now × Readable reader.system.now reader.graphics.now poly_size polys.now × (limits.indices ≡ total table.now) × (n ≡ total polys.now) }
    ensures answer { paper result ≡ tally_from limits (items_in reader.entry.system.now reader.entry.graphics.now index_size table.now) 0 (items_in reader.entry.system.now reader.entry.graphics.now poly_size polys.now) }
    ensures bound { Small (18434 * n) result }
{
    let mut words = 0;
    let mut p = list_start(polys);
    let mut c = list_start(table);
    let mut i = 0;
    // A turn takes the polygons of one part, so the step is the part's: no `for`, as in `run_below`.
    while i < n {
        p = walk_to(polys, p, i);
        let run = list_run(reader, polys, POLY_SIZE, p, i);
        let m = run.len() / POLY_SIZE;
        let (more, next) = check_run(reader, run, m, i, limits, table, c)?;
        words += more;
        c = next;
        i += m;
    }
    Ok(words)
}
