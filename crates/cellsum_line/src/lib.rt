// The line that `cellsum` prints of a cell's system pages: area id and counts, or a refusal.
#![tactic(auto)]

ghost use Rattle.strip.specs.Reasons.{reason_number};
ghost use Rattle.std.specs.Prelude.{◌≡◌, ◌+◌, ◌≤◌, length};
ghost use Rattle.fields.specs.Put.{put};
ghost use Rattle.strip.specs.Outcome.{left};
ghost use Rattle.decimal.specs.Text.{named};
ghost use Rattle.decimal.specs.Stored.{Stored};
ghost use Rattle.cellsum_line.specs.Line.{cell_outcome, counts_text, accepted_text, refused_text, cell_text};

use decimal::{put_decimal, put_text};
use read_decide::Parsed;
use strip::{Reason, Refusal};

pub const MOST_INPUT: usize = 65536;

// No line is longer.
pub const LONGEST: usize = 139;

// The word of a strip that is the cell's area id.
const AREA_ID: usize = 2;

// Stores a short text with a number behind it from `at` on, and answers the place behind them.
fn put_named(line: &mut [u8], at: usize, name: &[u8], n: u64) -> usize
    requires { (at ≤ 200) × (length name.now ≤ 20) }
    ensures stored { Stored at (named name.now n) line.old line.new result }
    ensures bound { result ≤ at + length name.now + 20 }
{
    let from = at + put_text(line, at, name);
    from + put_decimal(line, from, n)
}

// Stores the counts from `at` on, and answers the place behind them.
fn put_counts(line: &mut [u8], at: usize, p: Parsed) -> usize
    requires { at ≤ 40 }
    ensures stored { Stored at (counts_text p) line.old line.new result }
    ensures bound { result ≤ at + 113 }
{
    let a = put_named(line, at, b" polys ", p.polys as u64);
    let b = put_named(line, a, b" portals ", p.portals as u64);
    let c = put_named(line, b, b" points ", p.points as u64);
    put_named(line, c, b" sectors ", p.sectors as u64)
}

// The line of an accepted cell, and its length.
fn put_cell(line: &mut [u8], area: u32, p: Parsed) -> usize
    ensures stored { Stored 0 (accepted_text area p) line.old line.new result }
    ensures bound { result ≤ 139 }
{
    let a = put_named(line, 0, b"cell ", u64::from(area));
    let b = put_counts(line, a, p);
    b + put_text(line, b, b"\n")
}

// The line of a refusal, and its length.
fn put_refusal(line: &mut [u8], r: Refusal) -> usize
    ensures stored { Stored 0 (refused_text (reason_number r.reason) r.place) line.old line.new result }
    ensures bound { result ≤ 139 }
{
    let a = put_named(line, 0, b"refused ", u32::from(r.reason) as u64);
    let b = put_named(line, a, b" ", r.place as u64);
    b + put_text(line, b, b"\n")
}

// Reads the input as system pages, without graphics, into the lent strip, stores the line from the start of `line` on, as far as there is
// room, and answers the line's length.
pub fn cellsum_line(input: &[u8], strip: &mut [u32], line: &mut [u8]) -> usize
    ensures bound { result ≤ 139 }
    ensures size { result ≡ length (cell_text (cell_outcome input.now (length strip.old))) }
    ensures line { line.new ≡ put 0 (cell_text (cell_outcome input.now (length strip.old))) line.old }
    ensures strip { strip.new ≡ left (cell_outcome input.now (length strip.old)) strip.old }
{
    if MOST_INPUT < input.len() {
        return put_refusal(line, Refusal::from(Reason::LongInput));
    }
    match ynv_read::parse_ynv(input, &input[..0], strip) {
        Ok(p) => put_cell(line, strip[AREA_ID], p),
        Err(r) => put_refusal(line, r),
    }
}
