// The blocks of a list: its header, part table, the items' parts and the offsets; where they end, and what stands in those that hold no items.
#![tactic(auto)]

ghost use Rattle.std.specs.Prelude.{◌≡◌, [], ◌∷◌, ◌+◌, ◌*◌, ◌^◌, ◌≤◌, ◌<◌, length};
ghost use Rattle.std.specs.Iterator.{YieldsFirst, item_count};
ghost use Rattle.fields.specs.Bytes.{les};
ghost use Rattle.fields.specs.Put.{put};
ghost use Rattle.fields.specs.Rows.{row_bytes};
ghost use Rattle.fields.specs.Sizes.{list_part_size, list_size};
ghost use Rattle.write_blocks.specs.Layout.{behind, end_of, address};
ghost use Rattle.write_blocks.specs.Laid.{reached, sum_of, Laid};
ghost use Rattle.write_blocks.specs.Lists.{per_part, part_count, part_counts, firsts, sizes, part_sizes, offset_sizes, list_sizes, table_at, list_row, part_row, table_bytes, front_blocks, offset_blocks};
ghost use Rattle.write_blocks.specs.ListRoom.{ListRoom};
ghost use Rattle.write_list_blocks.specs.Parts.{counts_left, split};

use fields::sizes::{LIST_PART_SIZE, LIST_SIZE};
use write_blocks::{Layout, address, address_of, pad};

// A part's items take at most a page.
pub const PART_SIZE: usize = 16384;

// How many parts n items of w bytes take. No part takes items of 0 bytes, or of more than a page.
pub fn part_count(w: usize, n: usize) -> usize
    ensures { result ≡ part_count w n }
{
    if w == 0 {
        return 0;
    }
    let per = PART_SIZE / w;
    if per == 0 {
        return 0;
    }
    n.div_ceil(per)
}

// The parts of a list, one after the other: how many items each has, which is `per`, and in the last what is left.
#[derive(Clone, Copy)]
pub struct Parts {
    count: usize,
    per: usize,
    items: usize,
}

impl Parts {
    // Those of n items of w bytes.
    pub fn new(w: usize, n: usize) -> Self
        requires { 1 ≤ w }
        ensures { result ≡ split w n }
    {
        Self {
            count: part_count(w, n),
            per: PART_SIZE / w,
            items: n,
        }
    }
}

impl Iterator for Parts {
    type Item = usize;

    ghost next_gives = { YieldsFirst counts_left };

    ghost remaining = { item_count counts_left };

    fn next(&mut self) -> Option<usize> {
        if self.count == 0 {
            return None;
        }
        let m = self.per.min(self.items);
        self.count -= 1;
        self.items -= m;
        Some(m)
    }
}

// The layout behind the items of the parts, w bytes to an item.
fn parts_end(l: Layout, w: usize, parts: Parts) -> Layout
    requires { end_of l.at (sizes w (counts_left parts)) < 2 ^ 28 }
    ensures { result ≡ reached l (sizes w (counts_left parts)) }
{
    let mut next = l;
    for m in parts {
        next = next.alloc(w * m);
    }
    next
}

// A part's entry in the table: where its items start, and how many there are.
fn put_part(out: &mut [u8], at: usize, start: usize, m: usize)
    requires { (start < 2 ^ 28) × (m < 2 ^ 32) }
    ensures { out.new ≡ put at (row_bytes (part_row start m)) out.old }
{
    let words = [address(start), 0, m as u32, 0];
    stores::put_all(out, at, 4, &words);
}

// The part table of the parts, whose items are laid out from l on.
fn put_table(out: &mut [u8], at: usize, l: Layout, w: usize, parts: Parts)
    requires { (sum_of (counts_left parts) < 2 ^ 32) × (end_of l.at (sizes w (counts_left parts)) < 2 ^ 28) × (at + list_part_size * length (counts_left parts) < 2 ^ 28) }
    ensures { out.new ≡ put at (table_bytes w l.at (counts_left parts)) out.old }
{
    let mut entry = at;
    let mut next = l;
    for m in parts {
        put_part(out, entry, next.start(w * m), m);
        next = next.alloc(w * m);
        entry += LIST_PART_SIZE;
    }
}

// Each part's first item number.
fn put_offsets(out: &mut [u8], at: usize, parts: Parts)
    requires { (sum_of (counts_left parts) < 2 ^ 32) × (at + 4 * length (counts_left parts) < 2 ^ 28) }
    ensures { out.new ≡ put at (les 4 (firsts 0 (counts_left parts))) out.old }
{
    let mut entry = at;
    let mut first = 0;
    for m in parts {
        stores::put_le(out, entry, 4, first as u64);
        entry += 4;
        first += m;
    }
}

// A list's header.
fn lay_list_header(
    out: &mut [u8],
    l: Layout,
    vft: u32,
    n: usize,
    table: usize,
    offsets: u32,
    k: usize,
) -> Layout
    requires { (behind l.at list_size < 2 ^ 28) × (n < 2 ^ 32) × (table < 2 ^ 28) × (k < 2 ^ 32) }
    ensures { Laid l (row_bytes (list_row vft n (address table) offsets k) ∷ []) result out.old out.new }
{
    let start = pad(out, l, LIST_SIZE);
    let words = [
        vft,
        1,
        n as u32,
        0,
        address(table),
        0,
        offsets,
        0,
        k as u32,
        0,
        0,
        0,
    ];
    stores::put_all(out, start, 4, &words);
    l.alloc(LIST_SIZE)
}

// A part table, and behind it the parts' items.
fn lay_table(out: &mut [u8], l: Layout, w: usize, parts: Parts) -> Layout
    requires { (sum_of (counts_left parts) < 2 ^ 32) × (end_of (behind l.at (list_part_size * parts.count)) (sizes w (counts_left parts)) < 2 ^ 28) }
    ensures { Laid l (table_bytes w (behind l.at (list_part_size * parts.count)) (counts_left parts) ∷ []) result out.old out.new }
{
    let size = LIST_PART_SIZE * parts.count;
    let start = pad(out, l, size);
    let next = l.alloc(size);
    put_table(out, start, next, w, parts);
    next
}

// Where the pieces of a list stand: its parts, where their table starts, and the layout behind the items.
#[derive(Clone, Copy)]
struct Places {
    parts: Parts,
    table: usize,
    items: Layout,
}

fn list_places(l: Layout, w: usize, n: usize) -> Places
    requires { ListRoom l.at w n (list_sizes w n) }
    ensures parts { result.parts ≡ split w n }
    ensures table { result.table ≡ table_at l.at (part_count w n) }
    ensures items { result.items ≡ reached l (list_size ∷ list_part_size * part_count w n ∷ part_sizes w n) }
{
    let parts = Parts::new(w, n);
    let header = l.alloc(LIST_SIZE);
    let size = LIST_PART_SIZE * parts.count;
    Places {
        parts,
        table: header.start(size),
        items: parts_end(header.alloc(size), w, parts),
    }
}

// The layout behind a list of n items of w bytes: by it pages are known to be too short before a byte is stored.
pub fn list_end(l: Layout, w: usize, n: usize) -> Layout
    requires { ListRoom l.at w n (list_sizes w n) }
    ensures { result ≡ reached l (list_sizes w n) }
{
    let p = list_places(l, w, n);
    p.items.alloc_some(4 * p.parts.count)
}

// What stands before the items of a list: its header and its part table.
pub fn lay_list_front(out: &mut [u8], l: Layout, vft: u32, w: usize, n: usize) -> Layout
    requires { ListRoom l.at w n (list_sizes w n) }
    ensures { Laid l (front_blocks l.at vft w n) result out.old out.new }
{
    let p = list_places(l, w, n);
    let offsets = address_of(p.items, 4 * p.parts.count);
    let next = lay_list_header(out, l, vft, n, p.table, offsets, p.parts.count);
    lay_table(out, next, w, p.parts)
}

// What stands behind the items of a list: the offsets, if it has a part.
pub fn lay_offsets(out: &mut [u8], l: Layout, w: usize, n: usize) -> Layout
    requires { ListRoom l.at w n (offset_sizes (part_count w n)) }
    ensures { Laid l (offset_blocks (part_counts (part_count w n) (per_part w) n)) result out.old out.new }
{
    let parts = Parts::new(w, n);
    if parts.count == 0 {
        return l;
    }
    let size = 4 * parts.count;
    let start = pad(out, l, size);
    put_offsets(out, start, parts);
    l.alloc(size)
}
