// The lists of a navmesh: a header, a part table and parts. `read_list_check` decides and counts; a cursor then finds items, part by part.
#![tactic(auto)]

ghost use Rattle.std.specs.Prelude.{◌≡◌, ◌+◌, ◌-◌, ◌*◌, ◌^◌, ◌≤◌, ◌<◌, take, drop};
ghost use Rattle.read_lists.specs.Lists.{parts, before, total, table_of, list_bytes};
ghost use Rattle.read_lists.specs.Listed.{Readable};
ghost use Rattle.read_lists.specs.Cursors.{AtPart, Holds, run_at};

use fields::sizes::{LIST_PART_SIZE, LIST_SIZE};
use fields::{u32_le, u64_le};
use res_reader::ResReader;

// A part of a list's table: its number, the number of its first item, its item count and its address.
#[derive(Clone, Copy)]
pub struct Cursor {
    pub part: usize,
    pub first: usize,
    pub count: usize,
    pub address: u64,
}

// The part table of the list at va.
pub fn list_table<'a>(reader: ResReader<'a>, va: u64) -> &'a [u8]
    ensures { result.now ≡ table_of reader.entry.system.now reader.entry.graphics.now va }
{
    let h = reader.resolve(va, LIST_SIZE);
    let address = u64_le(h, 0x10);
    let count = u32_le(h, 0x20) as usize;
    reader.resolve(address, LIST_PART_SIZE * count)
}

// The cursor at part k.
fn cursor_at(table: &[u8], k: usize, first: usize) -> Cursor
    requires { (k ≤ parts table.now) × (first ≡ before table.now k) }
    ensures cursor { AtPart table.now result }
    ensures part { result.part ≡ k }
    ensures first { result.first ≡ first }
{
    Cursor {
        part: k,
        first,
        count: u32_le(table, LIST_PART_SIZE * k + 8) as usize,
        address: u64_le(table, LIST_PART_SIZE * k),
    }
}

// The cursor at the head of a list.
pub fn list_start(table: &[u8]) -> Cursor
    ensures cursor { AtPart table.now result }
    ensures part { result.part ≡ 0 }
    ensures first { result.first ≡ 0 }
{
    cursor_at(table, 0, 0)
}

// The cursor moved back, part by part, until item i stands at its part or behind it. A `while`: no number says beforehand how many parts.
fn back_to(table: &[u8], from: Cursor, i: usize) -> Cursor
    requires { AtPart table.now from }
    ensures cursor { AtPart table.now result }
    ensures bound { result.first ≤ i }
{
    let mut c = from;
    while i < c.first {
        let k = c.part - 1;
        let count = u32_le(table, LIST_PART_SIZE * k + 8) as usize;
        c = cursor_at(table, k, c.first - count);
    }
    c
}

// The cursor moved to the part that holds item i, back or forth from where it stands: by a `while` too, since empty parts lie between.
pub fn walk_to(table: &[u8], from: Cursor, i: usize) -> Cursor
    requires { AtPart table.now from × (i < total table.now) × (total table.now < 2 ^ 32) }
    ensures { Holds table.now i result }
{
    let mut c = back_to(table, from, i);
    while c.first + c.count <= i {
        c = cursor_at(table, c.part + 1, c.first + c.count);
    }
    c
}

// The same. An item of the part where the cursor stands costs two tests and no call.
pub fn seek(table: &[u8], from: Cursor, i: usize) -> Cursor
    requires { AtPart table.now from × (i < total table.now) × (total table.now < 2 ^ 32) }
    ensures { Holds table.now i result }
{
    if from.first <= i && i - from.first < from.count {
        return from;
    }
    walk_to(table, from, i)
}

// Items i, i + 1 and so on, as far as the cursor's part goes: a part of the lent section itself.
pub fn list_run<'a>(
    reader: ResReader<'a>,
    table: &'a [u8],
    size: usize,
    c: Cursor,
    i: usize,
) -> &'a [u8]
    requires { Readable reader.system.now reader.graphics.now size table.now × Holds table.now i c × (0 < size) }
    ensures content { result.now ≡ take (size * (c.first + c.count - i)) (drop (size * i) (list_bytes reader.entry.system.now reader.entry.graphics.now size table.now)) }
    ensures place { result.ref_ptr ≡ run_at reader.entry.system reader.entry.graphics c.address (size * (i - c.first)) }
{
    let count = c.count;
    let p = reader.good_part(c.address, size * count);
    let at = size * (i - c.first);
    &p[at..]
}
