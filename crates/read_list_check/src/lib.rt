// A list of a navmesh, decided and counted: its header, its part table and each part are there, and the parts hold as many items as the header says.
#![tactic(auto)]

ghost use Rattle.strip.specs.Outcome.{paper};
ghost use Rattle.std.specs.Prelude.{◌≡◌};
ghost use Rattle.read_lists.specs.Lists.{listed};
ghost use Rattle.read_lists.specs.Listed.{Few};

use fields::sizes::{LIST_PART_SIZE, LIST_SIZE};
use fields::{u32_le, u64_le};
use read_lists::list_table;
use res_reader::ResReader;
use strip::{Reason, Refusal};

// How many items the list at va has. Counts are compared only when every part was looked at.
pub fn read_list<'a>(
    reader: ResReader<'a>,
    va: u64,
    item_size: u16,
    place: usize,
) -> Result<usize, Refusal>
    ensures answer { paper result ≡ listed reader.entry.system.now reader.entry.graphics.now item_size va place }
    ensures bound { Few result }
{
    if va == 0 {
        return Ok(0);
    }
    let bad = Refusal {
        reason: Reason::BadList,
        place,
    };
    let h = reader.resolve(va, LIST_SIZE);
    if h.len() < LIST_SIZE {
        return Err(bad);
    }
    let items = u32_le(h, 8) as usize;
    let count = u32_le(h, 0x20) as usize;
    let table = list_table(reader, va);
    if table.len() < LIST_PART_SIZE * count {
        return Err(bad);
    }
    let mut total: usize = 0;
    for k in 0..count {
        let part = u32_le(table, LIST_PART_SIZE * k + 8) as usize;
        let bytes = usize::from(item_size) * part;
        if reader
            .resolve(u64_le(table, LIST_PART_SIZE * k), bytes)
            .len()
            < bytes
        {
            return Err(bad);
        }
        total += part;
    }
    if total == items {
        Ok(items)
    } else {
        Err(Refusal {
            reason: Reason::ListCount,
            place,
        })
    }
}
