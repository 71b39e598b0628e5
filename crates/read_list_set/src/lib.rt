// The four lists of a cell at their addresses: the first refusal in order, or how many items each has.
#![tactic(auto)]

ghost use Rattle.std.specs.Prelude.{◌≡◌};
ghost use Rattle.strip.specs.Outcome.{paper};
ghost use Rattle.read_list_set.specs.Listed.{lists_of, ListsRead};

use fields::sizes::{EDGE_SIZE, INDEX_SIZE, POLY_SIZE, VERTEX_SIZE};
use read_list_check::read_list;
use res_reader::ResReader;
use strip::Refusal;

// How many items the lists and the link table have.
#[derive(Clone, Copy)]
pub struct Limits {
    pub vertices: usize,
    pub indices: usize,
    pub edges: usize,
    pub links: usize,
}

// The four lists at their addresses: the first refusal in order, or their counts, the polygons' apart.
pub fn read_lists<'a>(
    reader: ResReader<'a>,
    va: u64,
    ia: u64,
    ea: u64,
    pa: u64,
    links: usize,
) -> Result<(Limits, usize), Refusal>
    ensures answer { paper result ≡ lists_of reader.entry.system.now reader.entry.graphics.now va ia ea pa links }
    ensures lists { ListsRead reader.entry.system.now reader.entry.graphics.now va ia ea pa links result }
{
    let vertices = read_list(reader, va, VERTEX_SIZE as u16, 1)?;
    let indices = read_list(reader, ia, INDEX_SIZE as u16, 2)?;
    let edges = read_list(reader, ea, EDGE_SIZE as u16, 3)?;
    let polys = read_list(reader, pa, POLY_SIZE as u16, 4)?;
    let limits = Limits {
        vertices,
        indices,
        edges,
        links,
    };
    Ok((limits, polys))
}
