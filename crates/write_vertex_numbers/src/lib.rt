// The number of each triple of a list, as first met: the numbers first in lent words, the vertex table behind them.
#![tactic(auto)]

ghost use Rattle.std.specs.Prelude.{◌+◌, ◌*◌, ◌≤◌, ◌<◌, ◌^◌, min, length};
ghost use Rattle.write_vertices.specs.Table.{met};
ghost use Rattle.write_vertex_numbers.specs.Numbers.{InWork, triples_of, NumberedAll};

use strip::{Reason, Refusal};
use write_vertex_index::{clear, vertex_index};
use write_vertices::{tree_count, whole_triple_at};

// The numbers of m triples, first in `work`; the table lies from m on. How many vertices there are, or 14 at the place of a 65,537th.
fn number_in(triples: &[u32], m: usize, work: &mut [u32], buckets: usize) -> Result<usize, Refusal>
    requires { (0 < buckets) × (buckets ≤ 2 ^ 32) × (2 * m ≤ length triples.now) × (m + (buckets + 2 * m) ≤ length work.old)
        × (min m 65536 ≤ buckets) }
    ensures { InWork (met triples.now 0 m) m buckets work.old work.new result }
{
    clear(&mut work[m..], buckets);
    let mut n = 0;
    for i in 0..m {
        let triple = whole_triple_at(triples, 2 * i);
        let Some(known) = vertex_index(&mut work[m..], buckets, n, triple) else {
            return Err(Refusal {
                reason: Reason::ManyVertices,
                place: i,
            });
        };
        work[i] = known.number as u32;
        n = known.count;
    }
    Ok(n)
}

// The number of each triple, which is given as two words; a last word alone is none. The numbers come first in `work`, the table behind them:
// four words to a triple are enough, and fewer are 1.
pub fn number_all(triples: &[u32], work: &mut [u32]) -> Result<usize, Refusal>
    ensures { NumberedAll (triples_of triples.now) work.old work.new result }
{
    let m = triples.len() / 2;
    if work.len() / 4 < m {
        return Err(Refusal {
            reason: Reason::TooLittleWork,
            place: 0,
        });
    }
    if m == 0 {
        return Ok(0);
    }
    let buckets = tree_count(m);
    number_in(triples, m, work, buckets)
}
