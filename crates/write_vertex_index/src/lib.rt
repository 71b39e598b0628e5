// The vertex table filled: a vertex gets the number that it has, or the next one.
#![tactic(auto)]

ghost use Rattle.std.specs.Prelude.{◌≡◌, ◌+◌, ◌*◌, ◌/◌, ◌≤◌, ◌<◌, ◌^◌, length};
ghost use Rattle.write_vertices.specs.Table.{half, half_word_at, cleared, linked_with, added, TableRoom, LookedUp};

use write_vertices::{Numbered, find};

// Makes `table` one of no vertex: its first `buckets` words are 0, as far as it has them.
pub fn clear(table: &mut [u32], buckets: usize)
    ensures { table.new ≡ cleared table.old buckets }
{
    let n = buckets.min(table.len());
    table[..n].fill(0);
}

// The word with a link in a half that was 0.
fn linked(word: u32, place: usize, link: usize) -> u32
    requires { (half word place ≡ 0) × (link < 65536) }
    ensures { result ≡ linked_with word place link }
{
    if place % 2 < 1 {
        return word + link as u32;
    }
    word + link as u32 * 65536
}

// Adds a vertex, to which the half `place` then leads.
fn add(table: &mut [u32], buckets: usize, count: usize, triple: u64, place: usize)
    requires { (buckets + 2 * count + 2 ≤ length table.old) × (count < 65536) × (triple < 2 ^ 48) × (place / 2 < buckets + 2 * count)
        × (half_word_at table.old place ≡ 0) }
    ensures { table.new ≡ added table.old buckets count triple place }
{
    let word = linked(table[place / 2], place, (count + 1) % 65536);
    let at = buckets + 2 * count;
    table[at] = (triple % 4294967296) as u32;
    table[at + 1] = (triple / 4294967296) as u32;
    table[place / 2] = word;
}

// The number of a triple: that of the first equal one, or the next number, which the triple then has; none where it would be a 65,537th.
// No test could show that the words hold a table, so a caller has to keep `Table`, from `clear` on.
pub fn vertex_index(
    table: &mut [u32],
    buckets: usize,
    count: usize,
    triple: u64,
) -> Option<Numbered>
    requires { TableRoom table.old buckets count triple }
    ensures { LookedUp table.old table.new buckets count triple result }
{
    match find(table, buckets, count, triple) {
        Ok(number) => Some(Numbered { number, count }),
        Err(place) if count < 65536 => {
            add(table, buckets, count, triple, place);
            Some(Numbered {
                number: count,
                count: count + 1,
            })
        }
        Err(_) => None,
    }
}
