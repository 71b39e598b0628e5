// Equal short triples share a vertex, numbered as first met. A triple is the one number
// x + 2^16 y + 2^32 z. The table lies in lent words: `buckets` roots of trees, then two words to a vertex. No walk has more than 48 steps.
#![tactic(auto)]

ghost use Rattle.std.specs.Prelude.{◌≡◌, ◌+◌, ◌/◌, ◌≤◌, ◌<◌, ◌^◌, min, length};
ghost use Rattle.write_vertices.specs.Table.{triple_at, hash_of, half_word_at, child_of, Walked, Table};

// A vertex' number, and how many vertices there are now.
#[derive(Clone, Copy, Debug, PartialEq, Eq)]
pub struct Numbered {
    pub number: usize,
    pub count: usize,
}

// The tree in which a triple stands: a product's low half, spread over the trees. A `%` would cost a division.
fn hash(triple: u64, buckets: usize) -> usize
    requires { (0 < buckets) × (buckets ≤ 2 ^ 32) }
    ensures bucket { result ≡ hash_of buckets triple }
    ensures bound { result < buckets }
{
    let low = triple % 4294967296;
    let high = triple / 4294967296;
    let mixed = (low * 1640531527 + high * 1181783497) % 4294967296;
    (mixed * (buckets as u64) / 4294967296) as usize
}

// The triple whose first word is at `at`, where both its words are there.
pub fn whole_triple_at(table: &[u32], at: usize) -> u64
    requires { at + 1 < length table.now }
    ensures triple { result ≡ triple_at table.now at }
    ensures bound { result < 2 ^ 48 }
{
    let z = table[at + 1] % 65536;
    u64::from(table[at]) + u64::from(z) * 4294967296
}

// The same anywhere: a word past the end counts as 0.
pub fn triple_at(table: &[u32], at: usize) -> u64
    ensures triple { result ≡ triple_at table.now at }
    ensures bound { result < 2 ^ 48 }
{
    if table.len() <= at {
        return 0;
    }
    if table.len() - at < 2 {
        return u64::from(table[at]);
    }
    whole_triple_at(table, at)
}

// Half s of all words: the low half of a word where s is even, else its high half.
fn half_word_at(table: &[u32], s: usize) -> usize
    requires { s / 2 < length table.now }
    ensures { result ≡ half_word_at table.now s }
{
    let word = table[s / 2];
    if s % 2 < 1 {
        return (word % 65536) as usize;
    }
    (word / 65536) as usize
}

// The half for the child of vertex p to which a walk goes that has `key` left.
fn child_of(buckets: usize, p: usize, key: u64) -> usize
    requires { (buckets ≤ 2 ^ 32) × (p ≤ 65536) }
    ensures { result ≡ child_of buckets p key }
{
    if key % 2 < 1 {
        return 2 * (buckets + 2 * p + 1) + 1;
    }
    2 * p + 1
}

// The vertex with this triple, or as an error the half that would lead to it: down its tree, a bit of the triple a step. Vertex 65,535 stands in none.
pub fn find(table: &[u32], buckets: usize, count: usize, triple: u64) -> Result<usize, usize>
    requires { Table table.now buckets count × (triple < 2 ^ 48) }
    ensures { Walked table.now buckets count triple result }
{
    let mut place = 2 * hash(triple, buckets);
    let mut p = half_word_at(table, place);
    let mut key = triple;
    // no `for`: a walk down a tree ends where it has no vertex
    while p != 0 {
        let i = p - 1;
        if whole_triple_at(table, buckets + 2 * i) == triple {
            return Ok(i);
        }
        place = child_of(buckets, i, key);
        p = half_word_at(table, place);
        key = key / 2;
    }
    if 65535 < count && triple_at(table, buckets + 131070) == triple {
        return Ok(65535);
    }
    Err(place)
}

// How many trees a table for m triples has: one for each, as far as there can be vertices.
pub fn tree_count(m: usize) -> usize
    ensures { result ≡ min m 65536 }
{
    m.min(65536)
}
