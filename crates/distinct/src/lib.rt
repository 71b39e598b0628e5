// Where an id stands in a table of distinct ids. The lists and their laws are in specs/ and proofs/.
#![tactic(auto)]

ghost use Rattle.std.specs.Prelude.{◌≡◌, ◌==◌, take, position};
ghost use Rattle.distinct.specs.Distinct.{index_of};

// The index of the first id that equals `id` among the first `count`, or that number where there is none.
// A count above the length counts as the length.
pub fn index_of(ids: &[u32], count: usize, id: u32) -> usize
    ensures { result ≡ index_of (take count ids.now) id }
{
    let known = &ids[..count.min(ids.len())];
    first_of(known, id).unwrap_or(known.len())
}

fn first_of(ids: &[u32], id: u32) -> Option<usize>
    ensures { result ≡ position (λ k. k == id) ids.now }
{
    ids.iter().position(|k| *k == id)
}
