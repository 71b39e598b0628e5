// The records of the leaves' list: where their parts stand, and whether the words out are what the leaves, `pick_poly`, `export_obj`, `count_seams` and `reachable` make of the words in.
// The list is made of 32-bit little-endian words; a record is its tag, how many words go in and how many come out, and these words. The last
// record has the tag 0, as what lies behind the list has.
#![tactic(auto)]

ghost use Rattle.std.specs.Prelude.{◌≡◌, true, ℕ, ◌+◌, ◌*◌, ◌≤◌, ◌<◌, length, get_or, drop};
ghost use Rattle.fields.specs.Bytes.{zeros};
ghost use Rattle.areas.specs.Areas.{seeded};
ghost use Rattle.areas.specs.Tables.{stored};
ghost use Rattle.leaf_replay.specs.Agreement.{short_of, back_of, floor_of, ceil_of, place_in, strip_number, strip_words, pick_number, pick_words, seams_number, seams_words, taking, AreasAgree, FirstThree, Agrees, record_of, LeafRecordInside};

use areas::Areas;
use obj_replay::drawing_agrees;
use reach_replay::walk_agrees;
use replay::{end_of, word_or};

// Word i, and 0 past the end.
fn word(words: &[u32], i: usize) -> u32
    ensures { result ≡ get_or words.now i 0 }
{
    word_or(words, i, 0)
}

// For each kind, whether the words out are what the leaf makes of the words in.
fn short_agrees(input: &[u32], output: &[u32]) -> bool
    ensures { result ≡ true → short_of input.now ≡ get_or output.now 0 0 }
{
    units::leaf_short(word(input, 0), word(input, 1), word(input, 2)) == word(output, 0)
}

fn back_agrees(input: &[u32], output: &[u32]) -> bool
    ensures { result ≡ true → back_of input.now ≡ get_or output.now 0 0 }
{
    units::leaf_back(word(input, 0), word(input, 1), word(input, 2)) == word(output, 0)
}

fn quarter_agrees(input: &[u32], output: &[u32]) -> bool
    ensures { result ≡ true → (floor_of input.now ≡ get_or output.now 0 0) × (ceil_of input.now ≡ get_or output.now 1 0) }
{
    let x = word(input, 0);
    units::leaf_quarter(x, 0) == word(output, 0) && units::leaf_quarter(x, 1) == word(output, 1)
}

fn place_agrees(input: &[u32], output: &[u32]) -> bool
    ensures { result ≡ true → place_in input.now ≡ get_or output.now 0 0 + 0x1_0000_0000 * get_or output.now 1 0 }
{
    let place = units::leaf_place(word(input, 0), word(input, 1));
    place == (word(output, 0) as u64) + 0x1_0000_0000 * (word(output, 1) as u64)
}

fn strip_agrees(input: &[u32], output: &[u32]) -> bool
    ensures { result ≡ true → (strip_number input.now ≡ get_or output.now 0 0) × FirstThree (strip_words input.now) output.now }
{
    let mut answer = [0u64; 8];
    let number = units::leaf_check_strip(input, &mut answer);
    answer_agrees(number, &answer, output)
}

fn pick_agrees(input: &[u32], output: &[u32]) -> bool
    ensures { result ≡ true → (pick_number input.now ≡ get_or output.now 0 0) × FirstThree (pick_words input.now) output.now }
{
    if input.len() < 2 {
        return false;
    }
    let x = (input[0] % 65536) as u16;
    let y = (input[1] % 65536) as u16;
    let mut answer = [0u64; 8];
    let number = pick_entry::pick_entry(&input[2..], x, y, &mut answer);
    answer_agrees(number, &answer, output)
}

fn seams_agree(input: &[u32], output: &[u32]) -> bool
    ensures { result ≡ true → (seams_number input.now ≡ get_or output.now 0 0) × FirstThree (seams_words input.now) output.now }
{
    let mut answer = [0u64; 8];
    let number = seams::seams_entry(input, &mut answer);
    answer_agrees(number, &answer, output)
}

// Whether a C entry's number and the first three words of its answer are the words out.
fn answer_agrees(number: u32, answer: &[u64; 8], output: &[u32]) -> bool
    ensures { result ≡ true → (number ≡ get_or output.now 0 0) × FirstThree answer.now output.now }
{
    number == word(output, 0) && counts_agree(answer, output)
}

fn counts_agree(answer: &[u64; 8], output: &[u32]) -> bool
    ensures { result ≡ true → FirstThree answer.now output.now }
{
    answer[0] == u64::from(word(output, 1))
        && answer[1] == u64::from(word(output, 2))
        && answer[2] == u64::from(word(output, 3))
}

// The table after as many ids as are taken before a 33rd area, and how many these are.
#[derive(Clone, Copy)]
struct Taken {
    areas: Areas,
    count: usize,
}

fn take_areas(input: &[u32]) -> Taken
    ensures { result ≡ taking (stored (seeded (get_or input.now 0 0)) (zeros 32)) 0 (drop 1 input.now) }
{
    let mut t = areas::seed_areas(word(input, 0));
    for i in 1..input.len() {
        let e = areas::ensure_area(t, input[i]);
        match e.at {
            Some(_) => t = e.areas,
            None => {
                return Taken {
                    areas: t,
                    count: i - 1,
                };
            }
        }
    }
    Taken {
        areas: t,
        count: input.len().saturating_sub(1),
    }
}

fn ids_agree(ids: &[u32; 32], output: &[u32]) -> bool
    ensures { result ≡ true → ((k : ℕ) → k < 32 → get_or ids.now k 0 ≡ get_or output.now (k + 2) 0) }
{
    for k in 0..32 {
        let expected = word(output, k + 2);
        let found = ids[k];
        if found != expected {
            return false;
        }
    }
    true
}

fn areas_agree(input: &[u32], output: &[u32]) -> bool
    ensures { result ≡ true → AreasAgree input.now output.now }
{
    let r = take_areas(input);
    let t = r.areas;
    let count = word(output, 0) as usize;
    let len = word(output, 1) as usize;
    let ids = t.ids;
    r.count == count && t.len == len && ids_agree(&ids, output)
}

// Whether a record agrees. One of another tag doesn't.
pub fn agrees(tag: u32, input: &[u32], output: &[u32]) -> bool
    ensures { result ≡ true → Agrees tag input.now output.now }
{
    match tag {
        1 => short_agrees(input, output),
        2 => back_agrees(input, output),
        3 => quarter_agrees(input, output),
        4 => areas_agree(input, output),
        5 => place_agrees(input, output),
        6 => strip_agrees(input, output),
        7 => pick_agrees(input, output),
        8 => drawing_agrees(input, output),
        9 => seams_agree(input, output),
        10 => walk_agrees(input, output),
        0 | 11..=4294967295 => false,
    }
}

// Where a record's words in begin, its words out, and the next record. Words that the list lacks are left out.
#[derive(Clone, Copy)]
pub struct Record {
    pub input: usize,
    pub output: usize,
    pub next: usize,
}

pub fn record_at(words: &[u32], at: usize) -> Record
    requires { at + 3 ≤ length words.now }
    ensures places { result ≡ record_of words.now at }
    ensures bound { LeafRecordInside at result (length words.now) }
{
    let input = at + 3;
    let output = end_of(words.len(), input, words[at + 1] as usize);
    let next = end_of(words.len(), output, words[at + 2] as usize);
    Record {
        input,
        output,
        next,
    }
}
