// Replays the oracle's list of vectors, which stands on standard input, against the leaves, `pick_poly`, `export_obj`, `count_seams` and `reachable`, and prints
// how many records of each kind agree. What stands in the list is said in `leaf_replay`.
#![tactic(auto)]

ghost use Rattle.std.specs.Prelude.{◌≡◌, ℕ, ◌+◌, ◌*◌, ◌≤◌, ◌<◌, length, get_or, IfOk};
ghost use Rattle.fields.specs.Bytes.{le_at};
ghost use Rattle.replay.specs.Tallies.{Tallied, Step};
ghost use Rattle.leaf_replay.specs.Agreement.{AgreesAt, Asked, TallyOf, LeafRecordInside};

use leaf_replay::{Record, agrees, record_at};
use replay::{Tally, asked, print_first, print_tally, read_full, tallied};
use std::io;

// The tally with the record at a place, where the record's tag is from low to high.
fn with_record(words: &[u32], at: usize, r: Record, t: Tally, low: u32, high: u32) -> Tally
    requires { LeafRecordInside at r (length words.now) × Tallied (length words.now) at t }
    ensures step { Step (Asked words.now low high at) (AgreesAt words.now at r) t at result }
    ensures bound { Tallied (length words.now) (at + 1) result }
{
    let tag = words[at];
    let input = r.input;
    let output = r.output;
    let next = r.next;
    if asked(tag, low, high) {
        let agreed = agrees(tag, &words[input..output], &words[output..next]);
        return tallied(t, words.len(), at, agreed);
    }
    t
}

// Of the records whose tag is from low to high.
fn tally_of(words: &[u32], low: u32, high: u32) -> Tally
    ensures { TallyOf words.now low high result }
{
    let mut t = Tally {
        seen: 0,
        agreed: 0,
        first: words.len(),
    };
    let mut at = 0;
    // a `while`: only the record says where the next one begins
    while 3 <= words.len() - at {
        let r = record_at(words, at);
        t = with_record(words, at, r, t, low, high);
        at = r.next;
    }
    t
}

// Prints how many of the records with such a tag agree. The answer is where the first stands that doesn't.
fn report(rt: &impl Print, name: &str, words: &[u32], low: u32, high: u32) -> io::Result<usize>
    ensures { IfOk result (λ first. first ≤ length words.now) }
{
    let t = tally_of(words, low, high);
    print!(rt; "{name}")?;
    print_tally(rt, t)?;
    Ok(t.first)
}

// The words of the bytes.
fn load(bytes: &[u8], words: &mut [u32])
    ensures { (k : ℕ) → k < length words.old → get_or words.new k 0 ≡ le_at 4 bytes.now (4 * k) }
{
    for i in 0..words.len() {
        words[i] = fields::u32_le(bytes, 4 * i);
    }
}

// A line for each kind and one for all, where a record of another tag counts as one that differs.
fn report_all(rt: &impl Print, words: &[u32]) -> io::Result<()> {
    report(rt, "short ", words, 1, 1)?;
    report(rt, "back ", words, 2, 2)?;
    report(rt, "quarter ", words, 3, 3)?;
    report(rt, "areas ", words, 4, 4)?;
    report(rt, "place ", words, 5, 5)?;
    report(rt, "strip ", words, 6, 6)?;
    report(rt, "pick ", words, 7, 7)?;
    report(rt, "obj ", words, 8, 8)?;
    report(rt, "seams ", words, 9, 9)?;
    report(rt, "reach ", words, 10, 10)?;
    let first = report(rt, "all ", words, 1, 4294967295)?;
    print_first(rt, first, words.len(), b"word")
}

// The list has at most 130,000 bytes; zeros lie behind it.
fn main(rt: HostRuntime) -> io::Result<()> {
    let mut bytes = [0u8; 131072];
    read_full(&mut rt.stdin(), &mut bytes)?;
    let mut words = [0u32; 32768];
    load(&bytes, &mut words);
    report_all(&rt, &words)
}
