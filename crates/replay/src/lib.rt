// What the programs that replay the oracle's lists share: where the parts of a record end, the tally of the records, how the list is read, and the lines that are printed.
#![tactic(auto)]

ghost use Rattle.strip.specs.Outcome.{paper};
ghost use Rattle.strip.specs.Reasons.{reason_number};
ghost use Rattle.std.specs.Prelude.{◌≡◌, true, false, ◌+◌, ◌≤◌, ◌<◌, length, get_or, IfOk};
ghost use Rattle.replay.specs.Ends.{record_end, padded};
ghost use Rattle.replay.specs.Told.{told_paper};
ghost use Rattle.replay.specs.Tallies.{Tallied, Within, counting};

pub mod lent;

use std::io;
use std::io::Read;
use strip::Refusal;

// Where `count` bytes from `from` on end, of n in all. What the list lacks is left out.
#[tactic(auto, unfolding(crate::specs::Ends::record_end))]
pub fn end_of(n: usize, from: usize, count: usize) -> usize
    requires { from ≤ n }
    ensures end { result ≡ record_end n from count }
    ensures start { from ≤ result }
    ensures bound { result ≤ n }
{
    from + count.min(n - from)
}

// Whole words that hold so many bytes, in bytes.
#[tactic(auto, unfolding(crate::specs::Ends::padded))]
pub fn padded(count: u32) -> usize
    ensures { result ≡ padded count }
{
    (count as usize).div_ceil(4) * 4
}

// Word i, and another one past the end.
pub fn word_or(words: &[u32], i: usize, other: u32) -> u32
    ensures { result ≡ get_or words.now i other }
{
    words.get(i).copied().unwrap_or(other)
}

// How many records there are, how many of them agree, and where the first stands that doesn't, or the end of the list.
#[derive(Clone, Copy)]
pub struct Tally {
    pub seen: usize,
    pub agreed: usize,
    pub first: usize,
}

// With the record at a place of n.
pub fn tallied(t: Tally, n: usize, at: usize, agreed: bool) -> Tally
    requires { Tallied n at t × (at < n) }
    ensures tally { result ≡ counting t at agreed }
    ensures bound { Tallied n (at + 1) result }
{
    let seen = t.seen + 1;
    if agreed {
        let agreed = t.agreed + 1;
        return Tally { seen, agreed, ..t };
    }
    let first = t.first.min(at);
    Tally { seen, first, ..t }
}

// Whether a number is from low to high.
pub fn asked(number: u32, low: u32, high: u32) -> bool
    ensures within { result ≡ true → Within low high number }
    ensures outside { result ≡ false → Within low high number → ⊥ }
{
    (low..=high).contains(&number)
}

// A refusal as a list tells it: by its number, whichever that is, and its place.
#[derive(Clone, Copy, Debug, PartialEq, Eq)]
pub struct ToldRefusal {
    pub number: u32,
    pub place: usize,
}

impl From<Refusal> for ToldRefusal {
    ghost from_gives = { λ refusal r. r ≡ record { number = reason_number refusal.reason; place = refusal.place } };

    fn from(refusal: Refusal) -> ToldRefusal {
        ToldRefusal {
            number: u32::from(refusal.reason),
            place: refusal.place,
        }
    }
}

// What a call answers, as a list tells it.
pub fn as_told<A>(answer: Result<A, Refusal>) -> Result<A, ToldRefusal>
    ensures { told_paper result ≡ paper answer }
{
    answer.map_err(ToldRefusal::from)
}

// Whether a refusal is the one that a record tells by its number and place. The number 0 tells none.
pub fn refusal_agrees(r: ToldRefusal, number: u32, place: u32) -> bool
    ensures { result ≡ true → (number ≡ 0 → ⊥) × (r.number ≡ number) × (r.place ≡ place) }
{
    number != 0 && r.number == number && r.place == place as usize
}

// Reads until the buffer is full or the input ends, and answers how many bytes it put at the start of the buffer.
pub fn read_full(input: &mut impl Read, buffer: &mut [u8]) -> io::Result<usize>
    ensures { IfOk result (λ n. n ≤ length buffer.new) }
{
    let mut done = 0;
    // no `for`: each read gives as much as it has
    while done < buffer.len() {
        let got = input.read(&mut buffer[done..])?;
        if got == 0 {
            break;
        }
        done += got;
    }
    Ok(done)
}

pub fn print(rt: &impl Print, text: &[u8]) -> io::Result<()> {
    rt.write_all(text)
}

pub fn print_tally(rt: &impl Print, t: Tally) -> io::Result<()> {
    let Tally { seen, agreed, .. } = t;
    println!(rt; "{agreed} of {seen}")
}

// What a line begins with that is about one number of the refusals.
pub fn print_number(rt: &impl Print, n: u32) -> io::Result<()> {
    print!(rt; "number {n}: ")
}

// A line with the first difference, of n places, if there is one.
pub fn print_first(rt: &impl Print, first: usize, n: usize, unit: &[u8]) -> io::Result<()> {
    if first < n {
        print!(rt; "first difference at ")?;
        print(rt, unit)?;
        println!(rt; " {first}")?;
    }
    Ok(())
}
