// The records of the writer's list: where their parts stand, and whether an answer and pages are what a record tells.
// The list is made of 32-bit little-endian words. A record is the word 8; the words of work and the bytes of pages lent; the number, 0 for
// an accepted strip; eight words, of which the first are its values (the length of its pages, points stored, points dropped, coordinates pushed), or the place; the pages'
// checksum, or 0; how many of their bytes are expected; how many words the runs take; the runs; and the bytes expected, padded to whole words. The
// first word that isn't 8 ends the list.
// What a run is, is said in `write_runs`.
#![tactic(auto)]

ghost use Rattle.std.specs.Prelude.{◌≡◌, true, ◌+◌, ◌≤◌, eqb, length};
ghost use Rattle.fields.specs.Bytes.{le_at};
ghost use Rattle.strip.specs.Outcome.{values};
ghost use Rattle.replay.specs.Told.{told_paper};
ghost use Rattle.write_replay.specs.Agreement.{expected, expected_length, checksum, SameBytes, Untouched, PagesAgree, record_of, WriteRecordInside};

use fields::u32_le;
use replay::{ToldRefusal, end_of, padded, refusal_agrees};
use ynv_write::Written;

// Where the runs of a record begin, the bytes expected begin and end, and the next record begins.
#[derive(Clone, Copy)]
pub struct Record {
    pub runs: usize,
    pub bytes: usize,
    pub bytes_end: usize,
    pub next: usize,
}

pub fn record_at(list: &[u8], at: usize) -> Record
    requires { at + 60 ≤ length list.now }
    ensures places { result ≡ record_of list.now at }
    ensures bound { WriteRecordInside at result (length list.now) }
{
    let n = list.len();
    let runs = at + 60;
    let expected = u32_le(list, at + 52);
    let bytes = end_of(n, runs, 4 * (u32_le(list, at + 56) as usize));
    Record {
        runs,
        bytes,
        bytes_end: end_of(n, bytes, expected as usize),
        next: end_of(n, bytes, padded(expected)),
    }
}

// Whether the word at a place is this number.
fn word_is(list: &[u8], at: usize, n: usize) -> bool
    requires { at + 4 ≤ length list.now }
    ensures { result ≡ eqb n (le_at 4 list.now at) }
{
    n == u32_le(list, at) as usize
}

fn values_agree(list: &[u8], at: usize, w: Written) -> bool
    requires { at + 60 ≤ length list.now }
    ensures { result ≡ true → values w ≡ expected list.now at }
{
    // not one `&&` more: the last test is the answer, and what it says is then at hand
    if u32_le(list, at + 12) == 0
        && word_is(list, at + 16, w.length)
        && word_is(list, at + 20, w.stored)
        && word_is(list, at + 24, w.dropped)
    {
        return word_is(list, at + 28, w.pushed);
    }
    false
}

// Whether an answer is what the record says.
pub fn answer_agrees(list: &[u8], at: usize, a: Result<Written, ToldRefusal>) -> bool
    requires { at + 60 ≤ length list.now }
    ensures { result ≡ true → told_paper a ≡ expected list.now at }
{
    match a {
        Ok(w) => values_agree(list, at, w),
        Err(r) => { refusal_agrees(r, u32_le(list, at + 12), u32_le(list, at + 16)) }
    }
}

// The length of the pages that the record tells: 0 where it is refused.
fn told_length(list: &[u8], at: usize) -> usize
    requires { at + 60 ≤ length list.now }
    ensures { result ≡ expected_length list.now at }
{
    if u32_le(list, at + 12) == 0 {
        return u32_le(list, at + 16) as usize;
    }
    0
}

// The checksum of bytes, modulo the greatest prime below 2^32.
fn checksum(bytes: &[u8]) -> u64
    ensures { result ≡ checksum bytes.now }
{
    let mut sum: u64 = 0;
    for byte in bytes {
        sum = (sum * 2654435761 + u64::from(*byte) + 1) % 4294967291;
    }
    sum
}

// Whether the pages begin with the bytes expected.
fn bytes_agree(expected: &[u8], pages: &[u8]) -> bool
    ensures { result ≡ true → SameBytes expected.now pages.now }
{
    if pages.len() < expected.len() {
        return false;
    }
    for k in 0..expected.len() {
        if pages[k] != expected[k] {
            return false;
        }
    }
    true
}

// Whether the pages from a place on are as they were.
fn stays_from(pages: &[u8], from: usize) -> bool
    requires { from ≤ length pages.now }
    ensures { result ≡ true → Untouched from pages.now }
{
    for k in from..pages.len() {
        if pages[k] != 0xD1 {
            return false;
        }
    }
    true
}

// Whether the pages have the record's checksum and its bytes, and are behind them as they were.
pub fn pages_agree<'a>(list: &'a [u8], at: usize, r: Record, pages: &'a [u8]) -> bool
    requires { (at + 60 ≤ length list.now) × WriteRecordInside at r (length list.now) }
    ensures { result ≡ true → PagesAgree list.now at r pages.now }
{
    let bytes = r.bytes;
    let bytes_end = r.bytes_end;
    let filled = told_length(list, at).min(pages.len());
    if checksum(&pages[..filled]) != u64::from(u32_le(list, at + 48)) {
        return false;
    }
    bytes_agree(&list[bytes..bytes_end], pages) && stays_from(pages, filled)
}
