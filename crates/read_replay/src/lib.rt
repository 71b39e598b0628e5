// The records of the reader's list: where their parts stand, and whether an answer and a strip are what a record tells.
// The list is made of 32-bit little-endian words. A record is the word 7; the bytes of the system section and of the graphics section; the
// words of the strip lent; the number, 0 for an accepted cell; the cell's words, polygons, portals, points and sectors, or the place and
// zeros; the two sections, each padded to whole words; and the words of an accepted cell. The first word that isn't 7 ends the list.
#![tactic(auto)]

ghost use Rattle.std.specs.Prelude.{◌≡◌, true, ℕ, ◌+◌, ◌*◌, ◌^◌, ◌≤◌, ◌<◌, length, get_or};
ghost use Rattle.replay.specs.Told.{told_paper};
ghost use Rattle.read_replay.specs.Agreement.{expected, expected_counts, told_word, told_words, record_of, ReadRecordInside};

use fields::u32_le;
use read_decide::Parsed;
use replay::{ToldRefusal, end_of, padded, refusal_agrees};

// Where the sections of a record begin and end, its strip begins, and the next record.
#[derive(Clone, Copy)]
pub struct Record {
    pub system: usize,
    pub system_end: usize,
    pub graphics: usize,
    pub graphics_end: usize,
    pub strip: usize,
    pub next: usize,
}

// The words of the strip that stand in the record at a place: none where it is refused.
fn strip_words(bytes: &[u8], at: usize) -> usize
    requires { at + 40 ≤ length bytes.now }
    ensures count { result ≡ told_words bytes.now at }
    ensures bound { result < 2 ^ 32 }
{
    if u32_le(bytes, at + 16) == 0 {
        u32_le(bytes, at + 20) as usize
    } else {
        0
    }
}

pub fn record_at(bytes: &[u8], at: usize) -> Record
    requires { at + 40 ≤ length bytes.now }
    ensures places { result ≡ record_of bytes.now at }
    ensures bound { ReadRecordInside at result (length bytes.now) }
{
    let n = bytes.len();
    let system = at + 40;
    let first = u32_le(bytes, at + 4);
    let graphics = end_of(n, system, padded(first));
    let second = u32_le(bytes, at + 8);
    let strip = end_of(n, graphics, padded(second));
    Record {
        system,
        system_end: end_of(n, system, first as usize),
        graphics,
        graphics_end: end_of(n, graphics, second as usize),
        strip,
        next: end_of(n, strip, 4 * strip_words(bytes, at)),
    }
}

fn counts_agree(bytes: &[u8], at: usize, p: Parsed) -> bool
    requires { at + 40 ≤ length bytes.now }
    ensures { result ≡ true → p ≡ expected_counts bytes.now at }
{
    p == Parsed {
        words: u32_le(bytes, at + 20) as usize,
        polys: u32_le(bytes, at + 24) as usize,
        portals: u32_le(bytes, at + 28) as usize,
        points: u32_le(bytes, at + 32) as usize,
        sectors: u32_le(bytes, at + 36) as usize,
    }
}

// Whether an answer is what the record says.
pub fn answer_agrees(bytes: &[u8], at: usize, a: Result<Parsed, ToldRefusal>) -> bool
    requires { at + 40 ≤ length bytes.now }
    ensures { result ≡ true → told_paper a ≡ expected bytes.now at }
{
    match a {
        Ok(p) => u32_le(bytes, at + 16) == 0 && counts_agree(bytes, at, p),
        Err(r) => refusal_agrees(r, u32_le(bytes, at + 16), u32_le(bytes, at + 20)),
    }
}

// Word k of a strip that has these words in front, and behind them what it had before.
fn told_word(words: &[u8], k: usize) -> u32
    requires { k < 512 }
    ensures { result ≡ told_word words.now k }
{
    if 4 * k < words.len() {
        u32_le(words, 4 * k)
    } else {
        0xD1D1_D1D1
    }
}

pub fn words_agree(words: &[u8], strip: &[u32; 512]) -> bool
    ensures { result ≡ true → ((k : ℕ) → k < 512 → get_or strip.now k 0 ≡ told_word words.now k) }
{
    for k in 0..512 {
        if strip[k] != told_word(words, k) {
            return false;
        }
    }
    true
}
