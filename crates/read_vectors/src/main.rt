// Replays the oracle's list of pages, which stands on standard input, against the reader, and prints how many records of each number agree.
// What stands in the list is said in `read_replay`.
#![tactic(auto)]

ghost use Rattle.std.specs.Prelude.{◌≡◌, true, ◌+◌, ◌≤◌, ◌<◌, length, IfOk};
ghost use Rattle.strip.specs.Outcome.{shown, paper};
ghost use Rattle.replay.specs.Tallies.{Tallied, Step};
ghost use Rattle.read_replay.specs.Agreement.{untouched_words, outcome_of, strip_of, Agrees, Asked, TallyOf, ReadRecordInside};

use fields::u32_le;
use read_decide::Parsed;
use read_replay::{Record, answer_agrees, record_at, words_agree};
use replay::{Tally, as_told, asked, print_first, print_number, print_tally, read_full, tallied};
use std::io;
use strip::Refusal;

// Reads the sections of a record into as much of the strip as the record says.
fn read_record(bytes: &[u8], at: usize, r: Record, strip: &mut [u32]) -> Result<Parsed, Refusal>
    requires { ReadRecordInside at r (length bytes.now) }
    ensures answer { paper result ≡ shown (outcome_of bytes.now at r (length strip.old)) }
    ensures strip { strip.new ≡ strip_of bytes.now at r strip.old }
{
    let system = r.system;
    let system_end = r.system_end;
    let graphics = r.graphics;
    let graphics_end = r.graphics_end;
    let lent = (u32_le(bytes, at + 12) as usize).min(strip.len());
    ynv_read::parse_ynv(
        &bytes[system..system_end],
        &bytes[graphics..graphics_end],
        &mut strip[..lent],
    )
}

// What the strip holds before a record's sections are read into it.
fn untouched() -> [u32; 512]
    ensures content { result ≡ untouched_words }
    ensures size { 512 ≡ length result }
{
    [0xD1D1_D1D1; 512]
}

// Whether reading a record's sections gives its answer and its words, and leaves the rest of the strip.
fn agrees(bytes: &[u8], at: usize, r: Record) -> bool
    requires { (at + 40 ≤ length bytes.now) × ReadRecordInside at r (length bytes.now) }
    ensures { result ≡ true → Agrees bytes.now at r }
{
    let words = r.strip;
    let next = r.next;
    let mut strip = untouched();
    let a = read_record(bytes, at, r, &mut strip);
    if answer_agrees(bytes, at, as_told(a)) {
        return words_agree(&bytes[words..next], &strip);
    }
    false
}

// The tally with the record at a place, where the record's number is from low to high.
fn with_record(bytes: &[u8], at: usize, r: Record, t: Tally, low: u32, high: u32) -> Tally
    requires { (at + 40 ≤ length bytes.now) × ReadRecordInside at r (length bytes.now) × Tallied (length bytes.now) at t }
    ensures step { Step (Asked bytes.now low high at) (Agrees bytes.now at r) t at result }
    ensures bound { Tallied (length bytes.now) (at + 1) result }
{
    if asked(u32_le(bytes, at + 16), low, high) {
        return tallied(t, bytes.len(), at, agrees(bytes, at, r));
    }
    t
}

// Of the records whose number is from low to high.
fn tally_of(bytes: &[u8], low: u32, high: u32) -> Tally
    ensures { TallyOf bytes.now low high result }
{
    let mut t = Tally {
        seen: 0,
        agreed: 0,
        first: bytes.len(),
    };
    let mut at = 0;
    // a `while`: only the record says where the next one begins
    while 40 <= bytes.len() - at {
        if u32_le(bytes, at) != 7 {
            return t;
        }
        let r = record_at(bytes, at);
        t = with_record(bytes, at, r, t, low, high);
        at = r.next;
    }
    t
}

// Prints how many of the records with such a number agree. The answer is where the first stands that doesn't.
fn report(rt: &impl Print, bytes: &[u8], low: u32, high: u32) -> io::Result<usize>
    ensures { IfOk result (λ first. first ≤ length bytes.now) }
{
    let t = tally_of(bytes, low, high);
    print_tally(rt, t)?;
    Ok(t.first)
}

fn report_number(rt: &impl Print, bytes: &[u8], n: u32) -> io::Result<()> {
    print_number(rt, n)?;
    report(rt, bytes, n, n)?;
    Ok(())
}

fn report_numbers(rt: &impl Print, bytes: &[u8], low: u32, high: u32) -> io::Result<()> {
    for n in low..high {
        report_number(rt, bytes, n)?;
    }
    Ok(())
}

fn report_all(rt: &impl Print, bytes: &[u8]) -> io::Result<()> {
    report_number(rt, bytes, 0)?;
    report_number(rt, bytes, 2)?;
    report_numbers(rt, bytes, 30, 41)?;
    print!(rt; "all ")?;
    let first = report(rt, bytes, 0, 4294967295)?;
    print_first(rt, first, bytes.len(), b"byte")
}

// Room for a list of 700,000 bytes. What it says of the zeros is their number, which lending them as a slice needs.
fn room() -> [u8; 700000]
    ensures { 700000 ≡ length result }
{
    [0; 700000]
}

fn main(rt: HostRuntime) -> io::Result<()> {
    let mut bytes = room();
    read_full(&mut rt.stdin(), &mut bytes)?;
    report_all(&rt, &bytes)
}
