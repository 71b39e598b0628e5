// Replays the oracle's list of strips, which stands on standard input, against the writer, and prints how many records of each number agree.
// What stands in the list is said in `write_replay`.
#![tactic(auto)]

ghost use Rattle.std.specs.Prelude.{◌≡◌, true, ◌+◌, ◌≤◌, ◌<◌, length, IfOk};
ghost use Rattle.strip.specs.Outcome.{shown, paper};
ghost use Rattle.replay.specs.Tallies.{Tallied, Step};
ghost use Rattle.write_replay.specs.Agreement.{untouched_bytes, outcome_of, pages_of, Agrees, Asked, TallyOf, WriteRecordInside};

use fields::u32_le;
use replay::{Tally, as_told, asked, print_first, print_number, print_tally, read_full, tallied};
use std::io;
use strip::Refusal;
use write_replay::{Record, answer_agrees, pages_agree, record_at};
use write_runs::make_strip;
use ynv_write::Written;

// What the pages hold before a record's strip is written into them.
fn untouched() -> [u8; 1400000]
    ensures content { result ≡ untouched_bytes }
    ensures size { 1400000 ≡ length result }
{
    [0xD1; 1400000]
}

// Work for the longest strip, dirty.
fn work_room() -> [u32; 856000]
    ensures { 856000 ≡ length result }
{
    [0xD1D1_D1D1; 856000]
}

fn strip_room() -> [u32; 214000]
    ensures { 214000 ≡ length result }
{
    [0; 214000]
}

// Writes a strip into as much of the pages, and with as much work, as the record says.
fn write_record(list: &[u8], at: usize, strip: &[u32], pages: &mut [u8]) -> Result<Written, Refusal>
    requires { at + 60 ≤ length list.now }
    ensures answer { paper result ≡ shown (outcome_of list.now at strip.now (length pages.old)) }
    ensures pages { pages.new ≡ pages_of list.now at strip.now pages.old }
{
    let mut work = work_room();
    let words = (u32_le(list, at + 4) as usize).min(856000);
    let room = (u32_le(list, at + 8) as usize).min(pages.len());
    ynv_write::serialize_ynv(strip, &mut work[..words], &mut pages[..room])
}

// Whether writing a record's strip gives its answer and its pages, and leaves the rest of them.
fn agrees(list: &[u8], at: usize, r: Record) -> bool
    requires { (at + 60 ≤ length list.now) × WriteRecordInside at r (length list.now) }
    ensures { result ≡ true → Agrees list.now at r }
{
    let runs = r.runs;
    let bytes = r.bytes;
    let mut strip = strip_room();
    let words = make_strip(&list[runs..bytes], &mut strip);
    let mut pages = untouched();
    let a = write_record(list, at, &strip[..words], &mut pages);
    if answer_agrees(list, at, as_told(a)) {
        return pages_agree(list, at, r, &pages);
    }
    false
}

// The tally with the record at a place, where the record's number is from low to high.
fn with_record(list: &[u8], at: usize, r: Record, t: Tally, low: u32, high: u32) -> Tally
    requires { (at + 60 ≤ length list.now) × WriteRecordInside at r (length list.now) × Tallied (length list.now) at t }
    ensures step { Step (Asked list.now low high at) (Agrees list.now at r) t at result }
    ensures bound { Tallied (length list.now) (at + 1) result }
{
    if asked(u32_le(list, at + 12), low, high) {
        return tallied(t, list.len(), at, agrees(list, at, r));
    }
    t
}

// Of the records whose number is from low to high.
fn tally_of(list: &[u8], low: u32, high: u32) -> Tally
    ensures { TallyOf list.now low high result }
{
    let mut t = Tally {
        seen: 0,
        agreed: 0,
        first: list.len(),
    };
    let mut at = 0;
    // a `while`: only the record says where the next one begins
    while 60 <= list.len() - at {
        if u32_le(list, at) != 8 {
            return t;
        }
        let r = record_at(list, at);
        t = with_record(list, at, r, t, low, high);
        at = r.next;
    }
    t
}

// Prints how many of the records with such a number agree. The answer is where the first stands that doesn't.
fn report(rt: &impl Print, list: &[u8], low: u32, high: u32) -> io::Result<usize>
    ensures { IfOk result (λ first. first ≤ length list.now) }
{
    let t = tally_of(list, low, high);
    print_tally(rt, t)?;
    Ok(t.first)
}

fn report_number(rt: &impl Print, list: &[u8], n: u32) -> io::Result<()> {
    print_number(rt, n)?;
    report(rt, list, n, n)?;
    Ok(())
}

fn report_numbers(rt: &impl Print, list: &[u8], low: u32, high: u32) -> io::Result<()> {
    for n in low..high {
        report_number(rt, list, n)?;
    }
    Ok(())
}

fn report_all(rt: &impl Print, list: &[u8]) -> io::Result<()> {
    report_numbers(rt, list, 0, 4)?;
    report_numbers(rt, list, 10, 21)?;
    print!(rt; "all ")?;
    let first = report(rt, list, 0, 4294967295)?;
    print_first(rt, first, list.len(), b"byte")
}

// Room for a list of 250,000 bytes. What it says of the zeros is their number, which lending them as a slice needs.
fn room() -> [u8; 250000]
    ensures { 250000 ≡ length result }
{
    [0; 250000]
}

fn main(rt: HostRuntime) -> io::Result<()> {
    let mut list = room();
    read_full(&mut rt.stdin(), &mut list)?;
    report_all(&rt, &list)
}
