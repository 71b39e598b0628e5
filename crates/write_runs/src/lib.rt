// The strip of a record of the writer's list, which is told in runs.
// A run is a part of the strip: how many words it makes, how many words are given, which of these grows, and the given words. They come
// again and again, and the one that grows is greater by 256 each time.
#![tactic(auto)]

ghost use Rattle.std.specs.Prelude.{◌≡◌, ◌+◌, ◌-◌, ◌^◌, ◌≤◌, ◌<◌, length, take};
ghost use Rattle.fields.specs.Put.{put};
ghost use Rattle.write_runs.specs.Runs.{run_word, run_words, run_of, RunAt, Unrolled};

use fields::u32_le;
use replay::end_of;

// Word k of a run: the given words again and again, of which the one at `grows` is greater by 256 each time.
fn run_word(words: &[u8], grows: usize, k: usize) -> u32
    requires { (4 ≤ length words.now) × (k < 2 ^ 32) }
    ensures { result ≡ run_word words.now grows k }
{
    let given = words.len() / 4;
    let i = k % given;
    let word = u32_le(words, 4 * i) as usize;
    if i == grows {
        return ((word + 256 * (k / given)) % 4294967296) as u32;
    }
    word as u32
}

fn fill_run(words: &[u8], grows: usize, count: usize, strip: &mut [u32], from: usize)
    requires { (4 ≤ length words.now) × (count < 2 ^ 32) × (from + count ≤ length strip.old) }
    ensures { strip.new ≡ put from (run_words words.now grows count) strip.old }
{
    for k in 0..count {
        strip[from + k] = run_word(words, grows, k);
    }
}

// Where the given words of a run begin and end, and how many words it makes.
#[derive(Clone, Copy)]
struct Run {
    words: usize,
    end: usize,
    count: usize,
}

// The run at a place, which makes as many words as it says, if any are given and there is room.
fn run_at(runs: &[u8], at: usize, room: usize) -> Run
    requires { at + 12 ≤ length runs.now }
    ensures { RunAt runs.now at room result }
{
    let words = at + 12;
    let end = end_of(runs.len(), words, 4 * (u32_le(runs, at + 4) as usize));
    if end - words < 4 {
        return Run {
            words,
            end,
            count: 0,
        };
    }
    Run {
        words,
        end,
        count: (u32_le(runs, at) as usize).min(room),
    }
}

// Makes the words of the run at a place, behind those that are made.
fn put_run(runs: &[u8], at: usize, r: Run, strip: &mut [u32], made: usize)
    requires { (at + 12 ≤ length runs.now) × (made ≤ length strip.old) × RunAt runs.now at (length strip.old - made) r }
    ensures { strip.new ≡ put made (run_of runs.now at (length strip.old - made)) strip.old }
{
    let words = r.words;
    let end = r.end;
    if 0 < r.count {
        fill_run(
            &runs[words..end],
            u32_le(runs, at + 8) as usize,
            r.count,
            strip,
            made,
        );
    }
}

// Makes the strip that runs stand for. The answer is how many words it has.
pub fn make_strip(runs: &[u8], strip: &mut [u32]) -> usize
    ensures bound { result ≤ length strip.old }
    ensures content { Unrolled runs.now (length strip.old) (take result strip.new) }
    ensures size { length strip.new ≡ length strip.old }
{
    let mut at = 0;
    let mut made = 0;
    // a `while`: only the run says where the next one begins
    while 12 <= runs.len() - at {
        let r = run_at(runs, at, strip.len() - made);
        put_run(runs, at, r, strip, made);
        made += r.count;
        at = r.end;
    }
    made
}
