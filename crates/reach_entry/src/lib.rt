// `reachable` for C: how its answer stands in eight words. `ynv` exports it.
#![tactic(auto)]

ghost use Rattle.std.specs.Prelude.{◌≡◌, length};
ghost use Rattle.fields.specs.Bytes.{over};
ghost use Rattle.strip.specs.Outcome.{shown, left};
ghost use Rattle.answers.specs.Words.{number_of, answer_words};
ghost use Rattle.reach.specs.Reached.{reach_outcome};
ghost use Rattle.reach_entry.specs.Entries.{reach_words};

use answers::{accept, refuse};

// How many polygons are marked.
pub fn reach_entry(strip: &[u32], start: u64, marks: &mut [u8], answer: &mut [u64; 8]) -> u32
    ensures number { result ≡ number_of (shown (reach_outcome strip.now start (length marks.old))) }
    ensures words { answer.new ≡ over (answer_words reach_words (shown (reach_outcome strip.now start (length marks.old)))) answer.old }
    ensures marks { marks.new ≡ left (reach_outcome strip.now start (length marks.old)) marks.old }
{
    match reach::reachable(strip, start as usize, marks) {
        Ok(n) => accept(answer, &[n as u64]),
        Err(r) => refuse(answer, u32::from(r.reason), r.place),
    }
}
