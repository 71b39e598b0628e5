// The records of the leaves' list that are about where a walker can get to. In stand the start, the bytes lent and the strip's words; out stand the number,
// 0 for an accepted strip; how many are marked, or the place; and the marks, four bytes to a word, the last word filled with what was lent.
#![tactic(auto)]

ghost use Rattle.std.specs.Prelude.{◌≡◌, true, ◌≤◌, length};
ghost use Rattle.fields.specs.Bytes.{over};
ghost use Rattle.strip.specs.Outcome.{shown};
ghost use Rattle.answers.specs.Words.{number_of, answer_words};
ghost use Rattle.reach_entry.specs.Entries.{reach_words};
ghost use Rattle.reach_replay.specs.Agreement.{outcome_of, marks_behind, WalkAgrees};

use replay::lent::{lent_agrees, untouched};

// Walks over the record's strip, with as many of the marks as the record says.
#[tactic(auto, unfolding(crate::specs::Agreement::marks_behind))]
fn walk_record(input: &[u32], marks: &mut [u8], answer: &mut [u64; 8]) -> u32
    requires { 2 ≤ length input.now }
    ensures number { result ≡ number_of (shown (outcome_of input.now (length marks.old))) }
    ensures words { answer.new ≡ over (answer_words reach_words (shown (outcome_of input.now (length marks.old)))) answer.old }
    ensures marks { marks.new ≡ marks_behind input.now marks.old }
{
    let start = u64::from(input[0]);
    let lent = (input[1] as usize).min(marks.len());
    reach_entry::reach_entry(&input[2..], start, &mut marks[..lent], answer)
}

// Whether a record agrees. One without a start and a number of bytes doesn't.
pub fn walk_agrees(input: &[u32], output: &[u32]) -> bool
    ensures { result ≡ true → WalkAgrees input.now output.now }
{
    if input.len() < 2 {
        return false;
    }
    let mut marks = untouched::<256>();
    let mut answer = [0; 8];
    let number = walk_record(input, &mut marks, &mut answer);
    lent_agrees(output, number, answer[0], &marks)
}
