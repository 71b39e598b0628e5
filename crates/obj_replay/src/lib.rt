// The records of the leaves' list that are about a drawing. In stand the bytes lent and the strip's words; out stand the number, 0 for an accepted
// strip; the text's length, or the place; and the text, four bytes to a word, the last word filled with what was lent.
#![tactic(auto)]

ghost use Rattle.std.specs.Prelude.{◌≡◌, true, ◌≤◌, length};
ghost use Rattle.fields.specs.Bytes.{over};
ghost use Rattle.strip.specs.Outcome.{shown};
ghost use Rattle.answers.specs.Words.{number_of, answer_words};
ghost use Rattle.obj_entry.specs.Entries.{obj_words};
ghost use Rattle.obj_replay.specs.Agreement.{outcome_of, text_behind, DrawingAgrees};

use replay::lent::{lent_agrees, untouched};

// Draws the record's strip into as much of the text as the record says.
#[tactic(auto, unfolding(crate::specs::Agreement::text_behind))]
fn draw_record(input: &[u32], text: &mut [u8], answer: &mut [u64; 8]) -> u32
    requires { 1 ≤ length input.now }
    ensures number { result ≡ number_of (shown (outcome_of input.now (length text.old))) }
    ensures words { answer.new ≡ over (answer_words obj_words (shown (outcome_of input.now (length text.old)))) answer.old }
    ensures text { text.new ≡ text_behind input.now text.old }
{
    let lent = (input[0] as usize).min(text.len());
    obj_entry::obj_entry(&input[1..], &mut text[..lent], answer)
}

// Whether a record agrees. One without words in doesn't.
pub fn drawing_agrees(input: &[u32], output: &[u32]) -> bool
    ensures { result ≡ true → DrawingAgrees input.now output.now }
{
    if input.is_empty() {
        return false;
    }
    let mut text = untouched::<4096>();
    let mut answer = [0; 8];
    let number = draw_record(input, &mut text, &mut answer);
    lent_agrees(output, number, answer[0], &text)
}
