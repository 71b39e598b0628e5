// `export_obj` for C: how its answer stands in eight words. `ynv` exports it.
#![tactic(auto)]

ghost use Rattle.std.specs.Prelude.{◌≡◌, length};
ghost use Rattle.fields.specs.Bytes.{over};
ghost use Rattle.strip.specs.Outcome.{shown, left};
ghost use Rattle.answers.specs.Words.{number_of, answer_words};
ghost use Rattle.obj.specs.Obj.{obj_outcome};
ghost use Rattle.obj_entry.specs.Entries.{obj_words};

use answers::{accept, refuse};

// The bytes of the text.
pub fn obj_entry(strip: &[u32], text: &mut [u8], answer: &mut [u64; 8]) -> u32
    ensures number { result ≡ number_of (shown (obj_outcome strip.now (length text.old))) }
    ensures words { answer.new ≡ over (answer_words obj_words (shown (obj_outcome strip.now (length text.old)))) answer.old }
    ensures text { text.new ≡ left (obj_outcome strip.now (length text.old)) text.old }
{
    match obj::export_obj(strip, text) {
        Ok(n) => accept(answer, &[n as u64]),
        Err(r) => refuse(answer, u32::from(r.reason), r.place),
    }
}
