// `serialize_ynv` for C: how its answer stands in eight words. `ynv` exports it.
#![tactic(auto)]

ghost use Rattle.std.specs.Prelude.{◌≡◌, ◌*◌, length, drop};
ghost use Rattle.fields.specs.Bytes.{over};
ghost use Rattle.strip.specs.Outcome.{shown, left};
ghost use Rattle.ynv_write.specs.Serialize.{serialize_outcome};
ghost use Rattle.answers.specs.Words.{number_of, answer_words};
ghost use Rattle.write_entry.specs.Entries.{written_words};

use answers::{accept, refuse};

// The length of the pages in bytes, the points stored, the points dropped and the coordinates pushed to the border.
pub fn serialize_entry(
    strip: &[u32],
    work: &mut [u32],
    pages: &mut [u8],
    answer: &mut [u64; 8],
) -> u32
    ensures number { result ≡ number_of (shown (serialize_outcome strip.now (length work.old) (length pages.old))) }
    ensures words { answer.new ≡ over (answer_words written_words (shown (serialize_outcome strip.now (length work.old) (length pages.old)))) answer.old }
    ensures pages { pages.new ≡ left (serialize_outcome strip.now (length work.old) (length pages.old)) pages.old }
    ensures work { length work.new ≡ length work.old }
    ensures beyond { drop (2 * length strip.now) work.new ≡ drop (2 * length strip.now) work.old }
{
    match ynv_write::serialize_ynv(strip, work, pages) {
        Ok(w) => accept(
            answer,
            &[
                w.length as u64,
                w.stored as u64,
                w.dropped as u64,
                w.pushed as u64,
            ],
        ),
        Err(r) => refuse(answer, u32::from(r.reason), r.place),
    }
}
