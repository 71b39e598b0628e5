// `parse_ynv` for C: how its answer stands in eight words. `ynv` exports it.
#![tactic(auto)]

ghost use Rattle.std.specs.Prelude.{◌≡◌, length};
ghost use Rattle.fields.specs.Bytes.{over};
ghost use Rattle.strip.specs.Outcome.{shown, left};
ghost use Rattle.ynv_read.specs.Parse.{parse_outcome};
ghost use Rattle.answers.specs.Words.{number_of, answer_words};
ghost use Rattle.read_entry.specs.Entries.{parsed_words};

use answers::{accept, refuse};

// The words of the strip, polygons, portals, points and the sectors visited.
pub fn parse_entry<'a>(
    system: &'a [u8],
    graphics: &'a [u8],
    strip: &mut [u32],
    answer: &mut [u64; 8],
) -> u32
    ensures number { result ≡ number_of (shown (parse_outcome system.now graphics.now (length strip.old))) }
    ensures words { answer.new ≡ over (answer_words parsed_words (shown (parse_outcome system.now graphics.now (length strip.old)))) answer.old }
    ensures strip { strip.new ≡ left (parse_outcome system.now graphics.now (length strip.old)) strip.old }
{
    match ynv_read::parse_ynv(system, graphics, strip) {
        Ok(p) => accept(
            answer,
            &[
                p.words as u64,
                p.polys as u64,
                p.portals as u64,
                p.points as u64,
                p.sectors as u64,
            ],
        ),
        Err(r) => refuse(answer, u32::from(r.reason), r.place),
    }
}
