// `pick_poly` and `spot_for_position` for C: how their answers stand in eight words. `ynv` exports them.
#![tactic(auto)]

ghost use Rattle.std.specs.Prelude.{◌≡◌};
ghost use Rattle.fields.specs.Bytes.{over};
ghost use Rattle.strip.specs.Outcome.{shown};
ghost use Rattle.answers.specs.Words.{number_of, answer_words};
ghost use Rattle.picking.specs.Picking.{pick_outcome, spot_outcome};
ghost use Rattle.pick_entry.specs.Entries.{found_words, spot_words};

use answers::{accept, refuse};

// 1 and the polygon's number, or 0 where there is none.
pub fn pick_entry(strip: &[u32], x: u16, y: u16, answer: &mut [u64; 8]) -> u32
    ensures number { result ≡ number_of (shown (pick_outcome strip.now (record { x = x; y = y }))) }
    ensures words { answer.new ≡ over (answer_words found_words (shown (pick_outcome strip.now (record { x = x; y = y })))) answer.old }
{
    match picking::pick_poly(strip, x, y) {
        Ok(Some(n)) => accept(answer, &[1, n as u64]),
        Ok(None) => accept(answer, &[0]),
        Err(r) => refuse(answer, u32::from(r.reason), r.place),
    }
}

// The two shorts.
pub fn spot_entry(strip: &[u32], x: f32, y: f32, answer: &mut [u64; 8]) -> u32
    ensures number { result ≡ number_of (shown (spot_outcome strip.now x y)) }
    ensures words { answer.new ≡ over (answer_words spot_words (shown (spot_outcome strip.now x y))) answer.old }
{
    match picking::spot_for_position(strip, x, y) {
        Ok(s) => accept(answer, &[s.x as u64, s.y as u64]),
        Err(r) => refuse(answer, u32::from(r.reason), r.place),
    }
}
