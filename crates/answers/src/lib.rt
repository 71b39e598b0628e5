// How a C entry answers: it returns 0, with its values and zeros in `answer`, or a refusal's number, with its place in `answer[0]` and the
// rest of `answer` as it was.
#![tactic(auto)]

ghost use Rattle.std.specs.Prelude.{◌≡◌, [], ◌∷◌, get_or};
ghost use Rattle.fields.specs.Bytes.{over};
ghost use Rattle.answers.specs.Words.{filled};

// Value k, and 0 behind the last.
fn value_at(values: &[u64], k: usize) -> u64
    ensures { result ≡ get_or values.now k 0 }
{
    values.get(k).copied().unwrap_or(0)
}

// Stores the values, the first eight of them, and zeros behind.
pub fn accept(answer: &mut [u64; 8], values: &[u64]) -> u32
    ensures number { result ≡ 0 }
    ensures words { answer.new ≡ over (filled values.now) answer.old }
{
    answer[0] = value_at(values, 0);
    answer[1] = value_at(values, 1);
    answer[2] = value_at(values, 2);
    answer[3] = value_at(values, 3);
    answer[4] = value_at(values, 4);
    answer[5] = value_at(values, 5);
    answer[6] = value_at(values, 6);
    answer[7] = value_at(values, 7);
    0
}

// Stores a refusal's place, and returns its number.
pub fn refuse(answer: &mut [u64; 8], number: u32, place: usize) -> u32
    ensures number { result ≡ number }
    ensures words { answer.new ≡ over (place ∷ []) answer.old }
{
    answer[0] = place as u64;
    number
}
