// Where a polygon of a strip stands, by its number: polygons differ in length, so a table has the place of each, or of every so many of them where there are
// more than it has room for, and the rest is a short walk.
#![tactic(auto)]

ghost use Rattle.std.specs.Prelude.{◌≡◌, ◌≤◌, ◌<◌, length};
ghost use Rattle.strip.specs.Rows.{after_polygons};
ghost use Rattle.reach_places.specs.Places.{Places};

// Where n polygons from `at` on end.
fn skip(strip: &[u32], at: usize, n: usize) -> usize
    requires { after_polygons strip.now at n ≤ length strip.now }
    ensures { result ≡ after_polygons strip.now at n }
{
    let mut place = at;
    for _ in 0..n {
        place = strip::poly_at(strip, place).next;
    }
    place
}

// Fills the table of n polygons, and answers how many of them there are to a place: as few as the table allows.
pub fn note_places(strip: &[u32], n: usize, places: &mut [usize]) -> usize
    requires { (after_polygons strip.now 14 n ≤ length strip.now) × (1 ≤ length places.old) }
    ensures { Places strip.now n result places.new }
{
    let room = places.len();
    let stride = n / room + 1;
    let mut at = 14;
    for k in 0..n.div_ceil(stride) {
        places[k] = at;
        at = skip(strip, at, stride.min(n - k * stride));
    }
    stride
}

// The place of polygon i, one of the n.
pub fn place_of(strip: &[u32], n: usize, stride: usize, places: &[usize], i: usize) -> usize
    requires { Places strip.now n stride places.now × (i < n) }
    ensures { result ≡ after_polygons strip.now 14 i }
{
    if stride == 1 {
        return places[i];
    }
    skip(strip, places[i / stride], i % stride)
}
