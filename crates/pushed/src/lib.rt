// How many coordinates are pushed to the border of the box: of positions in a strip, of its portals' ends and of its points. The writer counts its vertices
// where it makes their shorts; points that lie in no leaf are made no shorts of, and count here all the same.
#![tactic(auto)]

ghost use Rattle.std.specs.Prelude.{◌≡◌, ◌++◌, ◌+◌, ◌*◌, ◌≤◌, ◌<◌, length};
ghost use Rattle.quantise.specs.Short.{outside_count};
ghost use Rattle.strip.specs.Reading.{vec_at};
ghost use Rattle.strip.specs.Rows.{portals_at, points_at};
ghost use Rattle.cell_record.specs.Floats.{floats};
ghost use Rattle.pushed.specs.Pushed.{pushed_in, ends_of, places_of};

use math::vec3::floats_at;
use quantise::short::Frame;

// Of the position whose three words stand at `at`.
fn outside_at(strip: &[u32], at: usize, frame: Frame) -> u32
    requires { at + 3 ≤ length strip.now }
    ensures count { result ≡ outside_count (floats (vec_at strip.now at)) frame.bb_min frame.bb_size }
    ensures bound { result ≤ 3 }
{
    frame.outside_of(floats_at(strip, at))
}

// Of both ends of n portals, from the record at `first` on.
fn pushed_ends(strip: &[u32], first: usize, n: usize, frame: Frame) -> usize
    requires { first + 11 * n ≤ length strip.now }
    ensures count { result ≡ pushed_in frame.bb_min frame.bb_size (ends_of (portals_at strip.now first n)) }
    ensures bound { result ≤ 6 * n }
{
    let mut pushed: usize = 0;
    for i in 0..n {
        let at = first + 11 * i;
        let from = outside_at(strip, at + 2, frame) as usize;
        let to = outside_at(strip, at + 5, frame) as usize;
        pushed += from + to;
    }
    pushed
}

// Of n points, from the record at `first` on: few enough for 32 bits, in which several are counted at a time.
fn pushed_part(strip: &[u32], first: usize, n: usize, frame: Frame) -> u32
    requires { (first + 4 * n ≤ length strip.now) × (n ≤ 65536) }
    ensures count { result ≡ pushed_in frame.bb_min frame.bb_size (places_of (points_at strip.now first n)) }
    ensures bound { result ≤ 3 * n }
{
    let mut pushed: u32 = 0;
    for i in 0..n {
        pushed += outside_at(strip, first + 4 * i + 1, frame);
    }
    pushed
}

// Of any n points, part by part. (A `for` by steps would reckon the same length of each part.)
fn pushed_places(strip: &[u32], first: usize, n: usize, frame: Frame) -> usize
    requires { first + 4 * n ≤ length strip.now }
    ensures count { result ≡ pushed_in frame.bb_min frame.bb_size (places_of (points_at strip.now first n)) }
    ensures bound { result ≤ 3 * n }
{
    let mut pushed: usize = 0;
    let mut i: usize = 0;
    while i < n {
        let part = (n - i).min(65536);
        pushed += pushed_part(strip, first + 4 * i, part, frame) as usize;
        i += part;
    }
    pushed
}

// Of so many portals, from the record at `first` on, and so many points, which stand behind them.
pub fn pushed_behind(
    strip: &[u32],
    first: usize,
    portals: usize,
    points: usize,
    frame: Frame,
) -> usize
    requires { first + 11 * portals + 4 * points ≤ length strip.now }
    ensures count { result ≡ pushed_in frame.bb_min frame.bb_size (ends_of (portals_at strip.now first portals) ++ places_of (points_at strip.now (first + 11 * portals) points)) }
    ensures bound { result ≤ 6 * portals + 3 * points }
{
    let ends = pushed_ends(strip, first, portals, frame);
    ends + pushed_places(strip, first + 11 * portals, points, frame)
}
