// Which areas touch: whether the cells of two ids lie side by side on the grid. A cell has two neighbours in its row and two in its column, which are
// reckoned from the own id alone; the other id is only compared with them. So where many ids are asked about one own id, the compiler reckons the
// four before the loop, and no jump hangs on areas, which follow no pattern.
#![tactic(auto)]

ghost use Rattle.std.specs.Prelude.{◌<◌, ◌≡◌, ◌&&◌, ltb, eqb};
ghost use Rattle.touching.specs.Touch as Touch;
ghost use Rattle.touching.specs.Touch.{apart, row};

// Whether an area differs by 1 within the own row of a hundred. At an end of the row its one neighbour stands for both: no number can stand for
// none, since an area may be any.
fn beside_in_row(own: u32, area: u32) -> bool
    requires { own < 10000 }
    ensures { result ≡ (eqb (apart own area) 1 && eqb (row own) (row area)) }
{
    let column = own % 100;
    let west = if 0 < column { own - 1 } else { own + 1 };
    let east = if column < 99 { own + 1 } else { own - 1 };
    (area == west) | (area == east)
}

// Whether an area below 10000 differs by 100. In the first row and in the last one the one neighbour stands for both.
fn beside_in_column(own: u32, area: u32) -> bool
    requires { own < 10000 }
    ensures { result ≡ (ltb area 10000 && eqb (apart own area) 100) }
{
    let south = if 100 <= own { own - 100 } else { own + 100 };
    let north = if own < 9900 { own + 100 } else { own - 100 };
    (area == south) | (area == north)
}

// Whether two areas below 10000 differ by 100, or by 1 within the same row of a hundred.
pub fn touch(own: u32, area: u32) -> bool
    ensures { result ≡ Touch.touch own area }
{
    own < 10000 && (beside_in_row(own, area) | beside_in_column(own, area))
}
