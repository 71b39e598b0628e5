// Whom a half of an edge lies towards: a polygon by the half's poly, cut to 14 bits, or nobody.
#![tactic(auto)]

ghost use Rattle.std.specs.Prelude.{◌≡◌};
ghost use Rattle.nobody.specs.Nobody as Nobody;

// The number of the polygon that a half with this poly lies towards.
pub fn cut(poly: u32) -> u32
    ensures { result ≡ Nobody.cut poly }
{
    poly % 16384
}

// Whether a half with this poly has no neighbour.
pub fn nobody(poly: u32) -> bool
    ensures { result ≡ Nobody.nobody poly }
{
    cut(poly) == 16383
}
