// The strip's records, and the cursor by which passes go through its polygons. `strip_check` says whether it is well formed.
#![tactic(auto)]

ghost use Rattle.std.specs.Prelude.{◌≡◌, ◌<◌, length};
ghost use Rattle.strip.specs.Reasons.{reason_number};
ghost use Rattle.strip.specs.Reading.{poly_at};

// Why a call was refused, by the numbers that callers get: docs/REFUSALS.md has a sentence for each.
#[derive(Clone, Copy, Debug, PartialEq, Eq)]
pub enum Reason {
    TooLittleWork = 1,
    TooShort = 2,
    BadStrip = 3,
    LongInput = 4,
    NoSuchCell = 5,
    BoxNotFinite = 10,
    ManyPolygons = 11,
    VertexCount = 12,
    VertexStart = 13,
    ManyVertices = 14,
    ManyAreas = 15,
    ManyLinksOfPolygon = 16,
    ManyPolygonsInLeaf = 17,
    ManyPointsInLeaf = 18,
    ManyPortals = 19,
    ManyLinks = 20,
    NoHeader = 30,
    NoTree = 31,
    BadSector = 32,
    ManySectors = 33,
    BadSectorData = 34,
    BadList = 35,
    ListCount = 36,
    BadRun = 37,
    BadIndex = 38,
    BadPortals = 39,
    PagesBoxNotFinite = 40,
    ThinPolygon = 41,
    NoSuchPolygon = 42,
    FewMarks = 43,
}

impl From<Reason> for u32 {
    ghost from_gives = { λ reason n. n ≡ reason_number reason };

    fn from(reason: Reason) -> u32 {
        reason as u32
    }
}

// A refusal: the one form for all calls.
#[derive(Clone, Copy, Debug, PartialEq, Eq)]
pub struct Refusal {
    pub reason: Reason,
    pub place: usize,
}

// Where only one thing can be at fault there is nothing to tell apart: its place is 0.
impl From<Reason> for Refusal {
    ghost from_gives = { λ reason r. r ≡ record { reason = reason; place = 0 } };

    fn from(reason: Reason) -> Refusal {
        Refusal { reason, place: 0 }
    }
}

// How many of each a strip has.
#[derive(Clone, Copy, Debug, PartialEq, Eq)]
pub struct Counts {
    pub polys: usize,
    pub portals: usize,
    pub points: usize,
}

// Where the parts of a polygon's record are.
#[derive(Clone, Copy)]
pub struct Poly {
    pub at: usize,
    pub links: usize,
    pub vertices: usize,
    pub edges: usize,
    pub flags_at: usize,
    pub link_at: usize,
    pub vertex_at: usize,
    pub edge_at: usize,
    pub next: usize,
}

// A good record, by its kind.
#[derive(Clone, Copy)]
pub enum Record {
    Cell,
    Polygon(Poly),
    Portal,
    Point,
    End,
}

// The polygon whose first word stands at `at`.
pub fn poly_at(strip: &[u32], at: usize) -> Poly
    requires { at < length strip.now }
    ensures { result ≡ poly_at strip.now at }
{
    let w = strip[at];
    let links = (w / 16777216 % 16) as usize;
    let vertices = (w % 4096) as usize;
    let edges = (w / 4096 % 4096) as usize;
    let flags_at = at + 1;
    let link_at = flags_at + 3;
    let vertex_at = link_at + links;
    let edge_at = vertex_at + 3 * vertices;
    let next = edge_at + 6 * edges;
    Poly {
        at,
        links,
        vertices,
        edges,
        flags_at,
        link_at,
        vertex_at,
        edge_at,
        next,
    }
}
