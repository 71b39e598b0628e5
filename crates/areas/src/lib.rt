// The areas that a cell's edges name: its own id, none and its neighbours first, equal ones once, 32 at most.
#![tactic(auto)]

ghost use Rattle.std.specs.Prelude.{◌≡◌, take};
ghost use Rattle.fields.specs.Bytes.{over, zeros};
ghost use Rattle.distinct.specs.Numbers.{up_to};
ghost use Rattle.areas.specs.Areas.{seeded};
ghost use Rattle.areas.specs.Tables.{stored, Entered, EnsuredIn};

pub mod edge;

// The area of no neighbour.
pub const ADJACENT_NONE: u32 = 16383;

// The first `len` of `ids`. A `len` above 32 counts as 32.
#[derive(Clone, Copy)]
pub struct Areas {
    pub ids: [u32; 32],
    pub len: usize,
}

// An answer with the table after it.
#[derive(Clone, Copy)]
pub struct Ensured {
    pub areas: Areas,
    pub at: Option<u32>,
}

// An answer with the table's length after it.
#[derive(Clone, Copy)]
pub struct Entry {
    pub at: Option<u32>,
    pub len: usize,
}

// The index of an id among the first `len` of `ids`, after which it is added where it is new.
pub fn ensure_id(ids: &mut [u32; 32], len: usize, id: u32) -> Entry
    ensures answer { Entered (take len ids.old) id result }
    ensures table { ids.new ≡ over (up_to 32 (take len ids.old) id) ids.old }
{
    let count = len.min(32);
    let at = distinct::index_of(ids, len, id);
    if at < count {
        return Entry {
            at: Some(at as u32),
            len: count,
        };
    }
    if count < 32 {
        ids[count] = id;
        return Entry {
            at: Some(count as u32),
            len: count + 1,
        };
    }
    Entry { at: None, len: 32 }
}

// The table of the first `len` of an array that was lent.
pub fn areas_of(ids: [u32; 32], len: usize) -> Areas
    ensures { result ≡ record { ids = ids; len = len } }
{
    Areas { ids, len }
}

// `ensure_id` on a table that goes in and comes back by value.
pub fn ensure_area(t: Areas, id: u32) -> Ensured
    ensures { EnsuredIn t id result }
{
    let mut ids = t.ids;
    let e = ensure_id(&mut ids, t.len, id);
    Ensured {
        areas: areas_of(ids, e.len),
        at: e.at,
    }
}

// The table with which every cell begins.
pub fn seed_areas(area_id: u32) -> Areas
    ensures { result ≡ stored (seeded area_id) (zeros 32) }
{
    let seeds = [
        area_id,
        ADJACENT_NONE,
        area_id.wrapping_sub(100),
        area_id.wrapping_sub(1),
        area_id.wrapping_add(1),
        area_id.wrapping_add(100),
    ];
    let mut t = areas_of([0; 32], 0);
    for seed in seeds {
        t = ensure_area(t, seed).areas;
    }
    t
}
