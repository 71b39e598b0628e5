// Bytes of each record of the pages, and what a list's header begins with, by the names of the Rust. `specs/Sizes` has the same for definitions.
pub const NAVMESH_SIZE: usize = 368;

pub const LIST_SIZE: usize = 48;

pub const LIST_PART_SIZE: usize = 16;

pub const VERTEX_SIZE: usize = 6;

pub const INDEX_SIZE: usize = 2;

pub const EDGE_SIZE: usize = 8;

pub const POLY_SIZE: usize = 48;

pub const SECTOR_SIZE: usize = 96;

pub const SECTOR_DATA_SIZE: usize = 32;

pub const POINT_SIZE: usize = 8;

pub const PORTAL_SIZE: usize = 28;

pub const LIST_VFT_VERTICES: u32 = 1080158456;

pub const LIST_VFT_INDICES: u32 = 1080158424;

pub const LIST_VFT_EDGES: u32 = 1080158440;

pub const LIST_VFT_POLYS: u32 = 1080158408;
