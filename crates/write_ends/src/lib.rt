// What the pages take, from counts alone: by it an output is known to be too short before a byte is stored.
#![tactic(auto)]

ghost use Rattle.std.specs.Prelude.{◌≡◌, ◌^◌, ◌≤◌};
ghost use Rattle.write_blocks.specs.Laid.{empty, reached, sum_of, Within};
ghost use Rattle.write_pages.specs.Sectors.{depth_of, byte_count};
ghost use Rattle.write_pages.specs.Pages.{sectors, sizes};
ghost use Rattle.strip.specs.Laid.{cell_at};
ghost use Rattle.write_quadtree.specs.Subtrees.{Numbered};
ghost use Rattle.write_plan.specs.Ready.{Ready};
ghost use Rattle.write_ends.specs.Ends.{leaf_sizes, sizes_by, lists_sizes, pages_sizes};

use fields::sizes::{
    EDGE_SIZE, INDEX_SIZE, NAVMESH_SIZE, POINT_SIZE, POLY_SIZE, PORTAL_SIZE, SECTOR_DATA_SIZE,
    SECTOR_SIZE, VERTEX_SIZE,
};
use quarters::bounds::Aabb;
use write_blocks::Layout;
use write_decide::Decision;
use write_quadtree::subtrees::{Subtree, divide};

// What the pages take: the layout behind all blocks, and the bytes that the sectors' blocks ask for, which count for the header's total.
#[derive(Clone, Copy)]
pub struct Extent {
    pub end: Layout,
    pub sectors: u32,
}

// Behind a leaf's blocks: its sector, ids, points and data.
fn leaf_end(l: Layout, ids: usize, points: usize) -> Layout
    requires { Within l (leaf_sizes ids points) }
    ensures { result ≡ reached l (leaf_sizes ids points) }
{
    let sector = l.alloc(SECTOR_SIZE);
    let behind_ids = sector.alloc_some(2 * ids);
    let behind_points = behind_ids.alloc_some(POINT_SIZE * points);
    behind_points.alloc(SECTOR_DATA_SIZE)
}

// The layout behind the four lists.
fn lists_end(vertices: usize, corners: usize, polys: usize) -> Layout
    requires { (vertices ≤ 65536) × (corners ≤ 67582) × (polys ≤ 16383) × Within empty (lists_sizes vertices corners polys) }
    ensures { result ≡ reached empty (lists_sizes vertices corners polys) }
{
    let header = Layout::new().alloc(NAVMESH_SIZE);
    let behind_vertices = write_list_blocks::list_end(header, VERTEX_SIZE, vertices);
    let behind_indices = write_list_blocks::list_end(behind_vertices, INDEX_SIZE, corners);
    let behind_edges = write_list_blocks::list_end(behind_indices, EDGE_SIZE, corners);
    write_list_blocks::list_end(behind_edges, POLY_SIZE, polys)
}

// Behind the blocks of the leaf with this box and this number, by the words of quarter boxes and of points' leaves.
fn leaf_by<'a>(l: Layout, b: Aabb, leaf: u32, boxes: &'a [u32], numbers: &'a [u32]) -> Layout
    requires { Within l (sizes_by boxes.now numbers.now 0 leaf b) }
    ensures { result ≡ reached l (sizes_by boxes.now numbers.now 0 leaf b) }
{
    let ids = write_leaf_counts::leaf_ids(boxes, b);
    let points = write_leaf_counts::count_points(numbers, leaf);
    leaf_end(l, ids, points)
}

// The same of a part of the tree.
fn tree_end<'a>(l: Layout, t: Subtree, boxes: &'a [u32], numbers: &'a [u32]) -> Layout
    requires { Numbered t × Within l (sizes_by boxes.now numbers.now t.depth t.leaf t.b) }
    ensures { result ≡ reached l (sizes_by boxes.now numbers.now t.depth t.leaf t.b) }
{
    if t.depth == 0 {
        return leaf_by(l, t.b, t.leaf, boxes, numbers);
    }
    let subs = divide(t);
    let l0 = l.alloc(SECTOR_SIZE);
    let l1 = tree_end(l0, subs.s0, boxes, numbers);
    let l2 = tree_end(l1, subs.s1, boxes, numbers);
    let l3 = tree_end(l2, subs.s2, boxes, numbers);
    tree_end(l3, subs.s3, boxes, numbers)
}

// Behind a cell's sectors.
fn sectors_end<'a>(l: Layout, content: u32, b: Aabb, boxes: &'a [u32], numbers: &'a [u32]) -> Layout
    requires { Within l (sizes_by boxes.now numbers.now (depth_of content) 0 b) }
    ensures { result ≡ reached l (sizes_by boxes.now numbers.now (depth_of content) 0 b) }
{
    let depth = write_quadtree::boxes::depth_of(content);
    let t = Subtree { b, depth, leaf: 0 };
    tree_end(l, t, boxes, numbers)
}

// What all blocks take, by the counts of the writer's first pass, the cell's content flags and box, and the words behind its tables.
fn blocks_end<'a>(
    d: Decision,
    content: u32,
    b: Aabb,
    boxes: &'a [u32],
    numbers: &'a [u32],
) -> Extent
    requires { (d.vertices ≤ 65536) × (d.corners ≤ 67582) × (d.counts.polys ≤ 16383)
        × Within empty (pages_sizes d.vertices d.corners d.counts.polys d.counts.portals d.links (sizes_by boxes.now numbers.now (depth_of content) 0 b)) }
    ensures end { result.end ≡ reached empty (pages_sizes d.vertices d.corners d.counts.polys d.counts.portals d.links (sizes_by boxes.now numbers.now (depth_of content) 0 b)) }
    ensures sectors { result.sectors ≡ sum_of (sizes_by boxes.now numbers.now (depth_of content) 0 b) }
{
    let lists = lists_end(d.vertices, d.corners, d.counts.polys);
    let sectors = sectors_end(lists, content, b, boxes, numbers);
    let portals = sectors.alloc_some(PORTAL_SIZE * d.counts.portals);
    Extent {
        end: portals.alloc_some(2 * d.links),
        sectors: sectors.asked - lists.asked,
    }
}

// What the pages of a planned strip take: by it an output is known to be too short.
pub fn pages_end(strip: &[u32], d: Decision, work: &[u32]) -> Extent
    requires { Ready strip.now work.now d }
    ensures end { result.end ≡ reached empty (sizes (cell_at strip.now d.counts)) }
    ensures sectors { result.sectors ≡ byte_count (sectors (cell_at strip.now d.counts)) }
{
    let places = write_decide::work_places(strip.len(), d.counts);
    blocks_end(
        d,
        d.cell.content_flags,
        d.cell.root_box(),
        &work[places.boxes..places.leaves],
        &work[places.leaves..places.end],
    )
}
