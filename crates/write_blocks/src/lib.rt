// The layout of pages: where blocks stand, and zeros in the bytes skipped between them. `write_list_blocks` lays out lists as rows of blocks.
// Sizes alone decide where blocks stand, so that a caller knows the end before a byte is stored. Positions stay below 2^28, where an address is
// the system section's: that is what the writers ask for. A store past the end of the lent pages is left out, so they ask for no room there.
#![tactic(auto)]

ghost use Rattle.std.specs.Prelude.{◌≡◌, ◌-◌, ◌^◌, ◌<◌};
ghost use Rattle.fields.specs.Bytes.{zeros};
ghost use Rattle.fields.specs.Put.{put};
ghost use Rattle.write_blocks.specs.Layout.{place_of, behind, end_of, address};
ghost use Rattle.write_blocks.specs.Laid.{empty, allocated, reached, Within};
ghost use Rattle.write_blocks.specs.Optional.{size_of, address_of};

use resource::SYSTEM_BASE;

const PAGE_SIZE: u64 = 16384;

// Where a block of `size` bytes starts, the end so far being `end`.
pub fn place(end: u32, size: u32) -> u64
    ensures { result ≡ place_of end size }
{
    let size = u64::from(size);
    let at = u64::from(end).div_ceil(16) * 16;
    if at % PAGE_SIZE + size <= PAGE_SIZE {
        return at;
    }
    (at / PAGE_SIZE + 1) * PAGE_SIZE
}

// What is laid out so far: its end, and the bytes that its blocks asked for, as a word counts them.
#[derive(Clone, Copy, Default)]
pub struct Layout {
    pub at: usize,
    pub asked: u32,
}

impl Layout {
    pub fn new() -> Self
        ensures { result ≡ empty }
    {
        Self::default()
    }

    // Where the next block starts.
    pub fn start(self, size: usize) -> usize
        requires { behind self.at size < 2 ^ 28 }
        ensures { result ≡ place_of self.at size }
    {
        place(self.at as u32, size as u32) as usize
    }

    // The layout behind the next block.
    pub fn alloc(self, size: usize) -> Self
        requires { behind self.at size < 2 ^ 28 }
        ensures { result ≡ allocated self size }
    {
        Self {
            at: self.start(size) + size,
            asked: self.asked.wrapping_add(size as u32),
        }
    }

    // The layout behind a block that stands only where there is something.
    pub fn alloc_some(self, size: usize) -> Self
        requires { Within self (size_of size) }
        ensures { result ≡ reached self (size_of size) }
    {
        if size == 0 {
            return self;
        }
        self.alloc(size)
    }
}

// The address of a position: that of the system section.
pub fn address(at: usize) -> u32
    requires { at < 2 ^ 28 }
    ensures { result ≡ address at }
{
    (SYSTEM_BASE as usize + at) as u32
}

// The address of a block of `size` bytes that is laid out next; 0 where there is none.
pub fn address_of(l: Layout, size: usize) -> u32
    requires { end_of l.at (size_of size) < 2 ^ 28 }
    ensures { result ≡ address_of l.at size }
{
    if 0 < size {
        return address(l.start(size));
    }
    0
}

// Zeros up to where the next block starts, which is the answer. Blocks that stand only where there is something (portals, links, ids, points, offsets) are
// each laid out by `pad`, a store and `alloc`: one function that takes the store would name its bytes by a ghost value, and is no plainer at its callers.
pub fn pad(out: &mut [u8], l: Layout, size: usize) -> usize
    requires { behind l.at size < 2 ^ 28 }
    ensures start { result ≡ place_of l.at size }
    ensures out { out.new ≡ put l.at (zeros (place_of l.at size - l.at)) out.old }
{
    let start = l.start(size);
    stores::put_le(out, l.at, start - l.at, 0);
    start
}
