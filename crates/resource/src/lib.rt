// The two lent sections of a resource, system and graphics, and the lookup of a part of them by address.
#![tactic(auto)]

ghost use Rattle.std.specs.Prelude.{◌≡◌, true};
ghost use Rattle.resource.specs.Section.{within, part, good, resolved};
ghost use Rattle.resource.specs.Places.{located, place_in, resolved_at};

pub const SYSTEM_BASE: u64 = 0x5000_0000;

const GRAPHICS_BASE: u64 = 0x6000_0000;

#[derive(Clone, Copy)]
enum Section {
    System,
    Graphics,
}

// The section that an address names, with the offset there.
fn locate(va: u64) -> Option<(Section, usize)>
    ensures { result ≡ located va }
{
    if va & GRAPHICS_BASE == GRAPHICS_BASE {
        return Some((Section::Graphics, (va - GRAPHICS_BASE) as usize));
    }
    if va & SYSTEM_BASE == SYSTEM_BASE {
        return Some((Section::System, (va - SYSTEM_BASE) as usize));
    }
    None
}

// Whether the len bytes of s from off on are all inside.
fn inside(s: &[u8], off: usize, len: usize) -> bool
    ensures { result ≡ within s.now off len }
{
    off <= s.len() && len <= s.len() - off
}

// The len bytes of s from off on, in the memory of s itself, or an empty part where they are not all inside: no option, since its promise is of a part.
pub fn part_of(s: &[u8], off: usize, len: usize) -> &[u8]
    ensures content { result.now ≡ part s.now off len }
    ensures place { within s.now off len ≡ true → result.ref_ptr ≡ place_in s.entry off }
{
    if inside(s, off, len) {
        return &s[off..off + len];
    }
    &s[..0]
}

// Whether va names a section and the len bytes from there on are all inside it.
pub fn is_good<'a>(system: &'a [u8], graphics: &'a [u8], va: u64, len: usize) -> bool
    ensures { result ≡ good system.now graphics.now va len }
{
    match locate(va) {
        Some((Section::Graphics, off)) => inside(graphics, off, len),
        Some((Section::System, off)) => inside(system, off, len),
        None => false,
    }
}

// The len bytes that va names, in the memory of their section itself, or an empty part where va names none or they are not all inside.
pub fn resolve<'a>(system: &'a [u8], graphics: &'a [u8], va: u64, len: usize) -> &'a [u8]
    ensures content { result.now ≡ resolved system.now graphics.now va len }
    ensures place { good system.now graphics.now va len ≡ true → result.ref_ptr ≡ resolved_at system.entry graphics.entry va }
{
    match locate(va) {
        Some((Section::Graphics, off)) => part_of(graphics, off, len),
        Some((Section::System, off)) => part_of(system, off, len),
        None => &system[..0],
    }
}

// The part that an address names, in the memory of its section itself, where it is known to be good: `resolve` without its tests.
pub fn good_part<'a>(system: &'a [u8], graphics: &'a [u8], va: u64, len: usize) -> &'a [u8]
    requires { good system.now graphics.now va len ≡ true }
    ensures content { result.now ≡ resolved system.now graphics.now va len }
    ensures place { result.ref_ptr ≡ resolved_at system.entry graphics.entry va }
{
    if va & GRAPHICS_BASE == GRAPHICS_BASE {
        let from = (va - GRAPHICS_BASE) as usize;
        let to = from + len;
        return &graphics[from..to];
    }
    let from = (va - SYSTEM_BASE) as usize;
    let to = from + len;
    &system[from..to]
}
