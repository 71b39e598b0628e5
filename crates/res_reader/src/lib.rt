// The two lent sections in a struct, with thin methods over the lookup.
#![tactic(auto)]

ghost use Rattle.std.specs.Prelude.{◌≡◌, IfSome, true};
ghost use Rattle.resource.specs.Section.{good, resolved};
ghost use Rattle.resource.specs.Places.{resolved_at};
ghost use Rattle.res_reader.specs.Looked.{Looked, told, pointer_to};

use resource::is_good;

#[derive(Clone, Copy)]
pub struct ResReader<'a> {
    pub system: &'a [u8],
    pub graphics: &'a [u8],
}

// What an address and a length name: the Rust's `Some(None)`, `Some(Some(..))` and `None`. An enum and no such option, since `pointer_to` (docs/PROMISES.md) has no part to give.
#[derive(Clone, Copy, Debug, PartialEq, Eq)]
pub enum Pointer {
    Null,
    Good,
    NotGood,
}

pub fn pointer_to<'a>(system: &'a [u8], graphics: &'a [u8], va: u64, len: usize) -> Pointer
    ensures { result ≡ pointer_to system.now graphics.now va len }
{
    if va == 0 {
        return Pointer::Null;
    }
    if !is_good(system, graphics, va, len) {
        return Pointer::NotGood;
    }
    Pointer::Good
}

impl<'a> ResReader<'a> {
    pub fn new(system: &'a [u8], graphics: &'a [u8]) -> Self
        ensures system { result.system ≡ system.entry }
        ensures graphics { result.graphics ≡ graphics.entry }
    {
        ResReader { system, graphics }
    }

    // The len bytes that va names, in the memory of their section itself, or an empty part where va names none or they are not all inside.
    pub fn resolve(self, va: u64, len: usize) -> &'a [u8]
        ensures { Looked self.entry.system self.entry.graphics va len result }
    {
        resource::resolve(self.system, self.graphics, va, len)
    }

    // The part that an address names, in the memory of its section itself, where it is known to be good: `resolve` without its tests.
    pub fn good_part(self, va: u64, len: usize) -> &'a [u8]
        requires { good self.system.now self.graphics.now va len ≡ true }
        ensures content { result.now ≡ resolved self.entry.system.now self.entry.graphics.now va len }
        ensures place { result.ref_ptr ≡ resolved_at self.entry.system self.entry.graphics va }
    {
        resource::good_part(self.system, self.graphics, va, len)
    }

    // The same as the Rust tells it: `Some(None)` where va is null, and `None` where it isn't good.
    pub fn resolve_optional(self, va: u64, len: usize) -> Option<Option<&'a [u8]>>
        ensures pointer { told result ≡ pointer_to self.entry.system.now self.entry.graphics.now va len }
        ensures part { IfSome result (λ found. IfSome found (Looked self.entry.system self.entry.graphics va len)) }
    {
        match pointer_to(self.system, self.graphics, va, len) {
            Pointer::Null => Some(None),
            Pointer::Good => Some(Some(self.resolve(va, len))),
            Pointer::NotGood => None,
        }
    }
}

// The part that va names in two sections, by way of a `ResReader`.
pub fn resolve_in<'a>(system: &'a [u8], graphics: &'a [u8], va: u64, len: usize) -> &'a [u8]
    ensures { Looked system.entry graphics.entry va len result }
{
    ResReader::new(system, graphics).resolve(va, len)
}
