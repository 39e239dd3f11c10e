//! A box as C holds it.
ghost use Rattle.std.specs.Prelude.{◌≡◌, Option, Some, None, IsSome};
ghost use Rattle.c_room.specs.declared.kept.Kept.{Kept as KeptValue};

use crate::kept::Kept;
use crate::loose::Loose;
use std::alloc::Global;
use std::marker::Model;
use std::mem::replace;
use std::ptr::null_mut;

/// A box, or none.
#[repr(C)]
#[derive(Drop)]
pub struct Slot {
    at: *mut u8,
    alloc: Global,
    pub ghost value: { Option KeptValue },
}

impl Model for Slot {
    ghost use Rattle.c_room.specs.Owned.{slot_owns};

    ghost also_owns = { λ l. slot_owns l.value l.alloc l.at };
}

impl Slot {
    fn of(l: Loose<Kept, Global>) -> Slot
        ensures { result.value ≡ Some l.value }
    {
        let Loose { at, alloc } = l;
        Slot {
            at: at as *mut u8,
            alloc,
        }
    }

    fn into_loose(self) -> Loose<Kept, Global>
        requires { IsSome self.value }
        ensures { self.value ≡ Some result.value }
    {
        let Slot { at, alloc } = self;
        Loose {
            at: at as *mut Kept,
            alloc,
        }
    }

    fn empty(alloc: Global) -> Slot
        ensures { result.value ≡ None }
    {
        Slot {
            at: null_mut(),
            alloc,
        }
    }

    /// Takes the box out.
    pub fn take(&mut self, alloc: Global) -> Box<Kept>
        requires { IsSome self.old.value }
        ensures empty { self.new.value ≡ None }
        ensures value { self.old.value ≡ Some result.value }
    {
        replace(self, Slot::empty(alloc)).into_loose().into_box()
    }

    /// Puts a box in, where there is none.
    pub fn put(&mut self, kept: Box<Kept>)
        requires { self.old.value ≡ None }
        ensures { self.new.value ≡ Some kept.value }
    {
        *self = Slot::of(Loose::of(kept));
    }
}
