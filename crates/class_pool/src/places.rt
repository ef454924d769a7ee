//! Where the object of each handle is. A handle is a number below the length of the list; a
//! tournament finds the least one that no object has.

ghost use Rattle.std.specs.Prelude.{◌≡◌, ◌<◌, ◌≤◌, ◌++◌, ◌∷◌, [], ℕ, List, length, Some, None, OnOk, OnErr, replicate, slice_set};
ghost use Rattle.zspage.specs.Cells.{used_of, entry};
ghost use Rattle.class_pool.specs.declared.places.Place.{Place};

use std::alloc::{AllocError, Global};
use std::marker::Model;
use tournament::Tournament;

/// The ranks of a number in use and of a free one.
const USED: u32 = 0;

const FREE: u32 = 1;

/// The place of an object: its zspage's id and its cell's number.
#[derive(Clone, Copy)]
pub struct Place {
    pub zspage: u32,
    pub cell: u32,
}

/// The places by handle.
#[derive(Drop)]
pub struct Places {
    items: Vec<Option<Place>>,
    free: Tournament,
}

impl Model for Places {
    ghost use Rattle.std.specs.Prelude.{List, Option};
    ghost use Rattle.class_pool.specs.declared.places.Place.{Place};
    ghost use Rattle.class_pool.specs.Places.{ArePlaces};

    ghost Value = { List (Option Place) };

    ghost view = { λ p. p.items.items };

    ghost invariant = { λ p. ArePlaces p.items.items p.free };
}

impl Places {
    /// No handles.
    pub fn new(alloc: Global) -> Places
        ensures { result ≡ [] }
    {
        Places {
            items: Vec::new(alloc),
            free: Tournament::new(alloc),
        }
    }

    /// One more free number.
    fn push(&mut self) -> Result<(), AllocError>
        ensures ok { OnOk result (self.new ≡ self.old ++ None ∷ []) }
        ensures err { OnErr result (self.new ≡ self.old) }
    {
        self.items.push(None)?;
        if let Err(full) = self.free.push(FREE) {
            self.items.pop();
            return Err(full);
        }
        Ok(())
    }

    /// Makes free numbers until there are `len` numbers.
    pub fn grow(&mut self, len: usize) -> Result<(), AllocError>
        ensures more { (n : ℕ) × (self.new ≡ self.old ++ replicate n None) }
        ensures ok { OnOk result (len ≤ length self.new) }
        ensures bound { length self.old ≤ len → length self.new ≤ len }
        ensures stays { len ≤ length self.old → self.new ≡ self.old }
    {
        for _ in self.items.len()..len {
            self.push()?;
        }
        Ok(())
    }

    /// A number that no object has.
    pub fn free(&self) -> usize
        requires { used_of self.now < length self.now }
        ensures within { result < length self.now }
        ensures free { entry self.now result ≡ None }
    {
        self.free.winner()
    }

    /// Gives a free number to an object.
    pub fn put(&mut self, handle: usize, place: Place)
        requires { handle < length self.old }
        ensures { self.new ≡ slice_set self.old handle (Some place) }
    {
        self.items[handle] = Some(place);
        self.free.set(handle, USED);
    }

    /// Takes the number of an object back.
    pub fn clear(&mut self, handle: usize)
        requires { handle < length self.old }
        ensures { self.new ≡ slice_set self.old handle None }
    {
        self.items[handle] = None;
        self.free.set(handle, FREE);
    }

    /// The place of an object.
    pub fn place(&self, handle: usize) -> Place
        requires { (p : Place) × (entry self.now handle ≡ Some p) }
        ensures { entry self.now handle ≡ Some result }
    {
        match self.items[handle] {
            Some(place) => place,
            None => unreachable!(),
        }
    }
}
