//! Numbered places for values, in memory that is had once.
ghost use Rattle.std.specs.Prelude.{◌≡◌, ◌↔◌, List, Option, None, Some, All, IsTrue, IsSome, IfOk, MatchOption, length, option_copied, replicate, slice_index_or, slice_set};
ghost use Rattle.bio_books.specs.Kept.{InsertsOrFull, IsAltered, key_at};

use slab::Slab;
use std::alloc::{AllocError, Global};
use std::marker::Model;

/// A change of a value where it stands.
pub trait Change<T> {
    /// Whether the change can be made of the value.
    ghost applies: { Self → T → Type 0 };

    /// What the change makes of it.
    ghost after: { Self → T → T };

    /// Makes the change.
    fn change(self, value: &mut T)
        requires { applies self value.old }
        ensures { value.new ≡ after self value.old };
}

/// Places numbered from 0 on, with a value at some of them. Contracts see it as the list of what stands at the places.
///
/// The values are in a slab. Its keys say nothing of how many places there are, so each place keeps the key of its value.
#[derive(Drop)]
pub struct Places<T: Drop> {
    slots: Slab<T>,
    keys: Vec<Option<usize>>,
    // The places that have no key, the next one to be taken last.
    free: Vec<u32>,
}

impl<T: Drop> Model for Places<T> {
    ghost use Rattle.std.specs.Prelude.{List, Option, map, vec_capacity};
    ghost use Rattle.bio_books.specs.Kept.{look, IsPlaced};

    ghost Value = { List (Option T) };

    ghost view = { λ p. map (look p.slots) p.keys.items };

    ghost invariant = { λ p. IsPlaced p.slots p.keys.items p.free.items (vec_capacity p.free) };
}

// The key beside the number of a place.
fn key_of(keys: &[Option<usize>], place: u32) -> Option<usize>
    ensures { result ≡ key_at keys.now place }
{
    *keys.get(place as usize)?
}

impl<T: Drop> Places<T> {
    /// So many places, all vacant.
    ///
    /// # Errors
    ///
    /// Where there is no memory for them.
    pub fn open(alloc: Global, count: u32) -> Result<Places<T>, AllocError>
        ensures { IfOk result (λ places. places ≡ replicate count None) }
    {
        let slots = Slab::with_capacity(alloc, count as usize)?;
        let mut keys = Vec::with_capacity(alloc, count as usize)?;
        let mut free = Vec::with_capacity(alloc, count as usize)?;
        'numbering: for place in 0..count {
            keys.push_reserved(None);
            free.push_reserved(place);
        }
        Ok(Places { slots, keys, free })
    }

    /// How many places there are.
    pub fn count(&self) -> u32
        ensures { result ≡ length self.now }
    {
        self.keys.len() as u32
    }

    /// The value at a place, if there is one.
    pub fn get(&self, place: u32) -> Option<&T>
        ensures { option_copied result ≡ slice_index_or self.now place None }
    {
        let key = key_of(&self.keys, place)?;
        self.slots.get(key)
    }

    /// Puts a value at a vacant place, and answers the place, or the value where none is vacant.
    pub fn insert(&mut self, value: T) -> Result<u32, T>
        ensures { InsertsOrFull self.old value result self.new }
    {
        let Some(place) = self.free.pop() else {
            return Err(value);
        };
        let key = self.slots.insert_reserved(value);
        self.keys[place as usize] = Some(key);
        Ok(place)
    }

    /// Takes the value at a place away, if there is one.
    pub fn remove(&mut self, place: u32) -> Option<T>
        ensures value { result ≡ slice_index_or self.old place None }
        ensures vacant { MatchOption result (self.new ≡ self.old) (λ _. self.new ≡ slice_set self.old place None) }
    {
        let key = key_of(&self.keys, place)?;
        let value = self.slots.try_remove(key)?;
        self.keys[place as usize] = None;
        self.free.push_reserved(place);
        Some(value)
    }

    /// Changes the value at a place where it stands, if there is one.
    #[inline(always)] // a change is then made of what its caller has at hand
    pub fn alter<C: Change<T> + Drop>(&mut self, place: u32, change: C)
        requires { MatchOption (slice_index_or self.old place None) (Unit {0}) (C.applies change) }
        ensures { IsAltered (C.after change) self.old place self.new }
    {
        if let Some(key) = key_of(&self.keys, place) {
            if let Some(value) = self.slots.get_mut(key) {
                change.change(value);
            }
        }
    }

    /// Whether a value stands at each place.
    pub fn is_full(&self) -> bool
        ensures { IsTrue result ↔ All IsSome self.now }
    {
        self.free.is_empty()
    }

    /// Whether all places are vacant.
    pub fn is_empty(&self) -> bool
        ensures { IsTrue result ↔ All (λ slot. slot ≡ None) self.now }
    {
        self.free.len() == self.keys.len()
    }
}
