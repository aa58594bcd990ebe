//! The book that an archive holds, without its bytes.
ghost use Rattle.std.specs.Prelude.{◌≡◌, ◌<◌, ◌^◌, [], length, slice_get, vec_len, IfOk, IfSome, OnOk, None, Some};
ghost use Rattle.capture.specs.Captures.{captures};
ghost use Rattle.capture.specs.declared.book.Volume.{Volume};
ghost use Rattle.std.specs.Vec.{vec_capacity};
ghost use Rattle.time_text.specs.Texts.{InRange};
ghost use Rattle.archive_shelf.specs.Storing.{empty_book, new_volume, with_capture, with_volume};

use crate::stored_ghost::StoredGhost;
use crate::volume_facts::{VolumeFacts, tell};
use capture::Memory;
use std::alloc::Global;
use uuid::Uuid;

/// A volume, of whose captures only clauses know.
#[derive(Drop)]
pub struct Shadow {
    born: u64,
    captures: Vec<StoredGhost>,
    ghost in_range: { InRange born },
}

/// A book, of whose captures only clauses know.
#[derive(Drop)]
pub struct Held {
    pub namespace: Uuid,
    sealed: Vec<Shadow>,
    last: Option<Shadow>,
    ghost none: { last ≡ None → sealed.items ≡ [] },
}

impl Held {
    ghost use Rattle.archive_volumes.specs.Facts.{facts_of};
    ghost use Rattle.archive_volumes.specs.Held.{HasSpace, TakesCapture, TakesVolume, book_of, is_filled, stored_in, volume_of};

    /// A book without volumes. Takes no memory.
    pub fn new(alloc: Global, namespace: Uuid) -> Held
        ensures { book_of result ≡ empty_book namespace }
    {
        Held {
            namespace,
            sealed: Vec::new(alloc),
            last: None,
        }
    }

    /// Whether there is a last volume, and it holds a capture.
    pub fn is_filled(&self) -> bool
        ensures { result ≡ is_filled (book_of self.now).volumes }
    {
        match &self.last {
            Some(last) => !last.captures.as_slice().is_empty(),
            None => false,
        }
    }

    /// When the volume with this number was begun.
    pub fn born(&self, volume: u32) -> u64
        requires { volume < length (book_of self.now).volumes }
        ensures born { (v : Volume) → slice_get (book_of self.now).volumes volume ≡ Some v → result ≡ v.born }
        ensures in_range { InRange result }
    {
        let sealed = self.sealed.as_slice();
        let number = volume as usize;
        if number < sealed.len() {
            return sealed[number].born;
        }
        match &self.last {
            Some(last) => last.born,
            None => unreachable!(),
        }
    }

    /// What is told of its volumes, in order.
    pub fn facts(&self, alloc: Global) -> Result<Vec<VolumeFacts>, Memory>
        requires volumes { length (book_of self.now).volumes < 2 ^ 32 }
        requires captures { length (captures (book_of self.now)) < 2 ^ 32 }
        ensures { IfOk result (λ facts. facts.items ≡ facts_of (book_of self.now)) }
    {
        let sealed = self.sealed.as_slice();
        let mut facts = Vec::new(alloc);
        let mut first = 0;
        let mut done = 0;
        'volumes: while done < sealed.len() {
            let count = sealed[done].captures.len() as u32;
            first = tell(&mut facts, first, count)?;
            done += 1;
        }
        match &self.last {
            Some(last) => {
                let count = last.captures.len() as u32;
                tell(&mut facts, first, count)?;
                Ok(facts)
            }
            None => Ok(facts),
        }
    }

    /// Makes room for one capture more in the last volume.
    pub fn reserve(&mut self) -> Result<(), Memory>
        requires { 0 < length (book_of self.old).volumes }
        ensures book { book_of self.new ≡ book_of self.old }
        ensures space { OnOk result (TakesCapture self.new) }
    {
        match &mut self.last {
            Some(last) => {
                last.captures.reserve(1)?;
                Ok(())
            }
            None => Ok(()),
        }
    }

    /// A new volume with room for one capture, and room for it behind the others.
    pub fn prepare_volume(&mut self, alloc: Global, born: u64) -> Result<Shadow, Memory>
        requires { InRange born }
        ensures volume { IfOk result (λ shadow. volume_of shadow ≡ new_volume born) }
        ensures space { IfOk result HasSpace }
        ensures book { book_of self.new ≡ book_of self.old }
        ensures room { OnOk result (TakesVolume self.new) }
    {
        let captures = Vec::with_capacity(alloc, 1)?;
        self.sealed.reserve(1)?;
        Ok(Shadow { born, captures })
    }

    /// Puts a volume behind the others, in the room that is there. Takes no memory.
    pub fn add_volume(&mut self, volume: Shadow)
        requires empty { volume_of volume ≡ new_volume volume.born }
        requires space { HasSpace volume }
        requires room { TakesVolume self.old }
        ensures book { book_of self.new ≡ with_volume (book_of self.old) volume.born }
        ensures space { TakesCapture self.new }
    {
        if let Some(full) = self.last.replace(volume) {
            self.sealed.push_reserved(full);
        }
    }

    /// Adds a capture to the last volume, in the room that is there. Takes no memory.
    pub fn add_ghost(&mut self, stored: StoredGhost)
        requires space { TakesCapture self.old }
        ensures book { book_of self.new ≡ with_capture (book_of self.old) (stored_in stored) }
    {
        if let Some(last) = &mut self.last {
            last.captures.push_reserved(stored);
        }
    }
}
