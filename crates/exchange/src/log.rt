// What a watched line saw: each frame that was put on it, and what became of it.
use frames::{Kind, Parts, Way};
use std::alloc::{AllocError, Global};
use std::num::Saturating;

// So many frames are noted; any more are not.
const NOTES: usize = 200;

#[derive(Clone, Copy, PartialEq, Eq)]
pub enum Fate {
    // It found no room on the line.
    Lost,
    // It stands on the line.
    Stands,
    // It was taken.
    Taken,
    // The line let it go after D ticks.
    Aged,
}

#[derive(Clone, Copy)]
pub struct Note {
    pub way: Way,
    pub kind: Kind,
    pub ns: u8,
    pub nr: u8,
    pub b: u8,
    pub length: usize,
    pub tick: usize,
    // Beside the fate, since a struck frame stands, is taken or ages as any other.
    pub struck: bool,
    pub fate: Fate,
}

#[derive(Drop)]
pub struct Log {
    notes: Vec<Note>,
    tick: Saturating<usize>,
}

impl Log {
    // The room for notes is made here, so that noting needs no memory.
    pub fn new(heap: Global) -> Result<Log, AllocError> {
        Ok(Log {
            notes: Vec::with_capacity(heap, NOTES)?,
            tick: Saturating(0),
        })
    }

    pub fn notes(&self) -> &[Note] {
        self.notes.as_slice()
    }

    // Notes a frame, if there is room.
    pub fn add(&mut self, way: Way, frame: Parts<'_>, fate: Fate) {
        if self.notes.len() < self.notes.capacity() {
            let note = Note {
                way,
                kind: frame.kind,
                ns: frame.ns,
                nr: frame.nr,
                b: frame.b,
                length: frame.info.len(),
                tick: self.tick.0,
                struck: false,
                fate,
            };
            self.notes.push(note).unwrap();
        }
    }

    // The note of the entry that stands so far behind the oldest of a way.
    fn standing(&mut self, way: Way, place: usize) -> Option<&mut Note> {
        self.notes
            .iter_mut()
            .filter(|note| note.way == way && note.fate == Fate::Stands)
            .nth(place)
    }

    // The entry at a place is struck.
    pub fn strike(&mut self, way: Way, place: usize) {
        if let Some(note) = self.standing(way, place) {
            note.struck = true;
        }
    }

    // The oldest entry of a way leaves.
    pub fn remove(&mut self, way: Way, fate: Fate) {
        if let Some(note) = self.standing(way, 0) {
            note.fate = fate;
        }
    }

    // So many entries of a way leave by their age.
    pub fn age(&mut self, way: Way, n: usize) {
        for _ in 0..n {
            self.remove(way, Fate::Aged);
        }
    }

    // A tick passes.
    pub fn pass(&mut self) {
        self.tick += 1;
    }
}
