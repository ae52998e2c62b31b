//! The objects of a folder of objects, as git keeps them: packs, loose objects, and those of the folders that it borrows from.
//!
//! Files may hold any bytes: each object that is read well has the bytes that some file says, and nothing more is known of them. Compare
//! them with their id before they are used. Reading ends, and takes no more memory than files are long and objects may be large.
#![tactic(auto)]

ghost use Rattle.std.specs.Prelude.{◌≡◌, ◌+◌, ◌≤◌, ◌<◌, length};

mod alternates;
mod bases;
mod fault;
mod listing;
mod loose;
mod packs;
mod pages;
mod short;
mod work;

use alternates::Borrowed;
use bases::Place;
use fault::fault_of;
pub use fault::{Damage, Fault};
use gix_hash::ObjectId;
use gix_object::Kind;
use gix_pack::Base;
pub use gix_pack::Front;
use listing::Packs;
use packs::Trouble;
use short::Beginning;
use std::fs::Files;
use std::mem;
use std::os::unix::fs::FileExt;
use work::{DEEPEST, Work};

/// How many packs are open at the same time, at the most.
const MOST_OPEN: usize = 64;
/// How often the packs are listed once more, at the most.
const MOST_LISTINGS: u32 = 64;
/// The most bytes of the file of a loose object: what its 2^28 bytes may take, stored.
const MOST_LOOSE: u64 = (1 << 28) + (1 << 20);

/// A folder of objects. Its files are opened as they are needed.
pub struct Odb<R: Files> {
    rt: R,
    kind: gix_hash::Kind,
    folders: Borrowed,
    packs: Packs<R::File>,
    /// The number of the pack that had the last object.
    last: usize,
    /// The number of the pack that is read.
    now: usize,
    /// How many packs are open.
    open: usize,
    /// How many indexes are open.
    indexes: usize,
    /// How often the packs may still be listed.
    listings: u32,
    /// How many copies of the object are still to be passed over.
    passed: usize,
    work: Work,
}

impl<R: Files + Drop> Drop for Odb<R> {
    fn drop(self) {
        let Odb {
            rt: _,
            kind: _,
            folders: _,
            packs: _,
            last: _,
            now: _,
            open: _,
            indexes: _,
            listings: _,
            passed: _,
            work: _,
        } = self;
    }
}

impl<R: Files + AllocGlobal + Clone + Drop> Odb<R>
where
    R::File: FileExt,
{
    /// Opens a folder of objects whose ids are of this kind, and all that it borrows from by its `info/alternates`. No object is read.
    ///
    /// # Errors
    ///
    /// `NotAFolder`, or the first damage of a file of alternates or of a folder of packs. `Memory`.
    pub fn open(rt: &R, objects: &str, kind: gix_hash::Kind) -> Result<Odb<R>, Fault> {
        let folders = alternates::folders(rt, objects)?;
        let mut packs = Packs::new(rt.alloc());
        for folder in folders.all.iter() {
            packs.list(rt, folder.path.as_str())?;
        }
        Ok(Odb {
            rt: rt.clone()?,
            kind,
            folders,
            packs,
            last: 0,
            now: 0,
            open: 0,
            indexes: 0,
            listings: MOST_LISTINGS,
            passed: 0,
            work: Work::new(rt.alloc())?,
        })
    }

    /// The kind of the ids.
    pub fn kind(&self) -> gix_hash::Kind {
        self.kind
    }

    /// The paths of the files of alternates that aren't read, since they are too many levels away. git passes over them too, and says so.
    pub fn unread_alternates(&self) -> &[String] {
        self.folders.too_deep.as_slice()
    }

    /// Puts the bytes of an object into `buf` in place of what was there, and returns its kind. None where no file has the object.
    /// Nothing is known of the bytes: compare them with the id.
    ///
    /// Where a file that has the object is damaged, the next one that has it is read. Where none of those that there are has it, the packs
    /// are listed once more, since git may have packed it anew meanwhile.
    ///
    /// # Errors
    ///
    /// `Damaged` with the first damage that was met on the way, where no file has the object undamaged. It may be the damage of an index,
    /// whose pack may have the object or not. `Memory`. After each, and after None, `buf` may hold anything. The folder can be used
    /// further.
    pub fn read(&mut self, id: &ObjectId, buf: &mut Vec<u8>) -> Result<Option<Kind>, Fault> {
        self.read_copy(id, 0, buf)
    }

    /// The same of another copy of the object: so many copies that could be read are passed over. A caller that finds the bytes of another
    /// object asks for the next copy, since this one is damaged too.
    ///
    /// # Errors
    ///
    /// Those of [`read`](Odb::read), where there is no further copy. The same holds of None.
    pub fn read_copy(
        &mut self,
        id: &ObjectId,
        passed: usize,
        buf: &mut Vec<u8>,
    ) -> Result<Option<Kind>, Fault> {
        self.passed = passed;
        if id.kind() != self.kind {
            return Ok(None);
        }
        let mut first = None;
        let mut found = self.read_packed(id, 0, &mut first)?;
        if found.is_none() {
            found = self.read_loose(id, &mut first)?;
        }
        if found.is_none() {
            let known = self.packs.all.len();
            self.list_again()?;
            if self.packs.all.len() > known {
                found = self.read_packed(id, known, &mut first)?;
            }
        }
        if let Some(kind) = found {
            mem::swap(buf, &mut self.work.out);
            return Ok(Some(kind));
        }
        match first {
            Some(fault) => Err(fault),
            None => Ok(None),
        }
    }

    /// The ids of all objects that begin with some digits, loose or packed, also of folders that are borrowed from, each once and at
    /// most so many. Where there is none, the packs are listed once more. Whether the objects can be read isn't tested.
    ///
    /// # Errors
    ///
    /// The damage of the first folder or index that can't be read: it might have more of them. `Memory`. The folder can be used further.
    pub fn ids_from(&mut self, front: &Front, most: usize) -> Result<Vec<ObjectId>, Fault> {
        let mut found = Beginning::new(self.rt.alloc(), *front, most);
        self.add_packed(0, &mut found)?;
        for folder in self.folders.all.iter() {
            let path = folder.path.as_str();
            match short::add_loose(&self.rt, path, self.kind, &mut found) {
                Ok(()) => {}
                Err(damage) => {
                    return Err(fault_of(String::from_str(self.rt.alloc(), path)?, damage));
                }
            }
        }
        if found.ids.is_empty() {
            let known = self.packs.all.len();
            self.list_again()?;
            self.add_packed(known, &mut found)?;
        }
        Ok(found.ids)
    }

    /// Adds the ids of packs from a number on.
    fn add_packed(&mut self, from: usize, found: &mut Beginning) -> Result<(), Fault> {
        for number in from..self.packs.all.len() {
            self.now = number;
            let answer = match self.packs.all.get_mut(number) {
                Some(pack) => pack.add_ids(&self.rt, self.kind, found, &mut self.indexes),
                None => Ok(()),
            };
            if let Err(trouble) = answer {
                return Err(self.fault_in_pack(trouble)?);
            }
        }
        Ok(())
    }

    /// Lists the packs once more.
    fn list_again(&mut self) -> Result<(), Fault> {
        if self.listings == 0 {
            return Ok(());
        }
        self.listings -= 1;
        for folder in self.folders.all.iter() {
            self.packs.list(&self.rt, folder.path.as_str())?;
        }
        Ok(())
    }

    /// Reads an object from the first pack that has it undamaged, of those from a number on. Where there is none, `first` is the first
    /// fault of all that were met.
    fn read_packed(
        &mut self,
        id: &ObjectId,
        from: usize,
        first: &mut Option<Fault>,
    ) -> Result<Option<Kind>, Fault> {
        let count = self.packs.all.len();
        if from == 0 && self.last < count {
            if let Some(kind) = self.read_from(self.last, id, first)? {
                return Ok(Some(kind));
            }
        }
        for number in from..count {
            if number != self.last || from > 0 {
                if let Some(kind) = self.read_from(number, id, first)? {
                    self.last = number;
                    return Ok(Some(kind));
                }
            }
        }
        Ok(None)
    }

    /// Reads an object from a pack, and keeps in `first` the fault of it, where there is none yet.
    fn read_from(
        &mut self,
        number: usize,
        id: &ObjectId,
        first: &mut Option<Fault>,
    ) -> Result<Option<Kind>, Fault> {
        self.now = number;
        let answer = match self.place_in(number, id) {
            Ok(Some(at)) => self.unpack(Place { pack: number, at }),
            Ok(None) => return Ok(None),
            Err(trouble) => Err(trouble),
        };
        match answer {
            Ok(kind) => Ok(self.unless_passed(kind)),
            Err(trouble) => {
                let fault = self.fault_in_pack(trouble)?;
                keep_first(first, fault)?;
                Ok(None)
            }
        }
    }

    /// The kind of a copy, unless it is to be passed over.
    fn unless_passed(&mut self, kind: Kind) -> Option<Kind> {
        if self.passed == 0 {
            return Some(kind);
        }
        self.passed -= 1;
        None
    }

    /// The fault of the pack that is read.
    fn fault_in_pack(&self, trouble: Trouble) -> Result<Fault, Fault> {
        let mut file = String::new(self.rt.alloc());
        if let Some(pack) = self.packs.all.get(self.now) {
            file.push_str(pack.stem.as_str())?;
        }
        file.push_str(if trouble.in_index { ".idx" } else { ".pack" })?;
        Ok(fault_of(file, trouble.damage))
    }

    /// Where a pack has the entry of an object.
    fn place_in(&mut self, number: usize, id: &ObjectId) -> Result<Option<u64>, Trouble> {
        match self.packs.all.get_mut(number) {
            Some(pack) => pack.place_of(&self.rt, self.kind, id, &mut self.indexes),
            None => Ok(None),
        }
    }

    /// Puts the object of an entry into `work.out`.
    fn unpack(&mut self, place: Place) -> Result<Kind, Trouble> {
        self.work.begin();
        let mut place = place;
        for _ in 0..=DEEPEST {
            self.now = place.pack;
            if let Some(kind) = self.work.take_base(place).map_err(Damage::from)? {
                return Ok(self.work.make(kind, place, true)?);
            }
            self.open_pack(place.pack)?;
            let Some(pack) = self.packs.all.get(place.pack) else {
                return Err(Trouble::from(Damage::Unreadable));
            };
            let content = pack.read(self.kind, place, &mut self.work)?;
            match content.base {
                Base::Whole(kind) => {
                    self.work.set_whole(content.size)?;
                    return Ok(self.work.make(kind, place, false)?);
                }
                Base::Offset(at) => {
                    self.work.push_delta(place, content.size)?;
                    place.at = at;
                }
                Base::Id(id) => {
                    self.work.push_delta(place, content.size)?;
                    match self.place_of_base(place.pack, &id)? {
                        Some(base) => place = base,
                        None => return self.unpack_from_loose(place, &id),
                    }
                }
            }
        }
        Err(Trouble::from(Damage::Deep(place.at)))
    }

    /// Opens a pack, if it isn't open. Others may be closed.
    fn open_pack(&mut self, number: usize) -> Result<(), Damage> {
        match self.packs.all.get(number) {
            Some(pack) => {
                if pack.is_open() {
                    return Ok(());
                }
            }
            None => return Err(Damage::Unreadable),
        }
        if self.open >= MOST_OPEN {
            self.packs.close_all();
            self.open = 0;
        }
        let Some(pack) = self.packs.all.get_mut(number) else {
            return Err(Damage::Unreadable);
        };
        pack.open(&self.rt, self.kind)?;
        self.open = self.open.saturating_add(1);
        Ok(())
    }

    /// The entry of the base of this id: in the same pack, or else in another.
    fn place_of_base(&mut self, pack: usize, id: &ObjectId) -> Result<Option<Place>, Trouble> {
        if let Some(at) = self.place_in(pack, id)? {
            return Ok(Some(Place { pack, at }));
        }
        for number in 0..self.packs.all.len() {
            if let Ok(Some(at)) = self.place_in(number, id) {
                return Ok(Some(Place { pack: number, at }));
            }
        }
        Ok(None)
    }

    /// Makes the object of the deltas on the way, whose base is a loose object.
    fn unpack_from_loose(&mut self, place: Place, id: &ObjectId) -> Result<Kind, Trouble> {
        for number in 0..self.folders.all.len() {
            if let Ok(Some(kind)) = self.read_loose_in(number, id) {
                return Ok(self.work.make(kind, place, true)?);
            }
        }
        Err(Trouble::from(Damage::NoBase(place.at, *id)))
    }

    /// Reads an object from the first folder that has its file undamaged. Where there is none, `first` is the first fault of all that
    /// were met.
    fn read_loose(
        &mut self,
        id: &ObjectId,
        first: &mut Option<Fault>,
    ) -> Result<Option<Kind>, Fault> {
        for number in 0..self.folders.all.len() {
            match self.read_loose_in(number, id) {
                Ok(Some(kind)) => {
                    if let Some(kind) = self.unless_passed(kind) {
                        return Ok(Some(kind));
                    }
                }
                Ok(None) => {}
                Err(damage) => {
                    let file = match self.folders.all.get(number) {
                        Some(folder) => loose::path_of(self.rt.alloc(), folder.path.as_str(), id)?,
                        None => String::new(self.rt.alloc()),
                    };
                    keep_first(first, fault_of(file, damage))?;
                }
            }
        }
        Ok(None)
    }

    /// Reads an object from its file in a folder.
    fn read_loose_in(&mut self, number: usize, id: &ObjectId) -> Result<Option<Kind>, Damage> {
        let Some(folder) = self.folders.all.get(number) else {
            return Ok(None);
        };
        let path = loose::path_of(self.rt.alloc(), folder.path.as_str(), id)?;
        if !gix_files::read(&self.rt, path.as_str(), MOST_LOOSE, &mut self.work.stream)? {
            return Ok(None);
        }
        Ok(Some(loose::read_file(&mut self.work)?))
    }
}

/// Keeps a fault where there is none yet. Where memory ran out, nothing is kept and nothing else tried.
fn keep_first(first: &mut Option<Fault>, fault: Fault) -> Result<(), Fault> {
    if let Fault::Memory = fault {
        return Err(Fault::Memory);
    }
    if first.is_none() {
        *first = Some(fault);
    }
    Ok(())
}
