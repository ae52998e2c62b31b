//! Packs, which are opened when they are asked for the first time.
ghost use Rattle.std.specs.Prelude.{◌≡◌, ◌+◌, ◌≤◌, ◌<◌, length, IfOk};

use crate::bases::Place;
use crate::fault::Damage;
use crate::pages::Pages;
use crate::short::Beginning;
use crate::work::{MOST_OBJECT, Work, most_of};
use gix_files::{Opened, fill, is_there, open};
use gix_hash::{Kind, ObjectId};
use gix_inflate::{Fault as StreamFault, inflate};
use gix_pack::{Base, HEAD, INDEX_HEAD, Index, IndexFault, count_of, entry_at};
use std::alloc::Global;
use std::fs::Files;
use std::os::unix::fs::FileExt;

/// The most bytes of an index.
const MOST_INDEX: u64 = 1 << 32;
/// How many bytes an index has that is read at once, at the most.
const SMALL_INDEX: u64 = 1 << 18;
/// How many indexes are open at the same time, at the most. Others are read at once.
const MOST_INDEXES: usize = 64;
/// How many bytes of a pack are read for an entry at first, and how many then, where that wasn't enough.
const FIRST_READ: usize = 4096;

const SECOND_READ: usize = 65536;
/// How often the number of bytes that are read can be made four times as large.
const MOST_READS: u32 = 32;

/// What is wrong with a pack, or with its index.
#[derive(Clone, Copy)]
pub(crate) struct Trouble {
    /// Whether it is the index.
    pub in_index: bool,
    /// What is wrong with it.
    pub damage: Damage,
}

impl From<Damage> for Trouble {
    fn from(damage: Damage) -> Trouble {
        Trouble {
            in_index: false,
            damage,
        }
    }
}

/// The trouble of an index.
fn in_index(damage: Damage) -> Trouble {
    Trouble {
        in_index: true,
        damage,
    }
}

/// An index, and its file.
struct Paged<F: Drop> {
    index: Index,
    pages: Pages<F>,
}

impl<F: Drop> Drop for Paged<F> {
    fn drop(self) {
        let Paged { index: _, pages: _ } = self;
    }
}

impl<F: FileExt + Drop> Paged<F> {
    /// Where the entry of an object begins, and None where the pack doesn't have the object.
    fn entry_of(&mut self, id: &ObjectId) -> Result<Option<u64>, Damage> {
        let place = match self.index.place_of(id, &mut self.pages) {
            Ok(Some(place)) => place,
            Ok(None) => return Ok(None),
            Err(fault) => return Err(self.pages.damage_or(fault)),
        };
        match self.index.offset_at(place, &mut self.pages) {
            Ok(Some(at)) => Ok(Some(at)),
            Ok(None) => Err(Damage::NoPlace(*id)),
            Err(fault) => Err(self.pages.damage_or(fault)),
        }
    }

    /// Adds the ids of all objects of the pack that begin with the digits.
    fn add_ids(&mut self, found: &mut Beginning) -> Result<(), Damage> {
        let places = match self.index.places_from(&found.front, &mut self.pages) {
            Ok(places) => places,
            Err(fault) => return Err(self.pages.damage_or(fault)),
        };
        for place in places {
            if found.is_full() {
                break;
            }
            match self.index.id_at(place, &mut self.pages) {
                Ok(Some(id)) => found.add(id)?,
                Ok(None) => {}
                Err(fault) => return Err(self.pages.damage_or(fault)),
            }
        }
        Ok(())
    }
}

/// What is known of an index.
enum State<F: Drop> {
    /// It wasn't asked for.
    Unread,
    /// It was read.
    Ready(Paged<F>),
    /// It can't be used.
    Broken(Trouble),
    /// Its file or that of its pack is gone.
    Gone,
}

impl<F: Drop> Drop for State<F> {
    fn drop(self) {
        match self {
            State::Unread => {}
            State::Ready(_) => {}
            State::Broken(_) => {}
            State::Gone => {}
        }
    }
}

/// A pack with its index.
pub(crate) struct Pack<F: Drop> {
    /// The path of both files, up to the dot.
    pub stem: String,
    state: State<F>,
    opened: Option<Opened<F>>,
}

impl<F: Drop> Drop for Pack<F> {
    fn drop(self) {
        let Pack {
            stem: _,
            state: _,
            opened: _,
        } = self;
    }
}

/// What the stream of an entry has.
#[derive(Clone, Copy)]
pub(crate) struct Content {
    /// What it is.
    pub base: Base,
    /// How many bytes there are, at the front of the room.
    pub size: usize,
}

impl<F: FileExt + Drop> Pack<F> {
    /// The pack of these files, neither of which is opened.
    pub fn new(stem: String) -> Pack<F> {
        Pack {
            stem,
            state: State::Unread,
            opened: None,
        }
    }

    /// Whether the pack's file is open.
    pub fn is_open(&self) -> bool {
        self.opened.is_some()
    }

    /// Closes the pack's file, if it is open.
    pub fn close(&mut self) {
        self.opened = None;
    }

    /// Where the entry of an object begins, and None where the pack doesn't have the object, or is gone. If the index is opened by it, and
    /// stays open, `open` is one more.
    ///
    /// # Errors
    ///
    /// The trouble of the index, each time anew.
    pub fn place_of<R: Files<File = F> + AllocGlobal>(
        &mut self,
        rt: &R,
        kind: Kind,
        id: &ObjectId,
        open: &mut usize,
    ) -> Result<Option<u64>, Trouble> {
        if let State::Unread = self.state {
            self.state = read_index(rt, kind, self.stem.as_str(), open);
        }
        match &mut self.state {
            State::Ready(paged) => paged.entry_of(id).map_err(in_index),
            State::Broken(trouble) => Err(*trouble),
            _ => Ok(None),
        }
    }

    /// Adds the ids of all objects of the pack that begin with the digits. If the index is opened by it, and stays open, `open` is one more.
    ///
    /// # Errors
    ///
    /// The trouble of the index, each time anew.
    pub fn add_ids<R: Files<File = F> + AllocGlobal>(
        &mut self,
        rt: &R,
        kind: Kind,
        found: &mut Beginning,
        open: &mut usize,
    ) -> Result<(), Trouble> {
        if let State::Unread = self.state {
            self.state = read_index(rt, kind, self.stem.as_str(), open);
        }
        match &mut self.state {
            State::Ready(paged) => paged.add_ids(found).map_err(in_index),
            State::Broken(trouble) => Err(*trouble),
            _ => Ok(()),
        }
    }

    /// Opens the pack's file.
    pub fn open<R: Files<File = F> + AllocGlobal>(
        &mut self,
        rt: &R,
        kind: Kind,
    ) -> Result<(), Damage> {
        let State::Ready(paged) = &self.state else {
            return Err(Damage::Unreadable);
        };
        let path = ended(rt, self.stem.as_str(), ".pack")?;
        let Some(opened) = open(rt, path.as_str())? else {
            return Err(Damage::Unreadable);
        };
        check(&opened, &paged.index, kind)?;
        self.opened = Some(opened);
        Ok(())
    }

    /// Reads the entry of a place: what its stream holds is then at the front of `work.room`.
    pub fn read(&self, kind: Kind, place: Place, work: &mut Work) -> Result<Content, Damage> {
        let Some(opened) = &self.opened else {
            return Err(Damage::Unreadable);
        };
        let mut wanted = FIRST_READ;
        for _ in 0..MOST_READS {
            let got = read_part(opened, place.at, wanted, work)?;
            let left = opened.len.saturating_sub(place.at);
            if let Some(content) = inflate_entry(kind, place.at, left, got, work)? {
                return Ok(content);
            }
            if got < wanted {
                break;
            }
            wanted = match wanted {
                FIRST_READ => SECOND_READ,
                _ => wanted.saturating_mul(4),
            };
        }
        Err(Damage::Stream(place.at, StreamFault::Truncated))
    }
}

/// Inflates the entry whose first bytes are at the front of `work.stream`, so many of those that are left of its pack. None where these are
/// too few.
fn inflate_entry(
    kind: Kind,
    at: u64,
    left: u64,
    got: usize,
    work: &mut Work,
) -> Result<Option<Content>, Damage> {
    let entry = match entry_at(
        kind,
        at,
        work.stream.as_slice().get(..got).unwrap_or_default(),
    ) {
        Ok(entry) => entry,
        Err(fault) => return Err(Damage::Entry(at, fault)),
    };
    if entry.size > MOST_OBJECT || entry.size > most_of(left) {
        return Err(Damage::EntryTooLarge(at, entry.size));
    }
    let size = entry.size as usize;
    work.spend(size)?;
    let stream = work
        .stream
        .as_slice()
        .get(entry.head..got)
        .unwrap_or_default();
    match inflate(&mut work.inflater, stream, work.room.first(size)?) {
        Ok(_) => Ok(Some(Content {
            base: entry.base,
            size,
        })),
        Err(StreamFault::Truncated) => Ok(None),
        Err(fault) => Err(Damage::Stream(at, fault)),
    }
}

/// Reads bytes of a pack into `work.stream`, so many, or all up to the file's end where these are fewer. How many.
fn read_part<F: FileExt + Drop>(
    opened: &Opened<F>,
    at: u64,
    wanted: usize,
    work: &mut Work,
) -> Result<usize, Damage> {
    let left = opened.len.saturating_sub(at);
    let count = if wanted as u64 > left {
        left as usize
    } else {
        wanted
    };
    if work.stream.len() < count {
        work.stream.resize(count, 0)?;
    }
    let Some(stream) = work.stream.as_mut_slice().get_mut(..count) else {
        return Err(Damage::Memory);
    };
    Ok(fill(&opened.file, stream, at)?)
}

/// The path with this ending.
fn ended<R: AllocGlobal>(rt: &R, stem: &str, ending: &str) -> Result<String, Damage> {
    let mut path = String::from_str(rt.alloc(), stem)?;
    path.push_str(ending)?;
    Ok(path)
}

/// Reads the head of a pack's index, and all of it if it is small or too many others are open.
fn read_index<R: Files + AllocGlobal>(
    rt: &R,
    kind: Kind,
    stem: &str,
    open: &mut usize,
) -> State<R::File>
where
    R::File: FileExt,
{
    match open_index(rt, kind, stem) {
        Ok(Some(paged)) => keep_open(paged, open),
        Ok(None) => State::Gone,
        Err(damage) => State::Broken(in_index(damage)),
    }
}

/// Keeps an index open, or reads all of it.
fn keep_open<F: FileExt + Drop>(paged: Paged<F>, open: &mut usize) -> State<F> {
    let mut paged = paged;
    if paged.pages.len() > SMALL_INDEX && *open < MOST_INDEXES {
        *open = open.saturating_add(1);
    } else if let Err(damage) = paged.pages.read_all() {
        return State::Broken(in_index(damage));
    }
    State::Ready(paged)
}

/// The index of a pack, and None where one of the two files isn't there.
fn open_index<R: Files + AllocGlobal>(
    rt: &R,
    kind: Kind,
    stem: &str,
) -> Result<Option<Paged<R::File>>, Damage>
where
    R::File: FileExt,
{
    let pack = ended(rt, stem, ".pack")?;
    if !is_there(rt, pack.as_str())? {
        return Ok(None);
    }
    let path = ended(rt, stem, ".idx")?;
    match open(rt, path.as_str())? {
        Some(opened) => Ok(Some(index_in(rt.alloc(), kind, opened)?)),
        None => Ok(None),
    }
}

/// The index that a file is.
fn index_in<F: FileExt + Drop>(
    alloc: Global,
    kind: Kind,
    opened: Opened<F>,
) -> Result<Paged<F>, Damage> {
    let size = opened.len;
    if size > MOST_INDEX {
        return Err(Damage::FileTooLarge(size));
    }
    let mut pages = Pages::new(alloc, opened)?;
    let head = pages.bytes(0, INDEX_HEAD)?;
    let id = kind.len_in_bytes();
    let hash = pages.bytes(size.saturating_sub(2 * id as u64), id)?;
    match Index::new(kind, size, head, hash) {
        Ok(index) => Ok(Paged { index, pages }),
        Err(fault) => Err(Damage::Index(fault)),
    }
}

/// Whether a pack is the one of its index: both say as many objects, and the hash at the pack's end.
fn check<F: FileExt + Drop>(opened: &Opened<F>, index: &Index, kind: Kind) -> Result<(), Damage> {
    let mut head = [0u8; HEAD];
    let got = fill(&opened.file, &mut head, 0)?;
    let count = match count_of(head.get(..got).unwrap_or_default()) {
        Ok(count) => count,
        Err(fault) => return Err(Damage::Head(fault)),
    };
    let mut hash = [0u8; 32];
    let size = kind.len_in_bytes();
    let hash = &mut hash[..size];
    let got = fill(&opened.file, hash, opened.len.saturating_sub(size as u64))?;
    let hash = hash.get(..got).unwrap_or_default();
    if count != index.len() || hash != index.pack_hash() {
        return Err(Damage::OtherPack);
    }
    Ok(())
}
