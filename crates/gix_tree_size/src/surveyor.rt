//! A delegate that walks through each tree once, and keeps how large it is.
ghost use Rattle.std.specs.Prelude.{◌≡◌, min, max, IfOk, OnOk, OnErr};
ghost use Rattle.gix_object.specs.TreeRefIter.{entry_of};
ghost use Rattle.gix_tree_size.specs.Survey.{is_name};
ghost use Rattle.gix_tree_size.specs.Inside.Surveyor.{fresh_surveyor, noted, found, size_with, size_with_tree, entered, survey_of};

use crate::Survey;
use bstr::BStr;
use gix_hash::hashtable::IdMap;
use gix_hash::{Keys, ObjectId};
use gix_object::tree::EntryRef;
use gix_tree::visit::{Action, Visit};
use std::alloc::{AllocError, Global};
use std::marker::Model;
use std::mem;
use std::ops::ControlFlow;

/// How large a tree is, or what was seen of it.
#[derive(Clone, Copy)]
pub struct Size {
    /// How many entries there are in it and in the trees in it, as often as they are met.
    pub entries: u64,
    /// How many trees an entry is in at most, up to this one.
    pub depth: usize,
}

impl Size {
    /// Of no entry.
    fn none() -> Size
        ensures { result ≡ record { entries = 0; depth = 0 } }
    {
        Size {
            entries: 0,
            depth: 0,
        }
    }

    /// With one entry more, which is no tree.
    fn with(self) -> Size
        ensures { result ≡ size_with self }
    {
        Size {
            entries: self.entries.saturating_add(1),
            depth: self.depth.max(1),
        }
    }

    /// With one entry more, which is a tree of this size.
    fn with_tree(self, tree: Size) -> Size
        ensures { result ≡ size_with_tree self tree }
    {
        Size {
            entries: self.entries.saturating_add(1).saturating_add(tree.entries),
            depth: self.depth.max(tree.depth.saturating_add(1)),
        }
    }
}

/// A tree, and what was seen of it.
#[derive(Clone, Copy)]
pub struct Level {
    pub id: ObjectId,
    pub size: Size,
}

/// Goes into a tree where it is met first. Where it is met again, its size is known.
#[derive(Drop)]
pub struct Surveyor {
    /// The trees that were entered, with their sizes once the walk has left them.
    sizes: IdMap<Option<Size>>,
    /// The tree that the walk is in or enters next.
    tree: Level,
    /// The trees above it, the root first.
    above: Vec<Level>,
    /// The walk enters the tree next.
    entering: bool,
    /// The first tree that has an entry whose name is none.
    misnamed: Option<ObjectId>,
}

impl Model for Surveyor {
    ghost use Rattle.std.specs.Prelude.{Option, reverse};
    ghost use Rattle.std.specs.Coded.{codes};
    ghost use Rattle.std.specs.FinMap as map;
    ghost use Rattle.gix_hash.specs.Id.{id_cmp, id_code};
    ghost use Rattle.gix_tree_size.specs.declared.surveyor.Size.{Size};
    ghost use Rattle.gix_tree_size.specs.Inside.Surveyor.{Surveying};

    ghost Value = { Surveying };

    ghost coded = { Prim.hlevel (codes, map.code {X = Option Size} {R = id_cmp} id_code (Prim.hlevel codes)) };

    ghost view = { λ s. record { sizes = s.sizes; tree = s.tree; above = reverse s.above.items; entering = s.entering; misnamed = s.misnamed } };
}

impl Surveyor {
    /// Of a walk that has yet to enter this root.
    pub fn above(alloc: Global, keys: Keys, root: ObjectId) -> Result<Surveyor, AllocError>
        ensures { IfOk result (λ s. s ≡ fresh_surveyor root) }
    {
        let mut sizes = IdMap::new(alloc, keys);
        sizes.insert(root, None)?;
        Ok(Surveyor {
            sizes,
            tree: Level {
                id: root,
                size: Size::none(),
            },
            above: Vec::new(alloc),
            entering: true,
            misnamed: None,
        })
    }

    /// What was seen of the root.
    pub fn survey(&self) -> Survey
        ensures { result ≡ survey_of self.now }
    {
        Survey {
            entries: self.tree.size.entries,
            depth: self.tree.size.depth,
            misnamed: self.misnamed,
        }
    }

    /// The walk is at this entry of its tree.
    fn note(&mut self, entry: &EntryRef<'_>)
        ensures { self.new ≡ noted self.old (entry_of entry.now) }
    {
        let named = is_name(entry.filename.as_bytes());
        if self.misnamed.is_none() && !named {
            self.misnamed = Some(self.tree.id);
        }
    }

    /// The size of a tree that the walk has left.
    fn size_of(&self, id: &ObjectId) -> Option<Size>
        ensures { result ≡ found self.now id.now }
    {
        *self.sizes.get(id)?
    }

    /// The walk enters the entry's tree next.
    fn enter(&mut self, entry: &EntryRef<'_>) -> Result<(), AllocError>
        ensures { OnOk result (self.new ≡ entered self.old (entry_of entry.now)) }
    {
        self.sizes.insert(entry.oid, None)?;
        self.above.push(self.tree)?;
        self.tree = Level {
            id: entry.oid,
            size: Size::none(),
        };
        self.entering = true;
        Ok(())
    }
}

/// Whether a name isn't empty and holds no `/`.
fn is_name(name: &[u8]) -> bool
    ensures { result ≡ is_name name.now }
{
    !name.is_empty() && !name.contains(&b'/')
}

impl Visit for Surveyor {
    ghost use Rattle.gix_tree_size.specs.Inside.Surveyor.{Surveys};

    ghost steps = { Surveys };

    fn pop_back_tracked_path_and_set_current(&mut self) {
        if self.entering {
            self.entering = false;
        } else if let Some(upper) = self.above.pop() {
            let Level { id, size } = mem::replace(&mut self.tree, upper);
            let _ = self.sizes.replace(&id, Some(size));
            self.tree.size = self.tree.size.with_tree(size);
        }
    }

    fn pop_front_tracked_path_and_set_current(&mut self) {}

    fn pop_path_component(&mut self) {}

    fn push_back_tracked_path_component(&mut self, _name: &BStr<'_>) -> Result<(), AllocError> {
        Ok(())
    }

    fn push_path_component(&mut self, _name: &BStr<'_>) -> Result<(), AllocError> {
        Ok(())
    }

    fn visit_tree(&mut self, entry: &EntryRef<'_>) -> Result<Action, AllocError> {
        self.note(entry);
        if let Some(size) = self.size_of(&entry.oid) {
            self.tree.size = self.tree.size.with_tree(size);
            return Ok(ControlFlow::Continue(false));
        }
        self.enter(entry)?;
        Ok(ControlFlow::Continue(true))
    }

    fn visit_nontree(&mut self, entry: &EntryRef<'_>) -> Result<Action, AllocError> {
        self.note(entry);
        self.tree.size = self.tree.size.with();
        Ok(ControlFlow::Continue(true))
    }
}
