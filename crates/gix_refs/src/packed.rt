//! Packed refs: a file with a line for each.
ghost use Rattle.std.specs.Prelude.{◌≡◌, ◌+◌, ◌≤◌, ◌<◌, length, IsSome, IfSome};
ghost use Rattle.std.specs.Iterator.{at_most};

use crate::fault::RefFault;
use crate::names::is_name_of_any_level;
use gix_hash::{Kind, ObjectId};

/// A ref of a file of packed refs.
#[derive(Clone, Copy, PartialEq, Eq, Debug)]
pub struct PackedRef<'a> {
    /// Its name, which is one of any level.
    pub name: &'a [u8],
    /// Its id.
    pub id: ObjectId,
}

/// The refs of a file of packed refs, in the order of its lines. The line of a name that can't be that of a ref is the fault `Name`, and
/// a line that isn't one is `Line`. The next line comes then.
pub struct PackedRefs<'a> {
    kind: Kind,
    rest: &'a [u8],
    /// How many lines have been taken.
    line: u64,
}

impl<'a> Drop for PackedRefs<'a> {
    fn drop(self) {
        let PackedRefs {
            kind: _,
            rest: _,
            line: _,
        } = self;
    }
}

/// The refs of a file of packed refs, whose ids are of this kind. Comments, and what it says that tags lead to, are passed over.
pub fn packed_refs(kind: Kind, text: &[u8]) -> PackedRefs<'_> {
    PackedRefs {
        kind,
        rest: text,
        line: 0,
    }
}

impl<'a> PackedRefs<'a> {
    /// Takes the next line. False says that its end is missing.
    fn take_line(&mut self) -> Option<(&'a [u8], bool)>
        ensures less { IsSome result → length self.new.rest.now < length self.old.rest.now }
    {
        let text = self.rest;
        if text.is_empty() {
            return None;
        }
        self.line = self.line.saturating_add(1);
        let end = text
            .iter()
            .position(|byte| *byte == b'\n')
            .unwrap_or(text.len());
        match text.split_at_checked(end) {
            Some((line, [_, behind @ ..])) => {
                self.rest = behind;
                Some((line, true))
            }
            _ => {
                self.rest = &[];
                Some((text, false))
            }
        }
    }

    /// The ref of a line.
    fn read_line(&self, line: &'a [u8]) -> Result<PackedRef<'a>, RefFault> {
        let Some((digits, [b' ' | b'\t' | b'\r', name @ ..])) = line.split_at_checked(
            self.kind.len_in_hex(),
        ) else {
            return Err(RefFault::Line(self.line));
        };
        let Some(id) = ObjectId::from_digits(digits, self.kind) else {
            return Err(RefFault::Line(self.line));
        };
        if name.is_empty() {
            return Err(RefFault::Line(self.line));
        }
        if is_name_of_any_level(name) {
            Ok(PackedRef { name, id })
        } else {
            Err(RefFault::Name)
        }
    }
}

impl<'a> Iterator for PackedRefs<'a> {
    type Item = Result<PackedRef<'a>, RefFault>;

    ghost remaining = { λ s. at_most (length s.rest.now) };

    fn next(&mut self) -> Option<Result<PackedRef<'a>, RefFault>> {
        for _ in 0..=self.rest.len() {
            match self.take_line()? {
                ([b'#' | b'^', ..], true) => {}
                (line, true) => return Some(self.read_line(line)),
                (_, false) => return Some(Err(RefFault::Line(self.line))),
            }
        }
        None
    }
}
