//! Where the objects of commits are read.
ghost use Rattle.std.specs.Prelude.{IfOk};
ghost use Rattle.gix_graph_verify.specs.Named.{IsFound};

use gix_gather::read_named;
use gix_hash::ObjectId;
use gix_object::Kind;
use gix_odb::Odb;
use std::fs::Files;
use std::os::unix::fs::FileExt;

/// What is stored at an id.
#[derive(Clone, Copy, PartialEq, Eq, Debug)]
pub enum Found {
    /// The object of the id, of this kind.
    Named(Kind),
    /// Another object alone, whose hash isn't the id.
    Misnamed,
    /// Nothing.
    Missing,
}

/// A store that compares each object with its id.
pub trait Objects {
    /// Why nothing can be said of an id.
    type Fault;

    /// Reads the object of an id, and puts its bytes into `buf` in place of what was there. Where it isn't found, `buf` may hold
    /// anything.
    ///
    /// # Errors
    ///
    /// Where the store can't be read. `buf` may hold anything.
    fn read(&mut self, id: &ObjectId, buf: &mut Vec<u8>) -> Result<Found, Self::Fault>
        // What is found is the object that the id says.
        ensures { IfOk result (λ found. IsFound id.now found buf.new.items) };
}

/// A folder of objects, of which each copy of an object is compared with its id, up to the first that is the object of the id.
impl<R> Objects for Odb<R>
where
    R: Files + AllocGlobal + Clone + Drop,
    R::File: FileExt,
{
    type Fault = gix_gather::Fault;

    fn read(&mut self, id: &ObjectId, buf: &mut Vec<u8>) -> Result<Found, gix_gather::Fault> {
        match read_named(self, id, buf) {
            Ok(Some(kind)) => Ok(Found::Named(kind)),
            Ok(None) => Ok(Found::Missing),
            Err(gix_gather::Fault::Name(_)) => Ok(Found::Misnamed),
            Err(fault) => Err(fault),
        }
    }
}
