//! Reads a folder of objects. `tests/objects` runs it over folders of git, whole and damaged.
//!
//! Its arguments are the folder, a word, and what the word needs:
//!
//! - `commits IDS` and `trees ID` write the records of all that the ids lead to, in the order in which a walk over what was gathered meets
//!   them. They fail if more was gathered.
//! - `some COUNT ORDER BORDER -- IDS` reads so many commits at a time, up to the ids of the border. After each time it writes how many there
//!   are, whether these are all, whether the last id waits, and then the ids that are reached.
//! - `beyond FILE IDS` gathers the commits that have no row in this file of a commit-graph.
//! - `unread` writes the files of alternates that aren't read.
//! - `each IDS` takes ids from standard input, one a line, of the kind of those among its arguments. It writes the record of each, or the id
//!   and then `missing` or `fault`.
//!
//! A fault of the whole is one line on standard error, and the status is then 1.
#![tactic(auto)]

use gix_gather::{Gathering, Order, commits, trees};
use gix_graph_file::graph_of;
use gix_hash::hashtable::IdSet;
use gix_hash::{Keys, Kind, ObjectId};
use gix_object::Kind as ObjectKind;
use gix_object::commit::{CommitRefIter, Token};
use gix_object::find::Find;
use gix_object::memory::MemoryStore;
use gix_object::tree::TreeRefIter;
use gix_odb::Odb;
use gix_records::NamedObjects;
use std::fmt::Display;
use std::io::{BufWriter, Read, Write};
use std::process::ExitCode;
use std::{env, fs};

fn main(rt: HostRuntime) -> ExitCode {
    match answer(&rt) {
        Some(()) => ExitCode::SUCCESS,
        None => ExitCode::FAILURE,
    }
}

/// Writes why the program fails.
fn failed<E: Display>(rt: &HostRuntime, error: &E) {
    let _ = eprintln!(rt; "test_objects: {error}");
}

fn answer(rt: &HostRuntime) -> Option<()> {
    let mut arguments = env::args(rt).ok()?;
    let _name = arguments.next();
    let words: Vec<String> = arguments.collect(rt.alloc()).ok()?;
    match words.as_slice() {
        [folder, word, count, order, rest @ ..] if word.as_str() == "some" => {
            let end = rest.iter().position(|word| word.as_str() == "--")?;
            let (border, tips) = rest.split_at_checked(end)?;
            let tips = ids_of(rt, tips.get(1..)?)?;
            let mut odb = open(rt, folder.as_str(), tips.as_slice())?;
            let count = count.as_str().parse().ok()?;
            let order = order_of(order.as_str())?;
            let border = ids_of(rt, border)?;
            write_some(
                rt,
                &mut odb,
                count,
                order,
                border.as_slice(),
                tips.as_slice(),
            )
        }
        [folder, word, file, tips @ ..] if word.as_str() == "beyond" => {
            let tips = ids_of(rt, tips)?;
            let mut odb = open(rt, folder.as_str(), tips.as_slice())?;
            let layer = fs::read(rt, file.as_str()).ok()?;
            let graph = graph_of(rt.alloc(), layer.as_slice()).ok()?;
            let gathered = commits(
                rt.alloc(),
                Keys::KNOWN,
                &mut odb,
                tips.as_slice(),
                Some(&graph),
            );
            write_records(rt, gathered, tips.as_slice())
        }
        [folder, word, ids @ ..] => {
            let ids = ids_of(rt, ids)?;
            serve(rt, folder.as_str(), word.as_str(), ids.as_slice())
        }
        _ => None,
    }
}

fn ids_of(rt: &HostRuntime, words: &[String]) -> Option<Vec<ObjectId>> {
    let mut ids = Vec::new(rt.alloc());
    for word in words {
        ids.push(ObjectId::from_hex(word.as_bytes()).ok()?).ok()?;
    }
    Some(ids)
}

fn order_of(word: &str) -> Option<Order> {
    match word {
        "met" => Some(Order::Met),
        "newest" => Some(Order::NewestFirst),
        "oldest" => Some(Order::OldestFirst),
        _ => None,
    }
}

fn open(rt: &HostRuntime, folder: &str, ids: &[ObjectId]) -> Option<Odb<HostRuntime>> {
    let kind = match ids {
        [first, ..] => first.kind(),
        [] => Kind::Sha1,
    };
    match Odb::open(rt, folder, kind) {
        Ok(odb) => Some(odb),
        Err(fault) => {
            failed(rt, &fault);
            None
        }
    }
}

fn serve(rt: &HostRuntime, folder: &str, word: &str, ids: &[ObjectId]) -> Option<()> {
    let mut odb = open(rt, folder, ids)?;
    match word {
        "unread" => write_unread(rt, &odb),
        "commits" => write_records(
            rt,
            commits(rt.alloc(), Keys::KNOWN, &mut odb, ids, None),
            ids,
        ),
        "trees" => write_records(
            rt,
            trees(rt.alloc(), Keys::KNOWN, &mut odb, ids.first()?),
            ids,
        ),
        "each" => write_each(rt, &mut odb),
        _ => None,
    }
}

fn write_unread(rt: &HostRuntime, odb: &Odb<HostRuntime>) -> Option<()> {
    for path in odb.unread_alternates() {
        write!(rt.stdout(), "{path}\n").ok()?;
    }
    Some(())
}

fn write_records(
    rt: &HostRuntime,
    gathered: Result<NamedObjects, gix_gather::Fault>,
    ids: &[ObjectId],
) -> Option<()> {
    let objects = match gathered {
        Ok(objects) => objects,
        Err(fault) => {
            failed(rt, &fault);
            return None;
        }
    };
    let mut out = Vec::new(rt.alloc());
    let count = write_reached(rt, objects.store(), ids, true, &mut out)?;
    if count != objects.len() {
        failed(rt, &"more objects than are reached");
        return None;
    }
    rt.stdout().write_all(out.as_slice()).ok()
}

fn write_some(
    rt: &HostRuntime,
    odb: &mut Odb<HostRuntime>,
    count: usize,
    order: Order,
    border: &[ObjectId],
    tips: &[ObjectId],
) -> Option<()> {
    let mut ends = IdSet::new(rt.alloc(), Keys::KNOWN);
    for id in border {
        ends.insert(*id).ok()?;
    }
    let mut gathering = Gathering::commits(rt.alloc(), tips, order, ends).ok()?;
    let mut is_all = false;
    let mut out = Vec::new(rt.alloc());
    for _ in 0..u32::MAX {
        if is_all {
            break;
        }
        is_all = match gathering.read_more(odb, None, count) {
            Ok(is_all) => is_all,
            Err(fault) => {
                failed(rt, &fault);
                return None;
            }
        };
        let waits = tips.last().is_some_and(|id| gathering.waits(id));
        write!(out, "{} {is_all} {waits}\n", gathering.len()).ok()?;
        if write_reached(rt, gathering.store(), tips, false, &mut out)? != gathering.len() {
            failed(rt, &"more objects than are reached");
            return None;
        }
    }
    rt.stdout().write_all(out.as_slice()).ok()
}

/// Adds to `out` the records of the objects that are reached in a store, or their ids, and returns how many they are.
fn write_reached(
    rt: &HostRuntime,
    store: &MemoryStore<'_>,
    ids: &[ObjectId],
    is_whole: bool,
    out: &mut Vec<u8>,
) -> Option<usize> {
    let mut met = IdSet::new(rt.alloc(), Keys::KNOWN);
    let mut wait = Vec::new(rt.alloc());
    wait.extend_from_slice(ids).ok()?;
    let mut object = Vec::new(rt.alloc());
    let mut count = 0usize;
    for at in 0..usize::MAX {
        let Some(id) = wait.get(at).copied() else {
            break;
        };
        if !met.insert(id).ok()? {
            continue;
        }
        let Some(kind) = store.find_into(&id, &mut object).ok()? else {
            continue;
        };
        count = count.saturating_add(1);
        if is_whole {
            write!(out, "{} {id} {}\n", word_of(kind), object.len()).ok()?;
            out.extend_from_slice(object.as_slice()).ok()?;
            out.push(b'\n').ok()?;
        } else {
            write!(out, "{id}\n").ok()?;
        }
        add_named(kind, &id, object.as_slice(), &mut wait)?;
    }
    Some(count)
}

fn add_named(
    kind: ObjectKind,
    id: &ObjectId,
    bytes: &[u8],
    wait: &mut Vec<ObjectId>,
) -> Option<()> {
    match kind {
        ObjectKind::Commit => {
            for item in CommitRefIter::from_bytes(bytes, id.kind()) {
                if let Ok(Token::Parent { id }) = item {
                    wait.push(id).ok()?;
                }
            }
        }
        ObjectKind::Tree => {
            for entry in TreeRefIter::from_bytes(bytes, id.kind()) {
                if let Ok(entry) = entry {
                    if entry.mode.is_tree() {
                        wait.push(entry.oid).ok()?;
                    }
                }
            }
        }
        _ => {}
    }
    Some(())
}

fn write_each(rt: &HostRuntime, odb: &mut Odb<HostRuntime>) -> Option<()> {
    let mut text = Vec::new(rt.alloc());
    rt.stdin().read_to_end(&mut text).ok()?;
    let mut out = BufWriter::new(rt.alloc(), rt.stdout()).ok()?;
    let mut object = Vec::new(rt.alloc());
    for line in text.as_slice().split(|byte| *byte == b'\n') {
        if let Ok(id) = ObjectId::from_hex(line) {
            write_one(odb, &id, &mut object, &mut out)?;
        }
    }
    out.flush().ok()
}

fn write_one<W: Write>(
    odb: &mut Odb<HostRuntime>,
    id: &ObjectId,
    object: &mut Vec<u8>,
    out: &mut W,
) -> Option<()> {
    match odb.read(id, object) {
        Ok(Some(kind)) => {
            write!(out, "{} {} {}\n", word_of(kind), id, object.len()).ok()?;
            out.write_all(object.as_slice()).ok()?;
            out.write_all(b"\n").ok()
        }
        Ok(None) => write!(out, "{id} missing\n").ok(),
        Err(fault) => write!(out, "{id} fault {fault}\n").ok(),
    }
}

fn word_of(kind: ObjectKind) -> &'static str {
    match kind {
        ObjectKind::Commit => "commit",
        ObjectKind::Tree => "tree",
        ObjectKind::Blob => "blob",
        ObjectKind::Tag => "tag",
    }
}
