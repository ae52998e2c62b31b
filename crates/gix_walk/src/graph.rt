//! Which rows a question may use in place of commits.
use crate::failure::Failure;
use gix_commands::{Fault, read_graph};
use gix_commitgraph::{Graph, ParentPlaces, Row};
use gix_gather::read_named;
use gix_graph_check::read_whole;
use gix_graph_verify::{
    Layer, count_passed, has_passed, has_passed_open, keep, read_layers, verify,
};
use gix_hash::ObjectId;
use gix_object::Kind;
use gix_object::commit::CommitRefIter;
use gix_odb::Odb;
use gix_options::{Options, Rows};
use gix_repository::Repository;
use std::alloc::AllocError;
use std::env;
use std::fs::Files;
use std::io::Write;

/// The generation of a row that has no parents.
const FIRST_GENERATION: u32 = 1;

/// The rows of a question.
pub(crate) struct Known {
    /// The rows, if there are any that may be used.
    pub graph: Option<Graph>,
    /// Whether git's commit-graph lies there, and nobody has checked it.
    pub is_unchecked: bool,
}

impl Drop for Known {
    fn drop(self) {
        let Known {
            graph: _,
            is_unchecked: _,
        } = self;
    }
}

/// Which rows these options take, where there are some.
pub(crate) fn rows_of(options: &Options) -> gix_certificate::Rows {
    if options.takes_border {
        return gix_certificate::Rows::Border;
    }
    match options.rows {
        Rows::Checked => gix_certificate::Rows::Checked,
        Rows::Trusted => gix_certificate::Rows::Trusted,
        Rows::Unused => gix_certificate::Rows::Unused,
    }
}

/// No rows.
fn nothing() -> Known {
    Known {
        graph: None,
        is_unchecked: false,
    }
}

/// No rows, since nobody has checked those that git's commit-graph has.
fn unchecked() -> Known {
    Known {
        graph: None,
        is_unchecked: true,
    }
}

/// The rows that a question may use: those of the border, those of git's commit-graph where it was checked or is trusted, or none, as where
/// each commit is read in any case.
pub(crate) fn rows(
    rt: &HostRuntime,
    repository: &mut Repository<HostRuntime>,
    options: &Options,
    reads_all: bool,
) -> Result<Known, Failure> {
    if options.takes_border {
        return Ok(Known {
            graph: border(rt, repository)?,
            is_unchecked: false,
        });
    }
    if options.rows == Rows::Unused || reads_all {
        return Ok(nothing());
    }
    let paths = repository.graph_layers()?;
    if paths.is_empty() {
        return Ok(nothing());
    }
    let cache = cache_folder(rt)?;
    let is_checked = options.rows == Rows::Checked;
    Ok(rows_of_paths(rt, folder_of(cache.as_ref()), paths.as_slice(), is_checked)?)
}

/// The rows of the files of a commit-graph. Where they are to be checked, they are taken only if all files have passed.
fn rows_of_paths(
    rt: &HostRuntime,
    cache: Option<&str>,
    paths: &[String],
    is_checked: bool,
) -> Result<Known, Fault> {
    if is_checked && !have_passed(rt, cache, paths) {
        return Ok(unchecked());
    }
    let layers = match read_layers(rt, cache, paths) {
        Ok(layers) => layers,
        Err(fault) => {
            let _ = eprintln!(rt; "gix_walk: {fault}, so all commits are read themselves");
            return Ok(nothing());
        }
    };
    if is_checked && count_passed(layers.as_slice()) < layers.len() {
        return Ok(unchecked());
    }
    rows_of_layers(rt, layers)
}

/// The rows of files that were read. The files are dropped.
fn rows_of_layers(rt: &HostRuntime, layers: Vec<Layer>) -> Result<Known, Fault> {
    let mut files = Vec::new(rt.alloc());
    for layer in layers {
        files.push(layer.bytes).map_err(AllocError::from)?;
    }
    match read_graph(rt.alloc(), files) {
        Ok(graph) => Ok(Known {
            graph: Some(graph),
            is_unchecked: false,
        }),
        Err(Fault::Memory) => Err(Fault::Memory),
        Err(fault) => {
            warn(rt, &Failure::Command(fault));
            Ok(nothing())
        }
    }
}

/// Whether these options take a file that is open: it has passed, or is trusted.
pub(crate) fn is_taken(
    rt: &HostRuntime,
    options: &Options,
    file: &<HostRuntime as Files>::File,
) -> Result<bool, Failure> {
    match options.rows {
        Rows::Unused => Ok(false),
        Rows::Trusted => Ok(true),
        Rows::Checked => {
            let cache = cache_folder(rt)?;
            match folder_of(cache.as_ref()) {
                Some(cache) => Ok(has_passed_open(rt, cache, file)),
                None => Ok(false),
            }
        }
    }
}

/// Says that the rows aren't used, and why.
pub(crate) fn warn(rt: &HostRuntime, failure: &Failure) {
    let _ = eprintln!(rt; "gix_walk: {failure}, so all commits are read themselves");
}

/// Whether all files have passed, as far as the system says without reading them.
fn have_passed(rt: &HostRuntime, cache: Option<&str>, paths: &[String]) -> bool {
    let Some(cache) = cache else {
        return false;
    };
    for path in paths {
        if !has_passed(rt, cache, path.as_str()) {
            return false;
        }
    }
    true
}

/// The path as text.
fn folder_of(cache: Option<&String>) -> Option<&str> {
    match cache {
        Some(cache) => Some(cache.as_str()),
        None => None,
    }
}

/// The bytes of the files.
fn lend<'a>(rt: &HostRuntime, layers: &'a [Layer]) -> Result<Vec<&'a [u8]>, AllocError> {
    let mut files = Vec::new(rt.alloc());
    for layer in layers {
        files.push(layer.bytes.as_slice())?;
    }
    Ok(files)
}

/// The folder in which it is kept which files have passed, of the user, if the environment names one.
fn cache_folder(rt: &HostRuntime) -> Result<Option<String>, AllocError> {
    if let Ok(folder) = env::var(rt, "XDG_CACHE_HOME") {
        if folder.starts_with("/") {
            return Ok(Some(below(folder, "/kestrelrack")?));
        }
    }
    match env::var(rt, "HOME") {
        Ok(folder) if folder.starts_with("/") => Ok(Some(below(folder, "/.cache/kestrelrack")?)),
        _ => Ok(None),
    }
}

/// The path with this end.
fn below(folder: String, end: &str) -> Result<String, AllocError> {
    let mut path = folder;
    path.push_str(end)?;
    Ok(path)
}

/// Rows without parents for the commits at the border of a shallow clone, and None where the clone isn't shallow.
fn border(
    rt: &HostRuntime,
    repository: &mut Repository<HostRuntime>,
) -> Result<Option<Graph>, Failure> {
    let alloc = rt.alloc();
    let mut ids = Vec::new(alloc);
    ids.extend_from_slice(repository.shallow())?;
    let mut rows = Vec::new(alloc);
    let mut text = Vec::new(alloc);
    for id in ids.iter() {
        if let Some(row) = border_row(rt, &mut repository.odb, *id, &mut text)? {
            rows.push(row)?;
        }
    }
    if rows.is_empty() {
        return Ok(None);
    }
    match Graph::new(alloc, rows) {
        Ok(graph) => Ok(Some(graph)),
        Err(_) => Err(Failure::Command(Fault::Memory)),
    }
}

/// The row of a commit at the border, and None where there is no such commit.
fn border_row(
    rt: &HostRuntime,
    odb: &mut Odb<HostRuntime>,
    id: ObjectId,
    text: &mut Vec<u8>,
) -> Result<Option<Row>, Failure> {
    if read_named(odb, &id, text)? != Some(Kind::Commit) {
        return Ok(None);
    }
    let items = CommitRefIter::from_bytes(text.as_slice(), id.kind());
    let Some(commit) = read_whole(rt.alloc(), items)? else {
        return Ok(None);
    };
    Ok(Some(Row {
        id,
        tree: commit.tree,
        parents: ParentPlaces::new(rt.alloc()),
        generation: FIRST_GENERATION,
        time: commit.time,
    }))
}

/// Compares git's commit-graph with the commits, and keeps for each file that it is right. A file that was found right before isn't compared.
/// Writes what it found, and gives the status.
pub(crate) fn check<W: Write>(
    rt: &HostRuntime,
    repository: &mut Repository<HostRuntime>,
    writer: &mut W,
) -> Result<u8, Failure> {
    let paths = repository.graph_layers()?;
    if paths.is_empty() {
        return Err(Failure::NoGraph);
    }
    let cache = cache_folder(rt)?;
    let layers = read_layers(rt, folder_of(cache.as_ref()), paths.as_slice())?;
    let said = if count_passed(layers.as_slice()) < layers.len() {
        "agrees with the repository"
    } else {
        "was found right before"
    };
    let rows = compare(rt, repository, layers.as_slice())?;
    keep_passed(rt, folder_of(cache.as_ref()), layers.as_slice());
    match writeln!(writer, "the commit-graph {said}: {rows} commits have a row") {
        Ok(()) => Ok(0),
        Err(_) => Err(Failure::Command(Fault::Write)),
    }
}

/// Compares files with the commits, and says each difference. How many commits have a row, where there is no difference.
fn compare(
    rt: &HostRuntime,
    repository: &mut Repository<HostRuntime>,
    layers: &[Layer],
) -> Result<u32, Failure> {
    let files = lend(rt, layers)?;
    let passed = count_passed(layers);
    let report = verify(rt.alloc(), files.as_slice(), passed, &mut repository.odb)?;
    for difference in report.differences.iter() {
        let _ = eprintln!(rt; "gix_walk: {difference}");
    }
    if report.differences.is_empty() {
        Ok(report.rows)
    } else {
        Err(Failure::Differs)
    }
}

/// Keeps for each file that it is right, in the folder for that.
fn keep_passed(rt: &HostRuntime, cache: Option<&str>, layers: &[Layer]) {
    let Some(cache) = cache else {
        return;
    };
    for layer in layers {
        let kept = keep(rt, cache, layer.path.as_str(), layer.bytes.as_slice());
        if let Err(fault) = kept {
            let _ = eprintln!(rt; "gix_walk: it isn't kept that the file is right: {fault}");
        }
    }
}
