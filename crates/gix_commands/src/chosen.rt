//! Which of the commits that a walk gives are written.
ghost use Rattle.std.specs.Prelude.{◌≡◌, ◌≢◌, ◌⊎◌, ◌++◌, ◌∷◌, [], ℕ, ℤ, true, None, Some, IfOk, IfErr, MatchBool, OnOk, pos};
ghost use Rattle.gix_commands.specs.Chosen.{HasTextIn, Passes, IsHeaderOf, commit_with, fresh_choosing, is_kept, keeps, line_in, page_line, seconds_or_zero};
ghost use Rattle.gix_commands.specs.PageObjects.{page_objects};
ghost use Rattle.gix_statement.specs.WholeStatement as page;
ghost use Rattle.gix_statement.specs.WholeStatement.{commit_line, text_in};
ghost use Rattle.gix_revwalk.specs.Commits.{time_of};
ghost use Rattle.gix_revwalk.specs.Texts.{text_next};
ghost use Rattle.std.specs.Bool.{if◌then◌else◌};
ghost use Rattle.std.specs.Fmt.{signed_decimal};
ghost use Rattle.std.specs.List.{flat_map};
ghost use Rattle.gix_hash.specs.Id.{hex_of};
ghost use Rattle.gix_object.specs.declared.find.existing_iter.Error.TheVariants as existing;
ghost use Rattle.gix_commands.specs.Readable.{is_first, readable};
ghost use Rattle.gix_graph_store.specs.WithRows.{with_rows};
ghost use Rattle.gix_commitgraph.specs.Rows.{row_of};
ghost use Rattle.gix_revwalk.specs.Agreeing.{rows_in};

use crate::commits::Lent;
use crate::digits::{add_digits, add_id};
use gix_commitgraph::Graph;
use gix_format::{Commit, add_formatted};
use gix_hash::ObjectId;
use gix_object::find::{self, Find, existing_iter};
use gix_object::memory::MemoryStore;
use gix_revwalk::read::{Header, find_header};
use gix_revwalk::{ParentIds, Parents};
use gix_words::{Fault, Form, Line, Merges, Shown};
use std::alloc::{AllocError, Global};
use std::marker::Model;

/// Chooses the commits that are written of those that a walk gives. What it has to know of a commit it reads again, since a walk gives the
/// first parent alone, or no time.
#[derive(Drop)]
pub struct Chooser<'a> {
    alloc: Global,
    objects: Lent<'a>,
    store: &'a MemoryStore<'a>,
    graph: Option<&'a Graph>,
    shown: Shown,
    /// How many more commits are left out first.
    skip: u64,
    /// How many more commits are written at most.
    left: Option<u64>,
    /// The text of the commit last looked at.
    text: Vec<u8>,
}

impl<'a> Model for Chooser<'a> {
    ghost use Rattle.std.specs.FinMap as map;
    ghost use Rattle.std.specs.Coded.{codes};
    ghost use Rattle.gix_hash.specs.Id.{id_cmp, id_code};
    ghost use Rattle.gix_object.specs.Object.{object_code};
    ghost use Rattle.gix_revwalk.specs.Agreeing.{rows_in};
    ghost use Rattle.gix_commands.specs.Chosen.{Choosing};

    ghost Value = { Choosing };

    ghost coded = { Prim.hlevel (codes, map.code {R = id_cmp} id_code object_code) };

    ghost view = { λ c. record {
      objects = c.objects;
      stored = c.store.now;
      rows = rows_in c.graph;
      shown = c.shown;
      skip = c.skip;
      left = c.left;
    } };
}

impl<'a> Chooser<'a> {
    /// Chooses commits of a walk over this store and these rows, through these parents.
    pub fn new(
        alloc: Global,
        shown: Shown,
        parents: Parents,
        store: &'a MemoryStore<'a>,
        graph: Option<&'a Graph>,
    ) -> Chooser<'a>
        ensures { result ≡ fresh_choosing (readable (is_first parents) (with_rows (rows_in graph.entry) store.now)) store.now
            (rows_in graph.entry) shown }
    {
        Chooser {
            alloc,
            objects: Lent::over(store, graph, parents),
            store,
            graph,
            shown,
            skip: shown.skip,
            left: shown.limit,
            text: Vec::new(alloc),
        }
    }

    /// How the commits are written.
    pub fn form(&self) -> Form
        ensures { result ≡ self.now.shown.form }
    {
        self.shown.form
    }

    /// Whether as many commits were chosen as may be.
    pub fn is_done(&self) -> bool
        ensures { MatchBool result (self.now.left ≡ Some 0) (self.now.left ≢ Some 0) }
    {
        matches!(self.left, Some(0))
    }

    /// Whether the next commit is chosen.
    ///
    /// # Errors
    /// `Missing` where lines have a format, and there is a row of the commit and no object. `Memory`.
    pub fn takes(&mut self, id: &ObjectId) -> Result<bool, Fault>
        requires { self.old.left ≢ Some 0 }
        ensures ok { IfOk result (λ t. Passes self.old id.now t self.new) }
        ensures text { OnOk result (HasTextIn self.old id.now) }
        ensures err { IfErr result (λ e. (e ≡ Fault.Memory) ⊎ ((e ≡ Fault.Missing id.now) × (HasTextIn self.old id.now → ⊥))) }
    {
        if self.lacks_text(id)? {
            return Err(Fault::Missing(*id));
        }
        if !self.keeps(id)? {
            return Ok(false);
        }
        if self.skip > 0 {
            self.skip -= 1;
            return Ok(false);
        }
        if let Some(left) = self.left {
            self.left = Some(left - 1);
        }
        Ok(true)
    }

    /// Whether a commit lacks the text that a format needs. A row has none.
    fn lacks_text(&self, id: &ObjectId) -> Result<bool, Fault>
        ensures ok { IfOk result (λ l. MatchBool l (HasTextIn self.now id.now → ⊥) (HasTextIn self.now id.now)) }
        ensures err { IfErr result (λ e. e ≡ Fault.Memory) }
    {
        if self.shown.line.format.is_empty() || !has_row(self.graph, id) {
            return Ok(false);
        }
        let mut text = Vec::new(self.alloc);
        match self.store.find_into(id, &mut text) {
            Ok(found) => Ok(found.is_none()),
            Err(_) => Err(Fault::Memory),
        }
    }

    /// Whether a commit is kept. If all are, none is read.
    fn keeps(&mut self, id: &ObjectId) -> Result<bool, Fault>
        ensures ok { IfOk result (λ k. k ≡ keeps self.old id.now) }
        ensures same { self.new ≡ self.old }
        ensures err { IfErr result (λ e. e ≡ Fault.Memory) }
    {
        if keeps_all(self.shown) {
            return Ok(true);
        }
        let header = look_at(self.alloc, &self.objects, id, &mut self.text)?;
        Ok(is_kept(self.shown, header.parent_ids.len(), seconds_of(&header)))
    }

    /// Adds the line of a commit. If it has nothing besides the id, the commit isn't read.
    ///
    /// # Errors
    /// `Memory`: nothing is added.
    pub fn add_line(&self, lines: &mut Vec<u8>, id: &ObjectId) -> Result<(), Fault>
        ensures ok { OnOk result (lines.new.items ≡ lines.old.items ++ line_in self.now.objects self.now.shown id.now) }
        ensures err { IfErr result (λ e. (e ≡ Fault.Memory) × (lines.new.items ≡ lines.old.items)) }
    {
        let has = &self.shown.line;
        if has.id && !has.time && !has.parents && has.format.is_empty() {
            return Ok(add_id(lines, id, has.ending)?);
        }
        self.add_full_line(lines, id)
    }

    /// Adds the line of a commit, which is read.
    #[inline(never)]
    fn add_full_line(&self, lines: &mut Vec<u8>, id: &ObjectId) -> Result<(), Fault>
        ensures ok { OnOk result (lines.new.items ≡ lines.old.items ++ line_in self.now.objects self.now.shown id.now) }
        ensures err { IfErr result (λ e. (e ≡ Fault.Memory) × (lines.new.items ≡ lines.old.items)) }
    {
        let has = self.shown.line;
        let mut text = Vec::new(self.alloc);
        let header = look_at(self.alloc, &self.objects, id, &mut text)?;
        text.clear();
        if !has.format.is_empty() {
            read_text(&self.objects, id, &mut text)?;
        }
        let line = line_of(self.alloc, has, id, &header, text.as_slice())?;
        Ok(lines.extend_from_slice(line.as_slice())?)
    }
}

/// Whether a commit has a row.
pub fn has_row(graph: Option<&Graph>, id: &ObjectId) -> bool
    ensures { MatchBool result (row_of (rows_in graph.entry) id.now ≢ None) (row_of (rows_in graph.entry) id.now ≡ None) }
{
    match graph {
        Some(graph) => graph.commit_by_id(id).is_some(),
        None => false,
    }
}

/// Reads the bytes of an object: none where there is no object.
///
/// # Errors
/// `Memory`.
fn read_text(objects: &Lent<'_>, id: &ObjectId, text: &mut Vec<u8>) -> Result<(), Fault>
    ensures ok { OnOk result (text.new.items ≡ text_in (page_objects objects.now id.now)) }
    ensures err { IfErr result (λ e. e ≡ Fault.Memory) }
{
    match objects.find_into(id, text) {
        Ok(Some(_)) => Ok(()),
        Err(find::Error::Memory) => Err(Fault::Memory),
        Ok(None) | Err(find::Error::Store) => {
            text.clear();
            Ok(())
        }
    }
}

/// The header of a commit. What is no commit has no parents, and the time 0.
///
/// # Errors
/// `Memory`.
fn look_at(
    alloc: Global,
    objects: &Lent<'_>,
    id: &ObjectId,
    text: &mut Vec<u8>,
) -> Result<Header, Fault>
    ensures ok { IfOk result (IsHeaderOf objects.now id.now) }
    ensures err { IfErr result (λ e. e ≡ Fault.Memory) }
{
    match find_header(alloc, objects, id, text) {
        Ok(header) => Ok(header),
        Err(why) => no_header(alloc, why),
    }
}

/// The seconds of a header, or 0 where they can't be read.
fn seconds_of(header: &Header) -> i64
    ensures { result ≡ seconds_or_zero header.now.time }
{
    match header.time {
        Ok(time) => time,
        Err(_) => 0,
    }
}

/// What is no commit has no parents, and the time 0.
fn no_header(alloc: Global, why: existing_iter::Error) -> Result<Header, Fault>
    ensures ok { IfOk result (λ h. (h.parent_ids.items ≡ []) × (seconds_or_zero h.time ≡ pos 0) × (why ≢ existing.Memory)) }
    ensures err { IfErr result (λ e. e ≡ Fault.Memory) }
{
    match why {
        existing_iter::Error::Memory => Err(Fault::Memory),
        _ => Ok(Header {
            parent_ids: ParentIds::new(alloc),
            time: Ok(0),
        }),
    }
}

/// The line of a commit that has this header and this text.
fn line_of(
    alloc: Global,
    has: Line,
    id: &ObjectId,
    header: &Header,
    text: &[u8],
) -> Result<Vec<u8>, AllocError>
    ensures { IfOk result (λ line. line.items ≡ commit_line (λ i. Some (commit_with text.now)) (λ i. header.now.parent_ids.items)
        (λ i. seconds_or_zero header.now.time) (page_line has) id.now) }
{
    let parents = header.parent_ids.as_slice();
    let mut line = time_before(alloc, has.time, header)?;
    add_own_id(&mut line, has.id, id)?;
    add_parents(&mut line, has.parents, parents)?;
    let commit = Commit {
        id: *id,
        parents,
        time: seconds_of(header),
        text,
    };
    add_formatted(&mut line, has.format.as_bytes(), commit)?;
    line.push(has.ending)?;
    Ok(line)
}

/// The seconds of a header and a space, or nothing.
fn time_before(alloc: Global, is_shown: bool, header: &Header) -> Result<Vec<u8>, AllocError>
    ensures { IfOk result (λ line. line.items ≡ if is_shown then signed_decimal (seconds_or_zero header.now.time) ++ 32 ∷ [] else []) }
{
    if !is_shown {
        return Ok(Vec::new(alloc));
    }
    let seconds = seconds_of(header);
    let text = format!(in alloc; "{seconds} ")?;
    text.as_bytes().to_vec(alloc)
}

/// Adds the id of a commit, or nothing.
fn add_own_id(line: &mut Vec<u8>, is_shown: bool, id: &ObjectId) -> Result<(), AllocError>
    ensures { OnOk result (line.new.items ≡ line.old.items ++ (if is_shown then hex_of id.now else [])) }
{
    if is_shown {
        add_digits(line, id)?;
    }
    Ok(())
}

/// Adds a space and each of these ids, or nothing.
fn add_parents(line: &mut Vec<u8>, are_shown: bool, ids: &[ObjectId]) -> Result<(), AllocError>
    ensures { OnOk result (line.new.items ≡ line.old.items ++ (if are_shown then flat_map (λ p. 32 ∷ hex_of p) ids.now else [])) }
{
    if are_shown {
        add_ids(line, ids)?;
    }
    Ok(())
}

/// Adds a space and each of these ids.
fn add_ids(line: &mut Vec<u8>, ids: &[ObjectId]) -> Result<(), AllocError>
    ensures { OnOk result (line.new.items ≡ line.old.items ++ flat_map (λ p. 32 ∷ hex_of p) ids.now) }
{
    for id in ids {
        line.push(b' ')?;
        add_digits(line, id)?;
    }
    Ok(())
}

/// Whether each commit is kept, whatever it is.
fn keeps_all(shown: Shown) -> bool
    ensures { MatchBool result ((n : ℕ) (t : ℤ) → is_kept shown n t ≡ true) (Unit {0}) }
{
    shown.until.is_none() && matches!(shown.merges, Merges::Any)
}

/// Whether a commit is kept that has so many parents and these seconds.
fn is_kept(shown: Shown, parents: usize, time: i64) -> bool
    ensures { result ≡ is_kept shown parents time }
{
    if let Some(seconds) = shown.until {
        if time > seconds {
            return false;
        }
    }
    match shown.merges {
        Merges::Any => true,
        Merges::Only => parents > 1,
        Merges::No => parents <= 1,
    }
}
