//! The lines of a walk over commits.
ghost use Rattle.std.specs.Prelude.{◌≡◌, ◌++◌, ◌∷◌, [], false, length, reverse, OnOk, IfOk, IfErr};
ghost use Rattle.std.specs.Fmt.{digits};
ghost use Rattle.std.specs.Io.KnownBytes.{Appends};
ghost use Rattle.std.specs.Iterator.{IsFinite};
ghost use Rattle.std.specs.List.{flat_map};
ghost use Rattle.gix_commands.specs.Chosen.{HasTextIn, fresh_choosing, kept_in, line_in};
ghost use Rattle.gix_commands.specs.Output.{AddsBegun, AddsNone, StopsWithin, BreaksOff, Takes, TakesNone, WritesBegun, WritesWhole, held_in};
ghost use Rattle.gix_lines.specs.Output.{Grows};

use crate::chosen::Chooser;
use gix_hash::ObjectId;
use gix_lines::write_bytes;
use gix_revwalk::Info;
use gix_words::{Fault, Form};
use std::alloc::{AllocError, Global};
use std::io::Write;

/// How many bytes are buffered before they are written.
const MANY: usize = 1 << 16;

/// Where the commits that are written go: lines are buffered, and written when they are many; for a list with the last first the ids are
/// held; for their number nothing is.
#[derive(Drop)]
struct Sink {
    form: Form,
    lines: Vec<u8>,
    ids: Vec<ObjectId>,
    number: usize,
}

/// Draws a walk to its end or to its first fault, and writes what is chosen of the commits that it gives: the id of each, one a line, or
/// these lines with the last first, or how many there are. Where there is a limit, it draws no answer behind that many.
///
/// # Errors
/// The fault of the walk: the lines of the commits before it are written, and nothing if the last is to come first or if they are counted.
/// `Write` where the writer failed: a beginning is written. `Memory`.
pub fn write_commits<I, E, W>(
    alloc: Global,
    mut walk: I,
    mut chooser: Chooser<'_>,
    writer: &mut W,
) -> Result<(), Fault>
where
    I: Iterator<Item = Result<Info, E>> + Drop,
    E: Into<Fault> + Drop,
    W: Write,
    requires can { I.can_next walk }
    requires finite { IsFinite (I.remaining walk) }
    requires fresh { chooser ≡ fresh_choosing chooser.objects chooser.stored chooser.rows chooser.shown }
    ensures { WritesBegun I.next_gives E.converts (HasTextIn chooser.entry) (kept_in chooser.entry.objects chooser.entry.shown)
        chooser.entry.shown.limit (line_in chooser.entry.objects chooser.entry.shown) chooser.entry.shown.form walk (W.contents writer.old)
        result (W.contents writer.new) }
{
    let form = chooser.form();
    let mut sink = Sink {
        form,
        lines: Vec::new(alloc),
        ids: Vec::new(alloc),
        number: 0,
    };
    let drawn = draw(&mut walk, &mut chooser, &mut sink, writer);
    match form {
        Form::Lines => {
            write_out(&mut sink.lines, writer)?;
            drawn
        }
        Form::Count => {
            drawn?;
            write_number(alloc, sink.number, writer)
        }
        Form::Reverse => {
            drawn?;
            write_reversed(alloc, &chooser, sink.ids, writer)
        }
    }
}

/// Writes a number, in a line.
///
/// # Errors
/// `Memory`: nothing is written. `Write` where the writer failed: a beginning of the line is.
fn write_number<W: Write>(alloc: Global, number: usize, writer: &mut W) -> Result<(), Fault>
    ensures { WritesWhole (W.contents writer.old) (digits 10 false number ++ 10 ∷ []) result (W.contents writer.new) }
{
    let mut line = number_line(alloc, number)?;
    write_out(&mut line, writer)
}

/// A number, and a newline.
fn number_line(alloc: Global, number: usize) -> Result<Vec<u8>, AllocError>
    ensures { IfOk result (λ line. line.items ≡ digits 10 false number ++ 10 ∷ []) }
{
    let line = format!(in alloc; "{number}\n")?;
    line.as_bytes().to_vec(alloc)
}

/// Writes the lines of these commits, the last first.
///
/// # Errors
/// `Memory`: nothing is written. `Write` where the writer failed: a beginning of the lines is.
fn write_reversed<W: Write>(
    alloc: Global,
    chooser: &Chooser<'_>,
    mut ids: Vec<ObjectId>,
    writer: &mut W,
) -> Result<(), Fault>
    ensures { WritesWhole (W.contents writer.old) (flat_map (line_in chooser.now.objects chooser.now.shown) (reverse ids.items)) result
        (W.contents writer.new) }
{
    ids.reverse();
    let mut lines = lines_of(alloc, chooser, ids.as_slice())?;
    write_out(&mut lines, writer)
}

/// The lines of these commits.
///
/// # Errors
/// `Memory`.
fn lines_of(alloc: Global, chooser: &Chooser<'_>, ids: &[ObjectId]) -> Result<Vec<u8>, Fault>
    ensures ok { IfOk result (λ lines. lines.items ≡ flat_map (line_in chooser.now.objects chooser.now.shown) ids.now) }
    ensures err { IfErr result (λ e. e ≡ Fault.Memory) }
{
    let mut lines = Vec::new(alloc);
    for id in ids {
        chooser.add_line(&mut lines, id)?;
    }
    Ok(lines)
}

/// Writes the buffered lines, and flushes the writer.
///
/// # Errors
/// `Write` where the writer failed: a beginning of the lines is written.
pub fn write_out<W: Write>(lines: &mut Vec<u8>, writer: &mut W) -> Result<(), Fault>
    ensures ok { OnOk result (Appends (W.contents writer.old) (W.contents writer.new) lines.old.items) }
    ensures fault { IfErr result (BreaksOff (W.contents writer.old) (W.contents writer.new) lines.old.items) }
{
    write_lines(lines, writer)?;
    writer.flush().map_err(|_| Fault::Write)
}

/// Adds what is chosen of the commits that a walk gives, up to its first fault. Behind as many as the limit says nothing is drawn.
fn draw<I, E, W>(
    walk: &mut I,
    chooser: &mut Chooser<'_>,
    sink: &mut Sink,
    writer: &mut W,
) -> Result<(), Fault>
where
    I: Iterator<Item = Result<Info, E>> + Drop,
    E: Into<Fault> + Drop,
    W: Write,
    requires can { I.can_next walk.old }
    requires finite { IsFinite (I.remaining walk.old) }
    requires fresh { chooser.old ≡ fresh_choosing chooser.old.objects chooser.old.stored chooser.old.rows chooser.old.shown }
    ensures adds { AddsBegun I.next_gives E.converts (HasTextIn chooser.old) (kept_in chooser.old.objects chooser.old.shown)
        chooser.old.shown.limit (line_in chooser.old.objects chooser.old.shown) sink.old.form walk.old (W.contents writer.old) (held_in sink.old)
        result (W.contents writer.new) (held_in sink.new) }
    ensures lines { OnOk result (line_in chooser.new.objects chooser.new.shown ≡ line_in chooser.old.objects chooser.old.shown) }
    ensures within { OnOk result (StopsWithin I.next_gives (kept_in chooser.old.objects chooser.old.shown) chooser.old.shown.limit walk.old
        walk.new) }
{
    'draws: while !chooser.is_done() {
        let Some(answer) = walk.next() else {
            return Ok(());
        };
        let info = match answer {
            Ok(info) => info,
            Err(fault) => return Err(fault.into()),
        };
        if chooser.takes(&info.id)? {
            sink.take(info.id, chooser, writer)?;
        }
    }
    Ok(())
}

impl Sink {
    /// Adds a commit. After a failure of the writer no line is buffered.
    fn take<W: Write>(
        &mut self,
        id: ObjectId,
        chooser: &Chooser<'_>,
        writer: &mut W,
    ) -> Result<(), Fault>
        ensures form { self.new.form ≡ self.old.form }
        ensures ok { OnOk result (Takes (line_in chooser.now.objects chooser.now.shown) self.old.form (W.contents writer.old)
            (held_in self.old) (id ∷ []) (W.contents writer.new) (held_in self.new)) }
        ensures err { IfErr result (TakesNone self.old.form (W.contents writer.old) (held_in self.old) (W.contents writer.new)
            (held_in self.new)) }
    {
        match self.form {
            Form::Lines => add_line(&mut self.lines, chooser, writer, &id),
            Form::Count => {
                // No memory holds more commits than there are numbers.
                let Some(number) = self.number.checked_add(1) else {
                    return Err(Fault::Memory);
                };
                self.number = number;
                Ok(())
            }
            Form::Reverse => {
                self.ids.push(id).map_err(AllocError::from)?;
                Ok(())
            }
        }
    }
}

/// Adds a line to the buffered lines. After a failure of the writer none is buffered.
fn add_line<W: Write>(
    lines: &mut Vec<u8>,
    chooser: &Chooser<'_>,
    writer: &mut W,
    id: &ObjectId,
) -> Result<(), Fault>
    ensures ok { OnOk result (Grows (W.contents writer.old) lines.old.items (W.contents writer.new) lines.new.items
        (line_in chooser.now.objects chooser.now.shown id.now)) }
    ensures err { IfErr result (AddsNone (W.contents writer.old) lines.old.items (W.contents writer.new) lines.new.items) }
{
    make_room(lines, writer)?;
    chooser.add_line(lines, id)
}

/// Writes the buffered lines, where they are many. After a failure none is buffered.
fn make_room<W: Write>(lines: &mut Vec<u8>, writer: &mut W) -> Result<(), Fault>
    ensures ok { OnOk result (Grows (W.contents writer.old) lines.old.items (W.contents writer.new) lines.new.items []) }
    ensures fault { IfErr result (λ e. BreaksOff (W.contents writer.old) (W.contents writer.new) lines.old.items e
        × (lines.new.items ≡ [])) }
{
    if lines.len() < MANY {
        return Ok(());
    }
    write_lines(lines, writer)
}

/// Writes the buffered lines. After a failure too, none is buffered.
fn write_lines<W: Write>(lines: &mut Vec<u8>, writer: &mut W) -> Result<(), Fault>
    ensures ok { OnOk result (Appends (W.contents writer.old) (W.contents writer.new) lines.old.items) }
    ensures fault { IfErr result (BreaksOff (W.contents writer.old) (W.contents writer.new) lines.old.items) }
    ensures empty { lines.new.items ≡ [] }
{
    let written = write_bytes(lines.as_slice(), writer);
    lines.clear();
    Ok(written?)
}
