//! The lines of a question.
use gix_options::{Name, Question};
use gix_output::{JsonLines, Shape};
use std::alloc::Global;
use std::io::{self, Write};

/// A writer that takes the lines of a question, and writes them as they are, or as JSON.
pub(crate) enum Lines<W: Drop> {
    /// As they are.
    Plain(W),
    /// As JSON.
    Json(JsonLines<W>),
}

impl<W: Drop> Drop for Lines<W> {
    fn drop(self) {
        match self {
            Lines::Plain(_) => {}
            Lines::Json(_) => {}
        }
    }
}

impl<W: Write + Drop> Lines<W> {
    /// The writer of a question's lines. A short answer becomes JSON before it is written here.
    pub fn new(alloc: Global, writer: W, question: &Question) -> Lines<W> {
        if !question.options.as_json || !question.name.takes_limit() {
            return Lines::Plain(writer);
        }
        let (shape, end) = match question.name {
            Name::Files => (Shape::Entry, 0),
            _ if question.options.counts => (Shape::Count, b'\n'),
            _ => (Shape::Commit, 0),
        };
        Lines::Json(JsonLines::new(alloc, writer, shape, end))
    }

    /// Whether memory ran out for a line.
    pub fn ran_out(&self) -> bool {
        match self {
            Lines::Plain(_) => false,
            Lines::Json(lines) => lines.ran_out,
        }
    }
}

impl<W: Write + Drop> Write for Lines<W> {
    fn write(&mut self, bytes: &[u8]) -> io::Result<usize> {
        match self {
            Lines::Plain(writer) => writer.write(bytes),
            Lines::Json(lines) => lines.write(bytes),
        }
    }

    fn flush(&mut self) -> io::Result<()> {
        match self {
            Lines::Plain(writer) => writer.flush(),
            Lines::Json(lines) => lines.flush(),
        }
    }
}
