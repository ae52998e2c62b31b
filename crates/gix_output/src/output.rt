//! Standard output.
use crate::terminal::Quoting;
use std::alloc::Global;
use std::io::{self, ErrorKind, Write};

/// What standard output is.
enum Target<W: Drop> {
    /// A file or a pipe.
    File(W),
    /// A terminal.
    Terminal(Quoting<W>),
}

impl<W: Drop> Drop for Target<W> {
    fn drop(self) {
        match self {
            Target::File(_) => {}
            Target::Terminal(_) => {}
        }
    }
}

/// Standard output, which knows whether its reader has gone.
pub struct Output<W: Drop> {
    /// What is written to.
    target: Target<W>,
    /// Whether nobody reads any more what is written, as under `| head -1`.
    pub is_closed: bool,
}

impl<W: Drop> Drop for Output<W> {
    fn drop(self) {
        let Output {
            target: _,
            is_closed: _,
        } = self;
    }
}

impl<W: Write + Drop> Output<W> {
    /// The writer, whose reader hasn't gone yet. To a terminal nothing is written that it would take as a command.
    pub fn new(alloc: Global, writer: W, is_terminal: bool) -> Output<W> {
        let target = if is_terminal {
            Target::Terminal(Quoting::new(alloc, writer))
        } else {
            Target::File(writer)
        };
        Output {
            target,
            is_closed: false,
        }
    }
}

impl<W: Write + Drop> Write for Output<W> {
    fn write(&mut self, bytes: &[u8]) -> io::Result<usize> {
        let written = match &mut self.target {
            Target::File(writer) => writer.write(bytes),
            Target::Terminal(writer) => writer.write(bytes),
        };
        if let Err(error) = &written {
            if error.kind() == ErrorKind::BrokenPipe {
                self.is_closed = true;
            }
        }
        written
    }

    fn flush(&mut self) -> io::Result<()> {
        match &mut self.target {
            Target::File(writer) => writer.flush(),
            Target::Terminal(writer) => writer.flush(),
        }
    }
}
