//! How far a long reading is.
use gix_repository_commands::Watch;
use std::io::IsTerminal;
use std::rt::Clock;
use std::time::Duration;

/// Says on a terminal, from the second second on, how many objects were read. Elsewhere nothing is said.
pub(crate) struct Progress<'a> {
    rt: &'a HostRuntime,
    began: Option<Duration>,
    is_shown: bool,
}

impl<'a> Drop for Progress<'a> {
    fn drop(self) {
        let Progress {
            rt: _,
            began: _,
            is_shown: _,
        } = self;
    }
}

impl<'a> Progress<'a> {
    /// Nothing was read.
    pub fn new(rt: &'a HostRuntime) -> Progress<'a> {
        let began = if rt.stderr().is_terminal() {
            rt.monotonic().ok()
        } else {
            None
        };
        Progress {
            rt,
            began,
            is_shown: false,
        }
    }

    /// Whether it has lasted a second on a terminal.
    pub fn is_long(&self) -> bool {
        match (self.began, self.rt.monotonic()) {
            (Some(began), Ok(now)) => now.as_secs() > began.as_secs().saturating_add(1),
            _ => false,
        }
    }
}

impl Watch for Progress<'_> {
    fn show(&mut self, count: usize) {
        if self.is_long() {
            self.is_shown = true;
            let _ = eprint!(self.rt; "\rgix_walk: {count} objects read");
        }
    }

    /// Nothing more is read. The line goes.
    fn end(&mut self) {
        if self.is_shown {
            self.is_shown = false;
            let _ = eprint!(self.rt; "\r                                        \r");
        }
    }
}
