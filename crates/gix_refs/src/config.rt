//! The syntax of a config.
use crate::fault::ConfigFault;
use std::alloc::Global;

/// Goes through the keys of a config.
pub(crate) struct Keys<'a> {
    text: &'a [u8],
    rest: &'a [u8],
    /// Whether a byte was asked for at the end.
    is_at_end: bool,
    /// The key's section, its subsection where there is one, and the key, with a dot between them. Section and key are in lower case.
    pub name: Vec<u8>,
    /// How many bytes of the name are the section's, with the dot.
    stem: usize,
    /// The key's value.
    pub value: Vec<u8>,
}

impl<'a> Drop for Keys<'a> {
    fn drop(self) {
        let Keys {
            text: _,
            rest: _,
            is_at_end: _,
            name: _,
            stem: _,
            value: _,
        } = self;
    }
}

impl<'a> Keys<'a> {
    /// Before the first key of a config.
    pub fn new(alloc: Global, text: &'a [u8]) -> Keys<'a> {
        let rest = match text {
            [0xef, 0xbb, 0xbf, rest @ ..] => rest,
            _ => text,
        };
        Keys {
            text,
            rest,
            is_at_end: false,
            name: Vec::new(alloc),
            stem: 0,
            value: Vec::new(alloc),
        }
    }

    /// Goes to the next key. Whether it has a value, and None where there is no further key.
    ///
    /// # Errors
    ///
    /// `Line` where the text is no config. `Memory`.
    pub fn next(&mut self) -> Result<Option<bool>, ConfigFault> {
        let mut is_comment = false;
        for _ in 0..u64::MAX {
            let byte = self.take();
            if byte == b'\n' {
                if self.is_at_end {
                    return Ok(None);
                }
                is_comment = false;
            } else if byte == b'#' || byte == b';' {
                is_comment = true;
            } else if !is_comment && byte == b'[' {
                self.read_section()?;
            } else if !is_comment && !is_space(byte) {
                return Ok(Some(self.read_key(byte)?));
            }
        }
        Err(self.bad_line())
    }

    /// Takes the next byte, which is a newline at the end of the text. Before a newline a carriage return is left out.
    fn take(&mut self) -> u8 {
        match self.rest {
            [b'\r', b'\n', rest @ ..] => {
                self.rest = rest;
                b'\n'
            }
            [byte, rest @ ..] => {
                self.rest = rest;
                *byte
            }
            [] => {
                self.is_at_end = true;
                b'\n'
            }
        }
    }

    /// The fault of the line of the byte that was taken last.
    fn bad_line(&self) -> ConfigFault {
        let mut line = 1u64;
        let end = self.text.len().saturating_sub(self.rest.len());
        if let [front @ .., _] = self.text.get(..end).unwrap_or_default() {
            for byte in front {
                if *byte == b'\n' {
                    line = line.saturating_add(1);
                }
            }
        }
        ConfigFault::Line(line)
    }

    /// Reads the name of a section, behind its `[`.
    fn read_section(&mut self) -> Result<(), ConfigFault> {
        self.name.clear();
        for _ in 0..u64::MAX {
            let byte = self.take();
            if self.is_at_end {
                break;
            }
            if byte == b']' {
                return self.end_section();
            }
            if is_space(byte) {
                self.read_subsection(byte)?;
                return self.end_section();
            }
            if !is_of_key(byte) && byte != b'.' {
                break;
            }
            self.name.push(byte.to_ascii_lowercase())?;
        }
        Err(self.bad_line())
    }

    /// Keeps the name of a section.
    fn end_section(&mut self) -> Result<(), ConfigFault> {
        if self.name.is_empty() {
            return Err(self.bad_line());
        }
        self.name.push(b'.')?;
        self.stem = self.name.len();
        Ok(())
    }

    /// Reads the name of a subsection, behind the first byte of the white space before it.
    fn read_subsection(&mut self, first: u8) -> Result<(), ConfigFault> {
        let mut byte = first;
        for _ in 0..u64::MAX {
            if !is_space(byte) || byte == b'\n' {
                break;
            }
            byte = self.take();
        }
        if byte != b'"' {
            return Err(self.bad_line());
        }
        self.name.push(b'.')?;
        for _ in 0..u64::MAX {
            byte = self.take();
            if byte == b'"' {
                break;
            }
            if byte == b'\\' {
                byte = self.take();
            }
            if byte == b'\n' {
                return Err(self.bad_line());
            }
            self.name.push(byte)?;
        }
        if self.take() != b']' {
            return Err(self.bad_line());
        }
        Ok(())
    }

    /// Reads a key and its value, behind the key's first byte. Whether it has a value.
    fn read_key(&mut self, first: u8) -> Result<bool, ConfigFault> {
        if !first.is_ascii_alphabetic() {
            return Err(self.bad_line());
        }
        self.name.truncate(self.stem);
        let mut byte = first;
        for _ in 0..u64::MAX {
            self.name.push(byte.to_ascii_lowercase())?;
            byte = self.take();
            if !is_of_key(byte) {
                break;
            }
        }
        for _ in 0..u64::MAX {
            if byte != b' ' && byte != b'\t' {
                break;
            }
            byte = self.take();
        }
        match byte {
            b'\n' => Ok(false),
            b'=' => {
                self.read_value()?;
                Ok(true)
            }
            _ => Err(self.bad_line()),
        }
    }

    /// Reads a value, behind its `=`. Each byte of white space within it is a space, unless it is in quotes.
    fn read_value(&mut self) -> Result<(), ConfigFault> {
        self.value.clear();
        let mut is_quoted = false;
        let mut spaces = 0usize;
        for _ in 0..u64::MAX {
            let byte = self.take();
            if byte == b'\n' {
                return if is_quoted {
                    Err(self.bad_line())
                } else {
                    Ok(())
                };
            }
            if is_space(byte) && !is_quoted {
                if !self.value.is_empty() {
                    spaces = spaces.saturating_add(1);
                }
                continue;
            }
            if !is_quoted && (byte == b';' || byte == b'#') {
                self.skip_line();
                return Ok(());
            }
            self.push_spaces(spaces)?;
            spaces = 0;
            match byte {
                b'"' => is_quoted = !is_quoted,
                b'\\' => self.read_escaped()?,
                _ => self.value.push(byte)?,
            }
        }
        Err(self.bad_line())
    }

    /// Puts spaces behind the value, so many.
    fn push_spaces(&mut self, count: usize) -> Result<(), ConfigFault> {
        for _ in 0..count {
            self.value.push(b' ')?;
        }
        Ok(())
    }

    /// Reads what is behind a backslash of a value. A newline is left out.
    fn read_escaped(&mut self) -> Result<(), ConfigFault> {
        let byte = match self.take() {
            b'\n' => return Ok(()),
            b't' => b'\t',
            b'b' => 8,
            b'n' => b'\n',
            byte => {
                if byte != b'\\' && byte != b'"' {
                    return Err(self.bad_line());
                }
                byte
            }
        };
        self.value.push(byte)?;
        Ok(())
    }

    /// Takes the bytes up to the end of the line.
    fn skip_line(&mut self) {
        for _ in 0..u64::MAX {
            if self.take() == b'\n' {
                break;
            }
        }
    }
}

/// Whether a byte is white space.
fn is_space(byte: u8) -> bool {
    byte == b' ' || byte == b'\t' || byte == b'\n' || byte == b'\r'
}

/// Whether a byte may be in a key.
fn is_of_key(byte: u8) -> bool {
    byte.is_ascii_alphanumeric() || byte == b'-'
}
