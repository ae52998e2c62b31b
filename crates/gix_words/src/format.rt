//! What a line says of a commit.
ghost use Rattle.std.specs.Prelude.{◌≡◌, ◌≢◌, ◌≤◌, [], length, codes, is_some, true, MatchBool};
ghost use Rattle.gix_statement.specs.Formats.{field, is_format};
ghost use Rattle.gix_statement.specs.WholeStatement.{says_more};
ghost use Rattle.gix_words.specs.Formats.{format_bytes, format_of, no_format, packed};

/// What a line says of a commit: bytes, and in place of each field its value. Behind these bytes there are bytes 0.
#[derive(Clone, Copy)]
pub struct Format {
    text: [u8; 128],
    len: usize,
}

impl Format {
    /// It says nothing.
    pub fn none() -> Format
        ensures { result ≡ no_format }
    {
        Format {
            text: [0; 128],
            len: 0,
        }
    }

    /// A space and the commit's subject.
    pub fn subject() -> Format
        ensures { result ≡ packed (codes " %s") }
    {
        Format::of(b" %s")
    }

    /// The format that these bytes are, if it is allowed: each `%` begins a field, and there are 128 bytes at most.
    pub fn read(text: &[u8]) -> Option<Format>
        ensures { result ≡ format_of text.now }
    {
        if !is_format(text) || text.len() > 128 {
            return None;
        }
        Some(Format::of(text))
    }

    /// These bytes.
    fn of(text: &[u8]) -> Format
        requires few { length text.now ≤ 128 }
        ensures { result ≡ packed text.now }
    {
        let mut bytes = [0; 128];
        bytes[..text.len()].copy_from_slice(text);
        Format {
            text: bytes,
            len: text.len(),
        }
    }

    /// Its bytes.
    pub fn as_bytes(&self) -> &[u8]
        ensures { result.now ≡ format_bytes self.now }
    {
        &self.text[..self.len.min(128)]
    }

    /// Whether it says nothing.
    pub fn is_empty(&self) -> bool
        ensures { MatchBool result (format_bytes self.now ≡ []) (says_more (format_bytes self.now) ≡ true) }
    {
        self.len == 0
    }

    /// Whether it is [`Format::none`].
    pub fn is_none(&self) -> bool
        ensures { MatchBool result (self.now ≡ no_format) (self.now ≢ no_format) }
    {
        self.len == 0 && self.text == [0; 128]
    }
}

/// Whether each `%` in it begins a field.
fn is_format(text: &[u8]) -> bool
    ensures { result ≡ is_format 0 text.now }
{
    let mut before = 0;
    for byte in text {
        let byte = *byte;
        if before == 0 {
            before = if byte == b'%' { b'%' } else { 0 };
        } else if before == b'%' && (byte == b'a' || byte == b'c') {
            before = byte;
        } else if is_field(before, byte) {
            before = 0;
        } else {
            return false;
        }
    }
    before == 0
}

/// Whether these bytes are the name of a field.
fn is_field(before: u8, letter: u8) -> bool
    ensures { result ≡ is_some (field before letter) }
{
    match before {
        b'%' => matches!(letter, b'%' | b'n' | b'H' | b'h' | b'T' | b'P' | b's'),
        b'a' => matches!(letter, b'n' | b'e'),
        b'c' => matches!(letter, b't' | b'i'),
        _ => false,
    }
}
