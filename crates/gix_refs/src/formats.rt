//! What a config says of a repository's format.
use crate::config::Keys;
use crate::fault::ConfigFault;
use gix_hash::Kind;
use std::alloc::{AllocError, Global};
use std::str;

/// What a config says of its repository.
#[derive(Clone, Copy, PartialEq, Eq, Debug)]
pub struct Settings {
    /// The kind of its ids.
    pub kind: Kind,
    /// Whether a commit-graph may be used: false only where `core.commitGraph` says so, or is no yes or no.
    pub has_commit_graph: bool,
    /// Whether it is a partial clone, which lacks objects that another repository has.
    pub is_partial: bool,
}

/// What was found up to a key.
struct Found {
    settings: Settings,
    /// The last version of the format.
    version: Option<String>,
    /// The last kind of the ids that an extension says.
    kind: Option<Kind>,
    /// Whether an extension says that the clone is partial.
    is_partial: bool,
    /// The fault of the first extension that version 0 can't have.
    with_zero: Option<ConfigFault>,
    /// The fault of the first extension that version 1 can't have.
    with_one: Option<ConfigFault>,
}

/// Reads the config of a repository. Of its keys these count: `core.repositoryformatversion`, `core.commitGraph`, those of `extensions`,
/// and `promisor` of each remote. Other files that it includes aren't read.
///
/// # Errors
///
/// `Line` where the text is no config, `ObjectFormat` where it says a kind of ids that isn't known, and then the fault of the format, as in
/// git: `FormatVersion`, `OnlyVersionOne` in version 0, `Extension`, `Reftable` and `RefStorage` in version 1. A config without a version has
/// none of these. `Memory`.
pub fn settings_of(alloc: Global, config: &[u8]) -> Result<Settings, ConfigFault> {
    let mut keys = Keys::new(alloc, config);
    let mut found = Found::none();
    match read_all(alloc, &mut keys, &mut found) {
        Ok(()) => found.settings(),
        Err(fault) => Err(fault),
    }
}

/// Adds all keys.
fn read_all(alloc: Global, keys: &mut Keys<'_>, found: &mut Found) -> Result<(), ConfigFault> {
    for _ in 0..u64::MAX {
        match keys.next()? {
            Some(true) => found.add(alloc, keys.name.as_slice(), Some(keys.value.as_slice()))?,
            Some(false) => found.add(alloc, keys.name.as_slice(), None)?,
            None => break,
        }
    }
    Ok(())
}

/// A call drops what was found.
impl Drop for Found {
    fn drop(self) {
        let Found {
            settings: _,
            version: _,
            kind: _,
            is_partial: _,
            with_zero: _,
            with_one: _,
        } = self;
    }
}

impl Found {
    /// Before the first key.
    fn none() -> Found {
        Found {
            settings: Settings {
                kind: Kind::Sha1,
                has_commit_graph: true,
                is_partial: false,
            },
            version: None,
            kind: None,
            is_partial: false,
            with_zero: None,
            with_one: None,
        }
    }

    /// Adds a key.
    fn add(&mut self, alloc: Global, name: &[u8], value: Option<&[u8]>) -> Result<(), ConfigFault> {
        if name == b"core.repositoryformatversion".as_slice() {
            self.version = Some(text_of(alloc, value.unwrap_or_default())?);
        } else if name == b"core.commitgraph".as_slice() {
            self.settings.has_commit_graph = is_yes(value) == Some(true);
        } else if let Some(extension) = name.strip_prefix(b"extensions.") {
            self.add_extension(alloc, extension, value.unwrap_or_default())?;
        } else if name.starts_with(b"remote.") && name.ends_with(b".promisor") {
            if is_yes(value) == Some(true) {
                self.settings.is_partial = true;
            }
        }
        Ok(())
    }

    /// Adds an extension.
    fn add_extension(
        &mut self,
        alloc: Global,
        name: &[u8],
        value: &[u8],
    ) -> Result<(), ConfigFault> {
        match word_of(name) {
            "noop" | "preciousobjects" | "worktreeconfig" => Ok(()),
            "compatobjectformat" | "relativeworktrees" => Ok(()),
            "partialclone" => {
                self.is_partial = true;
                Ok(())
            }
            "noop-v1" => self.only_with_one(alloc, name),
            "objectformat" => self.add_object_format(alloc, name, value),
            "refstorage" => self.add_ref_storage(alloc, name, value),
            _ => {
                self.not_with_one(ConfigFault::Extension(text_of(alloc, name)?));
                Ok(())
            }
        }
    }

    /// Adds the extension that says the kind of the ids.
    fn add_object_format(
        &mut self,
        alloc: Global,
        name: &[u8],
        value: &[u8],
    ) -> Result<(), ConfigFault> {
        self.kind = Some(match word_of(value) {
            "sha1" => Kind::Sha1,
            "sha256" => Kind::Sha256,
            _ => return Err(ConfigFault::ObjectFormat(text_of(alloc, value)?)),
        });
        self.only_with_one(alloc, name)
    }

    /// Adds the extension that says how the refs are stored.
    fn add_ref_storage(
        &mut self,
        alloc: Global,
        name: &[u8],
        value: &[u8],
    ) -> Result<(), ConfigFault> {
        match word_of(value) {
            "files" => {}
            "reftable" => self.not_with_one(ConfigFault::Reftable),
            _ => self.not_with_one(ConfigFault::RefStorage(text_of(alloc, value)?)),
        }
        self.only_with_one(alloc, name)
    }

    /// Keeps that there is an extension which only version 1 can have.
    fn only_with_one(&mut self, alloc: Global, name: &[u8]) -> Result<(), ConfigFault> {
        if self.with_zero.is_none() {
            self.with_zero = Some(ConfigFault::OnlyVersionOne(text_of(alloc, name)?));
        }
        Ok(())
    }

    /// Keeps the fault of an extension that version 1 can't have.
    fn not_with_one(&mut self, fault: ConfigFault) {
        if self.with_one.is_none() {
            self.with_one = Some(fault);
        }
    }

    /// The settings, unless the format isn't known. Its fault is moved out.
    fn settings(&mut self) -> Result<Settings, ConfigFault> {
        let Some(version) = self.version.take() else {
            return Ok(self.settings);
        };
        let fault = match version.as_str() {
            "0" => self.with_zero.take(),
            "1" => self.with_one.take(),
            _ => Some(ConfigFault::FormatVersion(version)),
        };
        match fault {
            Some(fault) => Err(fault),
            None => Ok(Settings {
                kind: self.kind.unwrap_or(self.settings.kind),
                has_commit_graph: self.settings.has_commit_graph,
                is_partial: self.is_partial || self.settings.is_partial,
            }),
        }
    }
}

/// What a value says of yes and no, and None where it is neither. A key without a value says yes.
fn is_yes(value: Option<&[u8]>) -> Option<bool> {
    let Some(value) = value else {
        return Some(true);
    };
    for word in ["true", "yes", "on", "1"] {
        if value.eq_ignore_ascii_case(word.as_bytes()) {
            return Some(true);
        }
    }
    for word in ["false", "no", "off", "0", ""] {
        if value.eq_ignore_ascii_case(word.as_bytes()) {
            return Some(false);
        }
    }
    None
}

/// Bytes as a word, which is empty where they are no text.
fn word_of(bytes: &[u8]) -> &str {
    str::from_utf8(bytes).unwrap_or_default()
}

/// Bytes as text for a fault, up to the first that is none.
fn text_of(alloc: Global, bytes: &[u8]) -> Result<String, AllocError> {
    match str::from_utf8(bytes) {
        Ok(text) => String::from_str(alloc, text),
        Err(_) => String::from_str(alloc, "?"),
    }
}
