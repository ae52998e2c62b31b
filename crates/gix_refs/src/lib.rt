//! The small text files of a repository, as bytes in memory: refs, packed refs, `.git` files, the border of a shallow clone, and what
//! `config` says of the repository's format and of the upstreams of branches. No file is opened here. Each text is read as git reads it.
#![tactic(auto)]

ghost use Rattle.std.specs.Prelude.{◌≡◌, ◌+◌, ◌≤◌, ◌<◌, length};

mod border;
mod config;
mod fault;
mod formats;
mod names;
mod packed;
mod quoted;
mod single;
mod upstream;

pub use border::shallow_ids;
pub use fault::{ConfigFault, RefFault};
pub use formats::{Settings, settings_of};
pub use names::{is_name_of_any_level, is_ref_name, name_of_text, text_of_name};
pub use packed::{PackedRef, PackedRefs, packed_refs};
pub use quoted::Quoted;
pub use single::{Ref, common_dir, git_file, is_head, read_ref};
pub use upstream::upstream_of;
