//! What follows from the definitions alone.
pub use gix_commitgraph::laws::{spellings_are_read, spellings_differ};
pub use gix_names::laws::names_agree;
pub use gix_object::laws::{faults_end, reads_texts};
pub use gix_records::laws::named_records_agree;
