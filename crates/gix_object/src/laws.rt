//! What follows from the definitions alone.

ghost use Rattle.gix_object.specs.CommitItems.{FaultsEnd};
ghost use Rattle.gix_object.specs.CommitText.{ReadsTexts};

/// Reading a commit gives exactly the texts of commits: bytes are read as a tree, parents and seconds exactly where they are a tree
/// line, a line for each parent in order, an author line, a committer line with these seconds, and any rest.
pub fn reads_texts()
    ensures { ReadsTexts }
{}

/// A fault is the last item of a commit's bytes.
pub fn faults_end()
    ensures { FaultsEnd }
{}
