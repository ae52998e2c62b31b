//! What follows for files that have passed, as laws: functions that do nothing, and whose contracts are proved.

ghost use Rattle.gix_checked_graph.specs.Checked.{CheckedAnswers, CheckedFiles};
ghost use Rattle.gix_checked_graph.specs.Passed.{PassedAnswers};

/// Files in which `verify` found no difference are as an answer by pages needs, if those that had passed were: ids rise in each, no two
/// rows have one id, generations fall, and each row's id is the hash of a commit that says the same.
///
/// These are one file or a chain, of which the lowest may have passed before. The objects may be any that have those that the files were
/// compared with, now and before, unless two different objects have one id.
pub fn checked_files()
    ensures { CheckedFiles }
{}

/// An answer by pages of such files is right of objects alone, without any row: of all objects that have those that the run has read and
/// those that the check has read, unless two different objects have one id.
pub fn checked_answers()
    ensures { CheckedAnswers }
{
    gix_statement::laws::carries();
}

/// An answer by pages of files, each of which has passed alone, perhaps in another run or above other files, is right of objects alone,
/// without any row, if the pages show that each names those below it, as the clause `named` of `run_paged` says.
///
/// The objects are as in [`checked_answers`]. Two different ones of the files that were ever compared may not have one hash.
pub fn passed_answers()
    ensures { PassedAnswers }
{
    gix_statement::laws::carries();
}
