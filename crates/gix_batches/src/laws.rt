//! What follows from what batches promise, as laws: functions that do nothing, and whose contracts are proved.

ghost use Rattle.gix_batches.specs.InRow.{EachIs, IsOneBatch, IsOneList};

/// Batches one behind another, each from where the one before it had no room for more, are as one batch: no commit is lost or comes twice,
/// and the order is that of the list. Each call has the same records; or other objects, as those that it read of a repository, of which no
/// two texts have one id.
pub fn are_one_batch()
    ensures { EachIs IsOneBatch }
{}

/// From one place there is one list: of two batches over the same words, one of which has ended, the other is a beginning, and if both have
/// ended they have the same commits.
pub fn are_one_list()
    ensures { EachIs IsOneList }
{}
