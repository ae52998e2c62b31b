//! What follows from the definitions alone.

ghost use Rattle.gix_graph_verify.specs.Verified.{AllAgree};

/// Where no file has passed before, all rows agree with objects that are what their ids say: the premise of the laws of walks with rows.
pub fn all_agree()
    ensures { AllAgree }
{}
