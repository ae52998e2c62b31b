//! What follows from the definitions alone.

ghost use Rattle.gix_names.specs.Named.{NamesAgree};

/// Objects of one id are one object, of one kind and with the same bytes; or what is hashed of them are two different texts with one
/// hash. So two stores whose objects are named by their hashes hold the same object under an id, unless such texts are at hand. It holds
/// of ids of 20 bytes and of 32. The objects are smaller than 2^64 bytes, as each slice is.
pub fn names_agree()
    ensures { NamesAgree }
{}
