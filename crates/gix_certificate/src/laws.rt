//! What follows from the definitions alone.

ghost use Rattle.gix_certificate.specs.Written.{OneTextSaysOne};

/// Two certificates with one text say the same. So what is read of a text says what the certificate says that was written as this text.
pub fn one_text_says_one()
    ensures { OneTextSaysOne }
{}
