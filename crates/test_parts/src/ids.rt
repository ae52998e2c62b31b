//! Texts of ids.
use gix_parts::hash::{HexError, Kind, ObjectId};
use std::alloc::{AllocError, Global};
use std::test::Fail;

/// What a text of this many digits is read as: of digits alone, with no digit in front, and with none at its end.
fn read(alloc: Global, digits: usize) -> Result<[Result<Kind, HexError>; 3], AllocError> {
    let mut text = vec![in alloc; b'1'; digits]?;
    let whole = ObjectId::from_hex(&text);
    if let Some(first) = text.first_mut() {
        *first = b'g';
    }
    let front = ObjectId::from_hex(&text);
    if let Some(first) = text.first_mut() {
        *first = b'1';
    }
    if let Some(last) = text.last_mut() {
        *last = b'/';
    }
    let end = ObjectId::from_hex(&text);
    Ok([whole, front, end].map(|read| read.map(|id| id.kind())))
}

#[test]
fn texts_of_ids(rt: HostRuntime) -> Result<(), Fail> {
    let refused = [Err(HexError::Length); 3];
    let sha1 = [Ok(Kind::Sha1), Err(HexError::Digit), Err(HexError::Digit)];
    let sha256 = [Ok(Kind::Sha256), Err(HexError::Digit), Err(HexError::Digit)];
    assert_eq!(rt; read(rt.alloc(), 39)?, refused);
    assert_eq!(rt; read(rt.alloc(), 40)?, sha1);
    assert_eq!(rt; read(rt.alloc(), 41)?, refused);
    assert_eq!(rt; read(rt.alloc(), 63)?, refused);
    assert_eq!(rt; read(rt.alloc(), 64)?, sha256);
    assert_eq!(rt; read(rt.alloc(), 65)?, refused);
    Ok(())
}

#[test]
fn ids_print_in_lower_case(rt: HostRuntime) -> Result<(), Fail> {
    let id = ObjectId::from_hex(b"4B825DC642CB6EB9A060E54BF8D69288FBEE4904")?;
    let text = format!(in rt.alloc(); "{id}")?;
    assert_eq!(rt; text.as_str(), "4b825dc642cb6eb9a060e54bf8d69288fbee4904");
    assert_eq!(rt; ObjectId::from_hex(text.as_str().as_bytes()), Ok(id));
    assert_eq!(rt;
        ObjectId::from_digits(text.as_str().as_bytes(), Kind::Sha1),
        Some(id)
    );
    assert_eq!(rt; ObjectId::from_bytes(id.as_bytes()), Some(id));
    assert_eq!(rt; ObjectId::from_bytes(b"short"), None);
    let long = ObjectId::Sha256([0xab; 32]);
    let text = format!(in rt.alloc(); "{long}")?;
    assert_eq!(rt; ObjectId::from_hex(text.as_str().as_bytes()), Ok(long));
    assert_eq!(rt;
        ObjectId::from_digits(text.as_str().as_bytes(), Kind::Sha256),
        Some(long)
    );
    assert_eq!(rt;
        ObjectId::from_digits(text.as_str().as_bytes(), Kind::Sha1),
        None
    );
    assert!(rt; id < long);
    Ok(())
}
