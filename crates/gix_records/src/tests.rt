use super::*;
use gix_names::is_named;
use gix_object::Kind;
use gix_object::find::Find;
use std::test::Fail;

/// Two records of one id, and the record of another one.
const RECORDS: &[u8] = b"\
blob 1111111111111111111111111111111111111111 3\nold\n\
tag 2222222222222222222222222222222222222222222222222222222222222222 0\n\n\
tree 1111111111111111111111111111111111111111 4\nn\new\n";

/// Two objects under their own ids.
const NAMED: &[u8] = b"\
blob c57eff55ebc0c54973903af5f72bac72762cf4f4 12\nHello World!\n\
tree 6ef19b41225c5369f1c104d45d8d85efa9b057b53b14b4b9b939dd74decc5321 0\n\n";

/// The empty tree, and an empty blob under its id.
const MISNAMED: &[u8] = b"\
tree 4b825dc642cb6eb9a060e54bf8d69288fbee4904 0\n\n\
blob 4b825dc642cb6eb9a060e54bf8d69288fbee4904 0\n\n";

fn check_store<F: Find>(alloc: Global, store: &F, len: usize) -> Result<(), Fail> {
    let mut buf = Vec::new(alloc);
    let one = store.find_into(&ObjectId::Sha1([0x11; 20]), &mut buf);
    if len == 2 && one == Ok(Some(Kind::Tree)) && buf.as_slice() == b"n\new".as_slice() {
        return Ok(());
    }
    Err(Fail::new(format_args!("{one:?} with {buf:?}")))
}

#[test]
fn the_later_of_one_id_counts(rt: HostRuntime) -> Result<(), Fail> {
    let alloc = rt.alloc();
    let store = read(alloc, Keys::KNOWN, &mut { RECORDS })?;
    check_store(alloc, &store, store.len())
}

#[test]
fn bytes_are_read_as_a_reader_is(rt: HostRuntime) -> Result<(), Fail> {
    let alloc = rt.alloc();
    let mut input = Vec::new(alloc);
    input.extend_from_slice(RECORDS)?;
    let store = records_of(alloc, Keys::KNOWN, input)?;
    check_store(alloc, &store, store.len())
}

#[test]
fn bytes_that_are_lent_are_read_as_a_reader_is(rt: HostRuntime) -> Result<(), Fail> {
    let alloc = rt.alloc();
    let store = records_in(alloc, Keys::KNOWN, RECORDS)?;
    check_store(alloc, &store, store.len())?;
    assert!(rt; !store.is_empty());
    Ok(())
}

#[test]
fn objects_under_their_own_ids_are_read(rt: HostRuntime) -> Result<(), Fail> {
    let store = named_records_in(rt.alloc(), Keys::KNOWN, NAMED)?;
    assert_eq!(rt; store.len(), 2);
    Ok(())
}

#[test]
fn the_first_object_under_another_id_is_named(rt: HostRuntime) -> Result<(), Fail> {
    let Err(error) = named_records_in(rt.alloc(), Keys::KNOWN, MISNAMED) else {
        return Err(Fail::new(format_args!("records were taken")));
    };
    let text = "record 2: 4b825dc642cb6eb9a060e54bf8d69288fbee4904 isn't the hash of its bytes";
    let printed = error.to_string(rt.alloc())?;
    assert_eq!(rt; printed.as_str(), text);
    Ok(())
}

#[test]
fn objects_that_were_compared_are_found(rt: HostRuntime) -> Result<(), Fail> {
    let alloc = rt.alloc();
    let Ok(id) = ObjectId::from_hex(b"c57eff55ebc0c54973903af5f72bac72762cf4f4") else {
        return Err(Fail::new(format_args!("no id")));
    };
    let bytes = b"Hello World!".as_slice();
    let mut objects = NamedObjects::new(alloc, Keys::KNOWN);
    assert!(rt; objects.is_empty());
    if is_named(&id, Kind::Blob, bytes) {
        objects.insert(id, Kind::Blob, bytes)?;
    }
    assert!(rt; objects.contains(&id));
    let store = objects.store();
    let mut buf = Vec::new(alloc);
    assert_eq!(rt; store.find_into(&id, &mut buf), Ok(Some(Kind::Blob)));
    assert_eq!(rt; buf.as_slice(), bytes);
    assert_eq!(rt; store.len(), 1);
    Ok(())
}

#[test]
fn the_first_bad_record_is_named(rt: HostRuntime) -> Result<(), Fail> {
    for (cut, number) in [(48, 1), (51, 1), (53, 2), (123, 2), (125, 3), (176, 3)] {
        let read = read(
            rt.alloc(),
            Keys::KNOWN,
            &mut RECORDS.get(..cut).unwrap_or_default(),
        );
        let Err(error) = read else {
            return Err(Fail::new(format_args!("{cut} bytes were read")));
        };
        assert_eq!(rt; error, Error::Record(number));
    }
    Ok(())
}

#[test]
fn errors_have_a_text(rt: HostRuntime) -> Result<(), Fail> {
    for (error, text) in [
        (Error::Read, "read failed"),
        (Error::Record(2), "bad record 2"),
        (Error::Memory, "out of memory"),
    ] {
        let printed = error.to_string(rt.alloc())?;
        assert_eq!(rt; printed.as_str(), text);
    }
    Ok(())
}
