use super::*;
use std::io;
use std::test::Fail;

// Gives one byte at each read and never ends.
#[derive(Drop)]
struct Endless {
    reads: u64,
}

impl Read for Endless {
    fn read(&mut self, buf: &mut [u8]) -> io::Result<usize> {
        self.reads = self.reads.saturating_add(1);
        match buf.first_mut() {
            Some(byte) => {
                *byte = b'x';
                Ok(1)
            }
            None => Ok(0),
        }
    }
}

#[test]
fn asks_so_often_at_most(rt: HostRuntime) -> Result<(), Fail> {
    for most in [0, 1, 7] {
        let mut reader = Endless { reads: 0 };
        let input = read_to_end(rt.alloc(), &mut reader, most);
        assert!(rt; matches!(input, Err(Error::Read)));
        assert_eq!(rt; reader.reads, u64::from(most));
    }
    Ok(())
}

#[test]
fn the_last_answer_may_be_the_end(rt: HostRuntime) -> Result<(), Fail> {
    let mut reader = b"abc".as_slice();
    let input = read_to_end(rt.alloc(), &mut reader, 2)?;
    assert_eq!(rt; input.as_slice(), b"abc".as_slice());
    let mut reader = b"abc".as_slice();
    let short = read_to_end(rt.alloc(), &mut reader, 1);
    assert!(rt; matches!(short, Err(Error::Read)));
    Ok(())
}
