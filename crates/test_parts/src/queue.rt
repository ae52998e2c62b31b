//! The priority queue.
use gix_parts::queue::PriorityQueue;
use std::alloc::AllocError;
use std::process::Abort;
use std::test::Fail;

/// A value that has no equality and no order.
#[derive(Drop)]
struct Name(char);

/// Puts in names under keys. A refused insert leaves the queue as it was, and is made again.
fn filled(rt: &(impl Abort + AllocGlobal)) -> Result<PriorityQueue<u8, Name>, AllocError> {
    let mut queue = PriorityQueue::new(rt.alloc());
    for (key, name) in [(2, 'a'), (5, 'b'), (2, 'c'), (5, 'd'), (1, 'e')] {
        let len = queue.len();
        if queue.insert(key, Name(name)).is_err() {
            assert_eq!(rt; queue.len(), len);
            queue.insert(key, Name(name))?;
        }
        assert_eq!(rt; Some(queue.len()), len.checked_add(1));
    }
    Ok(queue)
}

/// Takes out `count` names of this key, which have to come next, and sorts them.
fn popped(
    rt: &(impl Abort + AllocGlobal),
    queue: &mut PriorityQueue<u8, Name>,
    key: u8,
    count: u8,
) -> Result<Vec<char>, AllocError> {
    let mut names = Vec::new(rt.alloc());
    for _ in 0..count {
        let ahead = queue.peek().map(|(first, Name(name))| (*first, *name));
        let Some((first, Name(name))) = queue.pop() else {
            panic!(rt; "no name is left");
        };
        assert_eq!(rt; ahead, Some((first, name)));
        assert_eq!(rt; first, key);
        names.push(name)?;
    }
    names.sort()?;
    Ok(names)
}

#[test]
fn equal_keys(rt: HostRuntime) -> Result<(), Fail> {
    let mut queue = filled(&rt)?;
    let mut names = Vec::new(rt.alloc());
    for Name(name) in queue.iter_unordered() {
        names.push(*name)?;
    }
    names.sort()?;
    assert_eq!(rt; names.as_slice(), ['a', 'b', 'c', 'd', 'e'].as_slice());
    assert_eq!(rt;
        popped(&rt, &mut queue, 5, 2)?.as_slice(),
        ['b', 'd'].as_slice()
    );
    assert_eq!(rt;
        popped(&rt, &mut queue, 2, 2)?.as_slice(),
        ['a', 'c'].as_slice()
    );
    assert_eq!(rt; popped(&rt, &mut queue, 1, 1)?.as_slice(), ['e'].as_slice());
    assert!(rt; queue.is_empty());
    assert!(rt; queue.peek().is_none());
    assert!(rt; queue.pop().is_none());
    Ok(())
}

#[test]
fn cleared(rt: HostRuntime) -> Result<(), Fail> {
    let mut queue = filled(&rt)?;
    assert!(rt; !queue.is_empty());
    queue.clear();
    assert!(rt; queue.is_empty());
    assert_eq!(rt; queue.iter_unordered().count(), 0);
    Ok(())
}
