//! Sets and slots of small numbers.

use nv_bits::*;

/// With enough memory, a set of no numbers and a set of all are made.
#[test]
fn lowest_numbers(rt: HostRuntime) {
    let Ok(mut some) = BitSet::new(rt.alloc(), 1, 130) else {
        assert!(rt; false, "out of memory");
        return;
    };
    let Ok(mut all) = BitSet::full(rt.alloc(), 0, 64) else {
        assert!(rt; false, "out of memory");
        return;
    };
    assert!(rt; some.take_lowest() == None);
    some.insert(130);
    some.insert(65);
    assert!(rt; some.take_lowest() == Some(65));
    assert!(rt; all.take_lowest() == Some(0));
    assert!(rt; all.len() == 63);
}

/// Inserts a value at the lowest free number, as in the crate page's example.
fn insert_lowest(names: &mut VecMap<char>, value: char) {
    if let Some(id) = names.lowest_free() {
        names.insert(id, value);
    }
}

/// Runs the crate page's example.
#[test]
fn lowest_free_identifier(rt: HostRuntime) {
    let Ok(mut names) = VecMap::new(rt.alloc(), 1, 1024) else {
        assert!(rt; false, "out of memory");
        return;
    };
    insert_lowest(&mut names, 'a');
    assert!(rt; names.next_above(0) == Some(1));
    assert!(rt; names.next_above(1) == None);
    assert!(rt; names.get(1) == Some('a'));
}
