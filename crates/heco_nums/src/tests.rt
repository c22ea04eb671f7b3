use super::*;
use std::test::Fail;

#[derive(Debug, Drop)]
struct Tree {
    label: u32,
    branches: List<Tree>,
}

#[test]
fn lists_and_room_keep_their_order(rt: HostRuntime) -> Result<(), Fail> {
    let mut list = List::new(rt.alloc());
    assert!(rt; list.is_empty());
    list.push(3u32)?;
    list.extend_from_slice([4, 5].as_slice())?;
    assert_eq!(rt; list.as_slice(), [3, 4, 5].as_slice());
    assert_eq!(rt; list.len(), 3);
    assert_eq!(rt; *list.get(1), 4);
    let mut room = Room::new(rt.alloc());
    room.reserve(2)?;
    room.push_spare(7u32);
    room.push_spare(8);
    assert_eq!(rt; room.into_list().as_slice(), [7, 8].as_slice());
    let leaf = Tree {
        label: 1,
        branches: List::new(rt.alloc()),
    };
    let mut branches = List::new(rt.alloc());
    branches.push(leaf)?;
    let tree = Tree { label: 2, branches };
    assert_eq!(rt; tree.label, 2);
    assert_eq!(rt; tree.branches.get(0).label, 1);
    Ok(())
}

#[test]
fn the_rows_of_arithmetic_and_words(rt: HostRuntime) -> Result<(), Fail> {
    let found = Preset::by_name(b"p8".as_slice());
    assert_eq!(rt; found, Preset::by_id(1));
    let p8 = found.expect(&rt, "p8 is a preset");
    assert_eq!(rt; Preset::by_id(6), None);
    assert_eq!(rt; Preset::by_name(b"p9".as_slice()), None);
    assert_eq!(rt; add_t(&p8, 200, 100), 43);
    assert_eq!(rt; mul_t(&p8, 200, 100), 211);
    assert_eq!(rt; neg_t(&p8, 0), 0);
    assert_eq!(rt; pow_t(&p8, 136, 16), 256);
    assert_eq!(rt; scaled(&p8, 1), 1121518973352964);
    assert_eq!(rt; centre_t(&p8, 200), -57);
    assert_eq!(rt; centre_q(1 << 57), -(1 << 57));
    assert!(rt; is_word(b"_a1".as_slice()));
    for word in [
        b"def".as_slice(),
        b"if".as_slice(),
        b"else".as_slice(),
        b"1a".as_slice(),
        b"".as_slice(),
    ] {
        assert!(rt; !is_word(word));
    }
    let text = format!(in rt.alloc(); "{Memory}")?;
    assert_eq!(rt; text.as_str(), "out of memory");
    Ok(())
}
