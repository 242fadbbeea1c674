// The layers together, on examples: what the compiled code answers.
use bitmap::Bitmap;
use fault::{Cause, Fault};
use limit::pile::{hold_back_over_quota, quota_over_hold_back};
use limit::quota::used;
use prefix::family::Family;
use prefix::four::V4;
use prefix::reserved::is_reserved;
use prefix::six::V6;
use space::Space;
use std::process::Abort;
use text::prefixes::{read_prefix, write_prefix};
use tree::BuddyTree;

#[test]
fn places_of_the_examples(rt: HostRuntime) {
    let places = super::examples();
    assert_eq!(rt; places.four, 5);
    assert_eq!(rt; places.six, 4267);
}

#[test]
fn no_place_gives_the_root(rt: HostRuntime) {
    let root = V4::enclosing(0xcb00_7100, 24);
    let block = V4::enclosing(0xcb00_7140, 26);
    assert!(rt; V4::prefix_at(&root, 4, 5) == block);
    assert!(rt; V4::prefix_at(&root, 4, 0) == root);
    assert!(rt; V4::prefix_at(&root, 4, 32) == root);
    assert!(rt; V4::prefix_at(&root, 9, 5) == root);
    assert_eq!(rt; V4::place(&block, 4, &root), 0);
}

#[test]
fn a_refused_prefix_leaves_its_place(rt: HostRuntime) {
    let root = V4::enclosing(0xcb00_7100, 24);
    let mut p = root;
    assert!(rt; V4::make(0xcb00_7140, 33, &mut p) == Err(Fault::alone(Cause::LengthAboveWidth)));
    assert!(rt; V4::make(0xcb00_7140, 25, &mut p) == Err(Fault::alone(Cause::HostBitSet)));
    assert!(rt;
        read_prefix::<V4>(b"203.0.113.64/026", &mut p) == Err(Fault::alone(Cause::Malformed))
    );
    assert!(rt; p == root);
    assert!(rt; V4::make(0xcb00_7140, 26, &mut p).is_ok());
    assert!(rt; p == V4::enclosing(0xcb00_7140, 26));
}

#[test]
fn memory_one_byte_too_short_is_left_alone(rt: HostRuntime) {
    let p = V6::enclosing([0x2001, 0xdb8, 0xab0, 0, 0, 0, 0, 0], 44);
    let mut memory = [7u8; 18];
    assert!(rt;
        write_prefix::<V6>(&p, &mut memory[0..16]) == Err(Fault::alone(Cause::MemoryTooShort))
    );
    assert!(rt; memory == [7u8; 18]);
    assert!(rt; write_prefix::<V6>(&p, &mut memory) == Ok(17));
    assert!(rt; &memory == b"2001:db8:ab0::/44\x07");
}

#[test]
fn reserved_blocks_are_touched_from_within_and_from_around(rt: HostRuntime) {
    assert!(rt; is_reserved::<V4>(&V4::enclosing(0x7f00_0001, 32)));
    assert!(rt; is_reserved::<V4>(&V4::enclosing(0, 0)));
    assert!(rt; !is_reserved::<V4>(&V4::enclosing(0x0a00_0000, 8)));
    assert!(rt; is_reserved::<V6>(&V6::enclosing([0, 0, 0, 0, 0, 0xffff, 0xc000, 0x0280], 128)));
    assert!(rt; !is_reserved::<V6>(&V6::enclosing([0x2001, 0xdb8, 0, 0, 0, 0, 0, 0], 32)));
}

// A space of depth 4 under a quota of 12 units and a hold-back of 16, whatever it is made of.
fn is_limited<S: Space + Drop>(rt: &impl Abort, space: S) {
    let mut space = space;
    assert!(rt; !space.open(4) && space.open(17));
    assert_eq!(rt; space.seek(1, 2, 0), Some(5));
    assert_eq!(rt; space.seek(1, 4, 0), Some(17));
    assert!(rt; space.take(5) && space.take(6));
    assert!(rt; space.open(7));
    assert!(rt; space.take(7));
    assert_eq!(rt; used(&space), 12);
    assert!(rt; !space.open(17) && !space.take(17));
    assert_eq!(rt; space.seek(1, 4, 0), None);
    assert!(rt; !space.give(3) && space.give(6));
    assert_eq!(rt; space.seek(1, 3, 9), Some(9));
    assert_eq!(rt; space.seek(3, 2, 0), Some(6));
}

#[test]
fn limits_pile_either_way_over_a_tree(rt: HostRuntime) {
    let mut bytes = [7u8; 33];
    is_limited(
        &rt,
        quota_over_hold_back(BuddyTree::new(4, &mut bytes), 12, 16),
    );
    assert_eq!(rt; bytes[32], 7);
    is_limited(
        &rt,
        hold_back_over_quota(BuddyTree::new(4, &mut bytes), 12, 16),
    );
}

#[test]
fn limits_pile_either_way_over_a_bitmap(rt: HostRuntime) {
    let mut words = [7u64; 3];
    is_limited(
        &rt,
        quota_over_hold_back(Bitmap::new(4, &mut words), 12, 16),
    );
    assert_eq!(rt; words[2], 7);
    is_limited(
        &rt,
        hold_back_over_quota(Bitmap::new(4, &mut words), 12, 16),
    );
}

// Grants and returns for a while, in any space of depth 6: in the end the root is one free place.
fn does_not_wear<S: Space + Drop>(rt: &impl Abort, space: S) {
    let mut space = space;
    for n in 64..128 {
        assert!(rt; space.take(n));
    }
    assert_eq!(rt; space.seek(1, 6, 0), None);
    for n in 64..128 {
        assert!(rt; space.give(n));
    }
    assert_eq!(rt; space.seek(1, 0, 0), Some(1));
    assert!(rt; space.take(1));
}

#[test]
fn returned_halves_are_whole_again(rt: HostRuntime) {
    let mut bytes = [7u8; 128];
    does_not_wear(&rt, BuddyTree::new(6, &mut bytes));
    let mut words = [7u64; 2];
    does_not_wear(&rt, Bitmap::new(6, &mut words));
}

#[test]
fn a_shut_space_leaves_its_memory(rt: HostRuntime) {
    let mut bytes = [7u8; 31];
    {
        let mut tree = BuddyTree::new(4, &mut bytes);
        assert!(rt; tree.depth() == 0 && !tree.take(1));
    }
    assert!(rt; bytes == [7u8; 31]);
    let mut words = [7u64; 2];
    {
        let mut map = Bitmap::new(13, &mut words);
        assert!(rt; map.depth() == 0 && !map.take(1));
    }
    assert!(rt; words == [7u64; 2]);
}
