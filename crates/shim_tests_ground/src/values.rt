// That the calls on values succeed on ample memory, each at a type of its own.
use shim_base::{Boxed, List, Name, Shared, push_decimal};
use std::sync::Arc;
use std::test::Fail;

// A type that leads back to itself through a list and a box.
#[derive(Debug, Drop, PartialEq, Eq)]
enum Tree {
    Leaf(u8),
    Node(Boxed<Tree>, List<Tree>),
}

#[test]
fn a_recursive_type_goes_through_a_list_and_a_box(rt: HostRuntime) -> Result<(), Fail> {
    let alloc = rt.alloc();
    let mut left = List::new(alloc);
    left.push(Tree::Leaf(1))?;
    let mut right = List::new(alloc);
    right.push(Tree::Leaf(1))?;
    let a = Tree::Node(Boxed::new(alloc, Tree::Leaf(2))?, left);
    let b = Tree::Node(Boxed::new(alloc, Tree::Leaf(2))?, right);
    let c = Tree::Node(Boxed::new(alloc, Tree::Leaf(3))?, List::new(alloc));
    assert!(rt; a == b);
    assert!(rt; a != c);
    Ok(())
}

#[test]
fn a_list_holds_what_was_pushed(rt: HostRuntime) -> Result<(), Fail> {
    let alloc = rt.alloc();
    let mut text: List<u8> = List::new(alloc);
    assert!(rt; text.is_empty());
    text.extend_from_slice(b"at ")?;
    push_decimal(&mut text, 18446744073709551615)?;
    text.push(b';')?;
    assert_eq!(rt; text.as_slice(), b"at 18446744073709551615;".as_slice());
    assert_eq!(rt; text.len(), 24);
    assert_eq!(rt; text.get(23), Some(&b';'));
    assert_eq!(rt; text.get(24), None);
    Ok(())
}

#[test]
fn a_name_is_its_bytes(rt: HostRuntime) -> Result<(), Fail> {
    let name = Name::new(rt.alloc(), b"level")?;
    assert_eq!(rt; name.as_bytes(), b"level".as_slice());
    assert!(rt; name != Name::new(rt.alloc(), b"leve1")?);
    Ok(())
}

#[test]
fn a_shared_value_has_many_owners(rt: HostRuntime) -> Result<(), Fail> {
    let shared = Shared::new(rt.alloc(), 7u32)?;
    assert_eq!(rt; *shared.share()?, 7);
    let arc = Shared::from(Arc::new(rt.alloc(), 8u32)?);
    assert_eq!(rt; *arc, 8);
    assert_eq!(rt; Boxed::new(rt.alloc(), 9u8)?.into_inner(), 9);
    Ok(())
}
