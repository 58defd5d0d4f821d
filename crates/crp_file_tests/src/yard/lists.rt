use crate::compare::assert_same;
use crp_plan::Container;
use crp_yard::Containers;
use std::alloc::{AllocError, Global};
use std::process::Abort;
use std::test::Fail;

/// Two containers, made in the two ways.
fn two(alloc: Global) -> Result<Vec<Container>, AllocError> {
    let mut list = Vec::new(alloc);
    list.push(Container::named(alloc, b"X")?)?;
    list.push(Container::from_vec(Vec::from_slice(alloc, b"YZ")?))?;
    Ok(list)
}

fn bytes_of(container: &Container) -> &[u8] {
    container.bytes()
}

/// The list is of X and YZ.
fn assert_two(rt: &impl Abort, list: &[Container]) {
    match list {
        [one, other] => {
            assert_same(rt, &bytes_of(one), &b"X".as_slice());
            assert_same(rt, &bytes_of(other), &b"YZ".as_slice());
        }
        _ => panic!(rt; "there are two containers"),
    }
}

fn made_of(list: Vec<Container>) -> Containers {
    Containers::from_vec(list)
}

fn list_of(list: &Containers) -> &[Container] {
    list.list()
}

fn vec_of(list: Containers) -> Vec<Container> {
    list.into_vec()
}

#[test]
fn containers_are_lists(rt: HostRuntime) -> Result<(), Fail> {
    let list = made_of(two(rt.alloc())?);
    assert_two(&rt, list_of(&list));
    assert_two(&rt, &vec_of(list));
    Ok(())
}
