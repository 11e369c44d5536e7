use crate::Same;
use gdi_kinds::{NumList, Reply, ReplyList};
use std::process::Abort;
use std::test::Fail;

#[test]
fn replies_are_compared_whole(rt: HostRuntime) -> Result<(), Fail> {
    let alloc = rt.alloc();
    let mut ids = NumList::new(alloc);
    ids.push(7)?;
    let mut one = ReplyList::new(alloc);
    one.push(Reply::NoVertex(7))?;
    one.push(Reply::Ids(ids))?;
    let mut other = ReplyList::new(alloc);
    other.push(Reply::NoVertex(7))?;
    other.push(Reply::Ids(NumList::new(alloc)))?;
    assert!(rt; one.is_same(&one));
    assert!(rt; !one.is_same(&other));
    Ok(())
}
