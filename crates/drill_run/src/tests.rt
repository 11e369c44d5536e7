use crate::{drill_geometry, run_drill};
use std::process::Abort;
use std::test::Fail;

#[test]
fn drills_are_summed_up(rt: HostRuntime) -> Result<(), Fail> {
    let four = run_drill(rt.alloc(), drill_geometry(), 4, 1)?;
    assert!(rt; four.as_slice() == b"vertices 4\nedges 6\nparts 1\ndeepest 2\nfull 0\n".as_slice());
    let one = run_drill(rt.alloc(), drill_geometry(), 1, 0)?;
    assert!(rt; one.as_slice() == b"vertices 1\nedges 2\nparts 1\ndeepest 0\nfull 0\n".as_slice());
    Ok(())
}
