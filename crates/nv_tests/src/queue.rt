//! Errors of rings as text.

use nv_queue::{CqFull, RingFull};
use std::alloc::AllocError;

#[test]
fn errors_as_text(rt: HostRuntime) -> Result<(), AllocError> {
    let shown = format!(in rt.alloc(); "{RingFull}, {CqFull}")?;
    assert_eq!(rt;
        shown.as_str(),
        "the submission ring is full, the completion ring is full"
    );
    Ok(())
}
