//! Spans, and faults of data pointers, as text.

use crate::checks::check_text;
use nv_host::FlatMemory;
use nv_prp::{PrpError, Spans, walk};

#[test]
#[tactic(auto, unfolding(nv_host::specs::Pages::IsPageSize))]
fn spans_and_errors_are_printed(rt: HostRuntime) {
    let Ok(mem) = FlatMemory::new(rt.alloc(), 4096, 16) else {
        assert!(rt; false, "out of memory");
        return;
    };
    let mut spans = Spans::new();
    assert!(rt; spans.is_empty());
    assert!(rt; walk(&mem, 0x1004, 0, 4, &mut spans).is_ok());
    assert!(rt; spans.len() == 1);
    let Ok(shown) = format!(in rt.alloc(); "{spans:?}") else {
        assert!(rt; false, "out of memory");
        return;
    };
    check_text(
        &rt,
        shown.as_str(),
        "[Span { address: 4100, len: 4 }]",
        "spans",
    );
    let (offset, outside) = (PrpError::Offset, PrpError::Outside);
    let Ok(shown) = format!(in rt.alloc(); "{offset}, {outside}") else {
        assert!(rt; false, "out of memory");
        return;
    };
    check_text(
        &rt,
        shown.as_str(),
        "PRP offset invalid, outside the memory",
        "errors",
    );
}
