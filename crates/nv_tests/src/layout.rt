//! Lists of namespaces and controllers: how they compare, and their text.

use crate::checks::check_text;
use nv_layout::*;
use std::test::Fail;

#[test]
fn namespace_lists_compare_and_print_as_lists(rt: HostRuntime) -> Result<(), Fail> {
    let mut one = NsList::new();
    assert!(rt; one.is_empty());
    one.push(1);
    let mut two = NsList::new();
    two.push(1);
    assert!(rt; one == two);
    two.push(3);
    assert!(rt; one != two && two.len() == 2);
    assert!(rt; format!(in rt.alloc(); "{two:?}")?.as_str() == "[1, 3]");
    Ok(())
}

#[test]
fn a_list_that_is_too_long_as_text(rt: HostRuntime) -> Result<(), Fail> {
    let text = format!(in rt.alloc(); "{}", LayoutError::CountTooLarge)?;
    let want = "a controller list has more than 2,047 identifiers";
    check_text(&rt, text.as_str(), want, "an error");
    Ok(())
}

#[test]
fn controller_lists_compare_and_print_as_lists(rt: HostRuntime) -> Result<(), Fail> {
    let mut one = CtrlList::new();
    one.push(1);
    let mut two = CtrlList::new();
    two.push(1);
    assert!(rt; one == two);
    two.push(3);
    assert!(rt; one != two);
    assert!(rt; one.ids() != two.ids());
    assert!(rt; format!(in rt.alloc(); "{two:?}")?.as_str() == "[1, 3]");
    assert!(rt; format!(in rt.alloc(); "{:?}", two.ids())?.as_str() == "[1, 3]");
    Ok(())
}
