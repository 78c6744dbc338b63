//! Items of menus that are copied and printed.

use menu_items::{MenuItem, MenuName};
use std::test::Fail;

#[test]
fn a_copied_item(rt: HostRuntime) -> Result<(), Fail> {
    let name = MenuItem::Name(MenuName::new(rt.alloc(), "50 Hz")?);
    let copy = name.copied(rt.alloc())?;
    assert!(rt; matches!(&copy, MenuItem::Name(text) if text.as_str() == "50 Hz"));
    let number = MenuItem::Number(i64::MIN);
    assert!(rt; matches!(number.copied(rt.alloc())?, MenuItem::Number(i64::MIN)));
    let text = format!(in rt.alloc(); "{}", MenuName::new(rt.alloc(), "60 Hz")?)?;
    assert!(rt; text.as_str() == "60 Hz");
    Ok(())
}
