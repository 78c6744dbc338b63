use kernel_names::class_name;
use std::io::Write;
use view_layout::Page;

/// Puts a class on a page as a script says it, and its name.
pub fn put_class(page: &mut Page, class: u32) {
    let word = match class {
        0x0098_0000 => "user",
        0x009a_0000 => "camera",
        _ => "",
    };
    page.put(word);
    if word.is_empty() {
        let _ = write!(page, "0x{class:08x}");
    }
    if let Some(name) = class_name(class) {
        let _ = write!(page, " ({name})");
    }
}
