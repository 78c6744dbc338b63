//! The names that a control's table may give: types and flags.

ghost use Rattle.std.specs.Prelude.{◌≡◌};
ghost use Rattle.file_tables.specs.Names.{flag_named as flag_of, kind_named as kind_of};

use ctrl_types::Kind;

// The type of a name, as in userspace (Linux userspace API, "enum v4l2_ctrl_type").
pub(crate) fn kind_named(text: &str) -> Option<Kind>
    ensures { result ≡ kind_of text.now }
{
    if text == "integer" {
        return Some(Kind::Integer);
    }
    if text == "boolean" {
        return Some(Kind::Boolean);
    }
    if text == "menu" {
        return Some(Kind::Menu);
    }
    if text == "button" {
        return Some(Kind::Button);
    }
    if text == "integer64" {
        return Some(Kind::Integer64);
    }
    if text == "bitmask" {
        return Some(Kind::Bitmask);
    }
    if text == "integer_menu" {
        return Some(Kind::IntegerMenu);
    }
    if text == "u8" {
        return Some(Kind::U8);
    }
    None
}

// The bit of a flag's name (Linux userspace API, "Control Flags"). `slider` and `modify_layout` are hints for applications: they are kept and
// mean nothing here. GRABBED and INACTIVE come and go as the device runs; VOLATILE, HAS_PAYLOAD and DYNAMIC_ARRAY would promise what isn't
// there.
pub(crate) fn flag_named(text: &str) -> Option<u32>
    ensures { result ≡ flag_of text.now }
{
    if text == "disabled" {
        return Some(0x1);
    }
    if text == "read_only" {
        return Some(0x4);
    }
    if text == "update" {
        return Some(0x8);
    }
    if text == "slider" {
        return Some(0x20);
    }
    if text == "write_only" {
        return Some(0x40);
    }
    if text == "execute_on_write" {
        return Some(0x200);
    }
    if text == "modify_layout" {
        return Some(0x400);
    }
    None
}
