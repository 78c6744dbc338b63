/// How many entries a list of controls has at most (of this project).
pub const MAX_ENTRIES: u32 = 64;
