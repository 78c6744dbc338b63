/// How many media requests there can be (of this project).
pub const MAX_REQUESTS: usize = 64;
