//! Which numbers are reached from one, as marks.

ghost use Rattle.std.specs.Prelude.{◌≡◌, ◌<◌, ◌||◌, ℕ, length, false, nat_eq, slice_index_or};
ghost use Rattle.reach_table.specs.Reached.{AreBelow, is_led_to, is_near, is_reached};

/// Marks what is reached from a number, and nothing else.
///
/// - `links`: each from a number to a number, below the count of marks.
/// - `from`: a number below it.
/// - `marks`: one for each number, of any value.
/// - `before`: as many, for the work.
pub(crate) fn mark_reached(links: &[(u32, u32)], from: u32, marks: &mut [bool], before: &mut [bool])
    requires links { AreBelow (length marks.old) links.now }
    requires from { from < length marks.old }
    requires before { length before.old ≡ length marks.old }
    ensures marked { (n : ℕ) → n < length marks.old → slice_index_or marks.new n false ≡ is_reached links.now from n }
    ensures count { length marks.new ≡ length marks.old }
    ensures before { length before.new ≡ length before.old }
{
    mark_only(from, marks);
    for _ in links {
        before.copy_from_slice(marks);
        mark_next(links, before, marks);
    }
}

// Marks one number alone.
fn mark_only(number: u32, marks: &mut [bool])
    requires { number < length marks.old }
    ensures marked { (n : ℕ) → n < length marks.old → slice_index_or marks.new n false ≡ nat_eq number n }
    ensures count { length marks.new ≡ length marks.old }
{
    marks.fill(false);
    marks[number as usize] = true;
}

// Marks, besides, what a link leads to from what was marked.
fn mark_next(links: &[(u32, u32)], before: &[bool], marks: &mut [bool])
    requires links { AreBelow (length marks.old) links.now }
    requires before { length before.now ≡ length marks.old }
    ensures marked { (n : ℕ) → slice_index_or marks.new n false ≡ (slice_index_or marks.old n false || is_led_to links.now (λ k. slice_index_or before.now k false) n) }
    ensures count { length marks.new ≡ length marks.old }
{
    for &(from, to) in links {
        if before[from as usize] {
            marks[to as usize] = true;
        }
    }
}
