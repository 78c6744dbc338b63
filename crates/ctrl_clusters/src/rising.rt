//! Numbers in rising order: as they are asked for one after another, and one that is put among others or taken out.

ghost use Rattle.std.specs.Prelude.{◌≡◌, ◌≤◌, length, count_by, nat_lt, vec_capacity};
ghost use Rattle.ctrl_clusters.specs.Rising.{IsNext, others, with_or_without};

/// The least of some numbers from one number on, or the end, where there is none (of this project).
///
/// - `numbers`: any numbers, in any order.
/// - `from`: the least number that counts.
/// - `end`: what is answered where none of the numbers lies from there on and below it; the caller owes `from` at least.
///
/// It takes no memory and refuses nothing.
pub fn next_number(numbers: &[u32], from: u32, end: u32) -> u32
    requires { from ≤ end }
    ensures { IsNext numbers.now from end result }
{
    let mut next = end;
    for &number in numbers {
        if from <= number && number < next {
            next = number;
        }
    }
    next
}

/// Puts a number among rising ones, in its place, where it isn't there, or takes it out (of this project). It takes no memory.
///
/// - `numbers`: the numbers; the caller owes room for them afterwards.
/// - `number`: the number.
/// - `is_in`: whether it is among them afterwards.
pub fn mark(numbers: &mut Vec<u32>, number: u32, is_in: bool)
    requires room { length (with_or_without number is_in numbers.old.items) ≤ vec_capacity numbers.old }
    ensures numbers { numbers.new.items ≡ with_or_without number is_in numbers.old.items }
    ensures room { vec_capacity numbers.old ≤ vec_capacity numbers.new }
{
    leave_out(numbers, number);
    if is_in {
        let place = count_below(numbers.as_slice(), number);
        let _ = numbers.insert(place, number);
    }
}

// Takes a number out.
fn leave_out(numbers: &mut Vec<u32>, number: u32)
    ensures others { numbers.new.items ≡ others number numbers.old.items }
    ensures room { vec_capacity numbers.new ≡ vec_capacity numbers.old }
{
    numbers.retain(|other| number != *other);
}

// How many numbers are below another.
fn count_below(numbers: &[u32], number: u32) -> usize
    ensures count { result ≡ count_by (λ j. nat_lt j number) numbers.now }
    ensures within { result ≤ length numbers.now }
{
    numbers.iter().filter(|other| **other < number).count()
}
