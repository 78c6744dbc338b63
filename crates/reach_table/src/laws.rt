//! What the definitions of links say. Each function is a law that its contract states; none has anything to do.

ghost use Rattle.std.specs.Prelude.{◌≡◌, ℕ, Bool, List, true, IsTrue};
ghost use Rattle.std.specs.List.{All};
ghost use Rattle.reach_table.specs.Reached.{is_led_to, is_reached};

/// A number is reached from itself; what a link leads to from what is reached is reached, too; and nothing else is: whatever holds of the number, and of all that a link
/// leads to from where it holds, holds of all that is reached.
pub fn reached_on()
    ensures itself { (links : List (ℕ × ℕ)) (from : ℕ) → is_reached links from from ≡ true }
    ensures on { (links : List (ℕ × ℕ)) (from n : ℕ) → is_led_to links (is_reached links from) n ≡ true → is_reached links from n ≡ true }
    ensures least { (links : List (ℕ × ℕ)) (from : ℕ) (holds : ℕ → Bool) → holds from ≡ true → ((n : ℕ) → is_led_to links holds n ≡ true → holds n ≡ true) → (n : ℕ) → is_reached links from n ≡ true → holds n ≡ true }
{}
