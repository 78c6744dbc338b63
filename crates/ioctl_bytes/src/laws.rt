//! What follows from the definitions. Each law is the contract of a function that does nothing.

ghost use Rattle.std.specs.Prelude.{◌≡◌, ◌≤◌, ◌<◌, ◌+◌, ◌^◌, ◌⊎◌, ℕ, List, length};
ghost use Rattle.ioctl_bytes.specs.Fields.{number_in, with_part};
ghost use Rattle.byteorder.specs.Endian.{little_bytes};

/// What was written is read back.
#[tactic(auto, using(crate::proofs::PartLemmas::read_back))]
pub fn read_back()
    ensures { (n at x : ℕ) (bytes : List ℕ) → at + n ≤ length bytes → x < 256 ^ n → number_in n at (with_part at (little_bytes n x) bytes) ≡ x }
{}

/// A write changes no other field: one that ends before the part or begins behind it.
#[tactic(auto, using(crate::proofs::PartLemmas::others_stay))]
pub fn others_stay()
    ensures { (n at place : ℕ) (part bytes : List ℕ) → place + length part ≤ length bytes → at + n ≤ length bytes → (at + n ≤ place) ⊎ (place + length part ≤ at)
        → number_in n at (with_part place part bytes) ≡ number_in n at bytes }
{}
