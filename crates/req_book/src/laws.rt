//! What follows from the definitions of what a request asks for. Each law is the contract of a function that does nothing.

ghost use Rattle.std.specs.Prelude.{◌≡◌, ◌++◌, ◌<◌, ℕ, List};
ghost use Rattle.std.specs.List.{All};
ghost use Rattle.ctrl_types.specs.Pairs.{last_value};
ghost use Rattle.ctrl_types.specs.declared.ids.Pair.{Pair};
ghost use Rattle.req_book.specs.Requests.{latest};

/// Of each control the last stored pair counts.
#[tactic(auto, using(crate::proofs::SettingLemmas::last_latest))]
pub fn last_pairs()
    ensures { (controls : ℕ) (pairs : List Pair) (c : ℕ) → c < controls → last_value (latest controls pairs) c ≡ last_value pairs c }
{}

/// Pairs that are stored behind what a request asks for are stored behind all that was stored in it.
#[tactic(auto, using(crate::proofs::SettingLemmas::latest_again))]
pub fn stored_again()
    ensures { (controls : ℕ) (pairs more : List Pair) → latest controls (latest controls pairs ++ more) ≡ latest controls (pairs ++ more) }
{}

/// What a request asks for names controls that are there.
#[tactic(auto, using(crate::proofs::SettingLemmas::known_latest))]
pub fn known_pairs()
    ensures { (controls : ℕ) (pairs : List Pair) → All (λ p. p.control < controls) (latest controls pairs) }
{}
