//! A driver whose validators take a row, take another in its place or refuse, and whose notifiers count their calls.
ghost use Rattle.std.specs.Prelude.{⊤, ◌≡◌, ◌≤◌, ◌==◌, pos, ◌∷◌, [], length, if◌then◌else◌};
ghost use Rattle.ctrl_calls.specs.declared.verdict.Verdict.TheVariants.{Accept, Refuse};
ghost use Rattle.ctrl_types.specs.declared.value.CtrlValue.TheVariants.{Number, Bytes};
ghost use Rattle.ctrl_types.specs.declared.errno.Errno.TheVariants.{ENOENT, EACCES, EBUSY, ERANGE};

use ctrl_calls::{ClusterRow, Judging, Notifies, Relation, Telling, Validates, Verdict};
use ctrl_types::{ByteRow, CtrlValue, Errno};
use std::sync::Arc;
use std::sync::atomic::{AtomicU64, Ordering};

/// Relation 0 takes each row as it is; 2 takes another in its place, and so do 11 to 14, of which only the last isn't one of an array; 7, 8 and 9 refuse with EBUSY, EACCES
/// and ERANGE, and every other with ENOENT.
pub enum Strict {}

#[derive(Drop)]
pub struct Judge {
    pub number: u32,
}

impl Judging for Judge {
    ghost callable = { λ _. ⊤ };

    ghost answers = { λ judge row verdict. verdict ≡ (
        if judge.number == 0 then Accept row
        else if judge.number == 2 then Accept (Number (pos 7) ∷ Number (pos 8) ∷ [])
        else if judge.number == 7 then Refuse EBUSY
        else if judge.number == 8 then Refuse EACCES
        else if judge.number == 9 then Refuse ERANGE
        else if judge.number == 11 then Accept (Bytes (10 ∷ 20 ∷ []) ∷ [])
        else if judge.number == 12 then Accept (Bytes (10 ∷ 15 ∷ []) ∷ [])
        else if judge.number == 13 then Accept (Bytes (10 ∷ []) ∷ [])
        else if judge.number == 14 then Accept (Number (pos 10) ∷ [])
        else Refuse ENOENT) };

    fn judge(&self, row: ClusterRow) -> Verdict {
        match self.number {
            0 => Verdict::Accept(row),
            2 => accept(&[CtrlValue::Number(7), CtrlValue::Number(8)]),
            7 => Verdict::Refuse(Errno::EBUSY),
            8 => Verdict::Refuse(Errno::EACCES),
            9 => Verdict::Refuse(Errno::ERANGE),
            11 => accept_bytes(&[10, 20]),
            12 => accept_bytes(&[10, 15]),
            13 => accept_bytes(&[10]),
            14 => accept(&[CtrlValue::Number(10)]),
            _ => Verdict::Refuse(Errno::ENOENT),
        }
    }
}

// The row of at most eight values is taken.
fn accept(values: &[CtrlValue]) -> Verdict
    requires { length values.now ≤ 8 }
    ensures { result ≡ Accept values.now }
{
    Verdict::Accept(ClusterRow::from_slice(values).unwrap())
}

// The row of an array of at most 32 bytes is taken.
fn accept_bytes(bytes: &[u8]) -> Verdict
    requires { length bytes.now ≤ 32 }
    ensures { result ≡ Accept (Bytes bytes.now ∷ []) }
{
    accept(&[CtrlValue::Bytes(ByteRow::from_slice(bytes).unwrap())])
}

/// A notifier counts its own calls. The word has how many calls of all notifiers came before, and the row.
#[derive(Drop)]
pub struct Says {
    pub own: Arc<AtomicU64>,
    pub all: Arc<AtomicU64>,
}

impl Telling for Says {
    ghost callable = { λ _. ⊤ };

    ghost answers = { λ _ _ _. ⊤ };

    fn tell(&self, row: ClusterRow) -> u64 {
        self.own.fetch_add(1, Ordering::SeqCst);
        let mut word = self.all.fetch_add(1, Ordering::SeqCst);
        for place in 0..row.len() {
            word = word.wrapping_mul(1000);
            word = word.wrapping_add(row.value(place).number().unsigned_abs());
        }
        word
    }
}

impl Validates for Strict {
    type Judge = Judge;

    ghost verdict = { λ relation row.
        if relation.number == 0 then Accept row
        else if relation.number == 2 then Accept (Number (pos 7) ∷ Number (pos 8) ∷ [])
        else if relation.number == 7 then Refuse EBUSY
        else if relation.number == 8 then Refuse EACCES
        else if relation.number == 9 then Refuse ERANGE
        else if relation.number == 11 then Accept (Bytes (10 ∷ 20 ∷ []) ∷ [])
        else if relation.number == 12 then Accept (Bytes (10 ∷ 15 ∷ []) ∷ [])
        else if relation.number == 13 then Accept (Bytes (10 ∷ []) ∷ [])
        else if relation.number == 14 then Accept (Number (pos 10) ∷ [])
        else Refuse ENOENT };
}

impl Notifies for Strict {
    type Teller = Says;

    ghost told = { λ _ _ _. ⊤ };
}

/// A relation of this number, without bounds.
pub fn relation(number: u32) -> Relation
    ensures { result.number ≡ number }
{
    Relation {
        number,
        bounds: [0; 4],
    }
}
