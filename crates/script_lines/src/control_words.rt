ghost use Rattle.std.specs.Prelude.{◌≡◌, ◌==◌, [], ◌∷◌, ◌++◌, IfOk, IfErr, OnOk};
ghost use Rattle.std.specs.List.{find};
ghost use Rattle.std.specs.Option.{option_map};
ghost use Rattle.std.specs.Str.{bytes_eq};
ghost use Rattle.script_lines.specs.ControlWords.{known_id, known_number, known_word, row_named};

use ctrl_types::CtrlId;
use std::alloc::{AllocError, Global};
use std::marker::Model;

/// The words by which scripts name the controls of a device (of this project). Contracts see the list of its rows, each a word with the id and the number of
/// the control that it names. Where a word stands twice, the first row counts.
#[derive(Drop)]
pub struct ControlWords {
    rows: Vec<Row>,
}

impl Model for ControlWords {
    ghost use Rattle.std.specs.Prelude.{List};
    ghost use Rattle.script_lines.specs.ControlWords.{ControlWord};

    ghost Value = { List ControlWord };

    ghost view = { λ w. w.rows.items };
}

// A word, and the control that it names. Contracts see it with the bytes of the word.
#[derive(Drop)]
struct Row {
    word: Vec<u8>,
    id: CtrlId,
    number: u32,
}

impl Model for Row {
    ghost use Rattle.script_lines.specs.ControlWords.{ControlWord};

    ghost Value = { ControlWord };

    ghost view = { λ r. record { word = r.word.items; id = r.id; number = r.number } };
}

impl ControlWords {
    /// A table without words: scripts name controls by their ids alone. It takes no memory.
    pub fn new(alloc: Global) -> ControlWords
        ensures { result ≡ [] }
    {
        ControlWords {
            rows: Vec::new(alloc),
        }
    }

    /// Adds a row behind those that are there. The error is that a growth was refused, and then the table is as it was.
    ///
    /// - `alloc`: where the word lies.
    /// - `word`: any bytes. A line can't say a word with a space or a line feed; an entry with a value can't say one with `=`, and only such an
    ///   entry can say an empty one. A word of the form of an id (`0x..`) stands for its own control, not for the one with that id.
    /// - `id`, `number`: those of the control.
    pub fn push(
        &mut self,
        alloc: Global,
        word: &[u8],
        id: CtrlId,
        number: u32,
    ) -> Result<(), AllocError>
        ensures ok { OnOk result (self.new ≡ self.old ++ record { word = word.now; id = id; number = number } ∷ []) }
        ensures err { IfErr result (λ _. self.new ≡ self.old) }
    {
        let word = Vec::from_slice(alloc, word)?;
        let row = Row { word, id, number };
        match self.rows.push(row) {
            Ok(()) => Ok(()),
            Err(_) => Err(AllocError),
        }
    }

    /// The id of the control that a word names; none for a word that isn't in the table.
    pub fn id_of(&self, word: &[u8]) -> Option<CtrlId>
        ensures { result ≡ known_id self.now word.now }
    {
        Some(self.row_named(word)?.id)
    }

    /// The number of the control that a word names; none for a word that isn't in the table.
    pub fn number_of(&self, word: &[u8]) -> Option<u32>
        ensures { result ≡ known_number self.now word.now }
    {
        Some(self.row_named(word)?.number)
    }

    /// The word of a control, by its number: that of the first row with it. None where the table has no word for it.
    pub fn word_of(&self, number: u32) -> Option<&[u8]>
        ensures { option_map (λ word. word.now) result ≡ known_word self.now number }
    {
        let row = self.rows.iter().find(|row| row.number == number)?;
        Some(row.word.as_slice())
    }

    fn row_named(&self, word: &[u8]) -> Option<&Row>
        ensures { option_map (λ row. row.now) result ≡ row_named self.now word.now }
    {
        self.rows.iter().find(|row| row.word.as_slice() == word)
    }
}
