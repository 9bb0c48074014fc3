//! The numbers of one line.
ghost use Rattle.std.specs.Prelude.{◌≡◌, ℕ, List, [], ◌∷◌, ◌++◌, length, option_map};
ghost use Rattle.sheet.specs.Rows.{Holds, all_given, items_of};

use arrayvec::ArrayVec;
use tokens::number;

/// So many fields of a line are kept: one more than any kind of sheet takes.
const FIELDS_KEPT: usize = 9;

/// What is kept of a line's fields while it is read: of each of the first nine its number, if it is one.
#[derive(Drop)]
pub(crate) struct Row {
    fields: ArrayVec<Option<u64>, FIELDS_KEPT>,
}

impl Row {
    /// The row of a line of which no field is read yet.
    pub(crate) fn new() -> Row
        ensures { Holds result [] }
    {
        Row {
            fields: ArrayVec::new(),
        }
    }

    /// Takes one more field.
    pub(crate) fn put(&mut self, text: &[u8])
        ensures { (fs : List (List ℕ)) → Holds self.old fs → Holds self.new (fs ++ text.now ∷ []) }
    {
        if !self.fields.is_full() {
            self.fields.push(number(text));
        }
    }

    /// How many fields are kept.
    pub(crate) fn len(&self) -> usize
        ensures { result ≡ length self.now.fields.items }
    {
        self.fields.len()
    }

    /// The numbers of the fields that are kept, or None where one of them is no number.
    pub(crate) fn numbers(&self) -> Option<ArrayVec<u64, FIELDS_KEPT>>
        ensures { option_map items_of result ≡ all_given self.now.fields.items }
    {
        let mut numbers = ArrayVec::new();
        for field in self.fields.as_slice() {
            numbers.push((*field)?);
        }
        Some(numbers)
    }
}
