// What an edit changes, and the form of its words.
ghost use Rattle.std.specs.Prelude.{◌≡◌};
ghost use Rattle.edit_words.specs.EditWords.{edit_kind_of, slots_of, has_pairs};
ghost use Rattle.edit_words.specs.private.EditWords.{whole_kind_of};

use crate::forms::Slot;
use text_lines::is_word;

/// What an edit changes, by its first word.
#[derive(Clone, Copy)]
pub(crate) enum EditKind {
    Cost,
    Cost2,
    Row,
    Bounds,
    Kind,
    AddCol,
    DelCol,
    AddRow,
    DelRow,
    ReplaceRow,
}

impl EditKind {
    /// The kind that a word names.
    pub(crate) fn of(word: &[u8]) -> Option<EditKind>
        ensures { result ≡ edit_kind_of word.now }
    {
        if is_word(b"cost", word) {
            Some(EditKind::Cost)
        } else if is_word(b"cost2", word) {
            Some(EditKind::Cost2)
        } else if is_word(b"row", word) {
            Some(EditKind::Row)
        } else if is_word(b"bounds", word) {
            Some(EditKind::Bounds)
        } else if is_word(b"kind", word) {
            Some(EditKind::Kind)
        } else {
            EditKind::of_whole(word)
        }
    }

    /// The kind that a word names which adds, removes or replaces a whole column or row.
    fn of_whole(word: &[u8]) -> Option<EditKind>
        ensures { result ≡ whole_kind_of word.now }
    {
        if is_word(b"addcol", word) {
            Some(EditKind::AddCol)
        } else if is_word(b"delcol", word) {
            Some(EditKind::DelCol)
        } else if is_word(b"addrow", word) {
            Some(EditKind::AddRow)
        } else if is_word(b"delrow", word) {
            Some(EditKind::DelRow)
        } else if is_word(b"replacerow", word) {
            Some(EditKind::ReplaceRow)
        } else {
            None
        }
    }

    /// A slot for each word behind the kind's own.
    pub(crate) fn slots(self) -> &'static [Slot]
        ensures { result.now ≡ slots_of self }
    {
        match self {
            EditKind::Cost => &[Slot::Known, Slot::Number],
            EditKind::Cost2 => &[Slot::Known, Slot::Number],
            EditKind::Row => &[Slot::Known, Slot::Sides, Slot::NumberOrNone],
            EditKind::Bounds => &[Slot::Known, Slot::Lower, Slot::Upper],
            EditKind::Kind => &[Slot::Known, Slot::Kind],
            EditKind::AddCol => &[
                Slot::New,
                Slot::Kind,
                Slot::Lower,
                Slot::Upper,
                Slot::Number,
                Slot::Number,
            ],
            EditKind::DelCol => &[Slot::Known],
            EditKind::AddRow => &[Slot::New, Slot::NumberOrNone, Slot::NumberOrNone],
            EditKind::DelRow => &[Slot::Known],
            EditKind::ReplaceRow => &[Slot::Known, Slot::NumberOrNone, Slot::NumberOrNone],
        }
    }

    /// Whether names with numbers follow.
    pub(crate) fn has_pairs(self) -> bool
        ensures { result ≡ has_pairs self }
    {
        matches!(
            self,
            EditKind::AddCol | EditKind::AddRow | EditKind::ReplaceRow
        )
    }
}
