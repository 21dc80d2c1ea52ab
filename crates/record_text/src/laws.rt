// Laws of records: what is written of a record is read as that record.
ghost use Rattle.std.specs.Prelude.{◌≡◌, ℕ, List, Ok};
ghost use Rattle.record_text.specs.declared.record.Record.{Record};
ghost use Rattle.record_text.specs.Fit.{HasText};
ghost use Rattle.record_text.specs.Reading.{record_of};
ghost use Rattle.record_text.specs.Texts.{record_text};

/// The text of a record is read as that record, where its names, numbers, tables and replies have the form
/// of a line's, it has a root, and each client at rest stands directly behind an entry; so no two such
/// records have the same text. And what is read as a record is the text of that record, byte for byte.
pub fn text_is_read()
    ensures back { (r : Record) → HasText r → record_of (record_text r) ≡ Ok r }
    ensures written { (text : List ℕ) (r : Record) → record_of text ≡ Ok r → record_text r ≡ text }
    ensures one { (r s : Record) → HasText r → HasText s → record_text r ≡ record_text s → r ≡ s }
{}
