//! Laws of the texts of lines. Their functions do nothing.
ghost use Rattle.std.specs.Prelude.{◌≡◌, ℕ, List, Some};
ghost use Rattle.artery_journal.specs.declared.line.Line.{Line as LineValue};
ghost use Rattle.artery_journal.specs.declared.stamped.Stamped.{Stamped as StampedValue};
ghost use Rattle.artery_journal.specs.Texts.{line_text, stamped_text};
ghost use Rattle.artery_journal.specs.Valid.{IsLine, IsStamped, HasBytes};
ghost use Rattle.artery_journal_reading.specs.Reading.{line_of, stamped_of};

use artery_text::{readings_are_spelled, spellings_are_read, spellings_are_tokens};

/// A law, with no code: the text of a line tells it, and a text that tells a line is that line's
/// text. The same holds of the lines of form 2.
pub fn lines_are_spelled()
    ensures told { (l : LineValue) → IsLine l → HasBytes l → line_of (line_text l) ≡ Some l }
    ensures read { (text : List ℕ) (l : LineValue) → line_of text ≡ Some l → IsLine l × (text ≡ line_text l) }
    ensures stamped_told { (s : StampedValue) → IsStamped s → HasBytes s.line → stamped_of (stamped_text s) ≡ Some s }
    ensures stamped_read { (text : List ℕ) (s : StampedValue) → stamped_of text ≡ Some s → IsStamped s × (text ≡ stamped_text s) }
{
    spellings_are_read();
    readings_are_spelled();
    spellings_are_tokens();
}
