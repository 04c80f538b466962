ghost use Rattle.std.specs.Prelude.{◌≡◌, ℕ, ◌<◌, [], ◌∷◌, length, position, IfSome, IfNone, not, nat_lt};
ghost use Rattle.artery_lines.specs.Lines.{most_lines};
ghost use Rattle.artery_lines.specs.Lines.{is_feed, lines_of};

use crate::tokens::{after, before};
use std::marker::Model;

/// The most lines of a text that is read as a whole.
pub const MOST_LINES: usize = 1_000_000;

/// The lines of a text that are left to read, in order, without their line feeds. The last line
/// may lack its line feed; behind the last line feed there is no empty line.
#[derive(Drop)]
pub struct TextLines<'a> {
    text: &'a [u8],
}

impl<'a> Model for TextLines<'a> {
    ghost use Rattle.std.specs.Prelude.{ℕ, List};
    ghost use Rattle.artery_lines.specs.Lines.{lines_of};

    ghost Value = { List (List ℕ) };

    ghost view = { λ l. lines_of l.text.now };
}

impl<'a> TextLines<'a> {
    /// All lines of a text.
    pub fn new(text: &'a [u8]) -> TextLines<'a>
        ensures { result ≡ lines_of text.now }
    {
        TextLines { text }
    }

    /// Takes the next line; `None` where there is none.
    #[tactic(auto, using(crate::proofs::Cuts::line_at, crate::proofs::Cuts::line_last, crate::proofs::Cuts::no_line))]
    pub fn next(&mut self) -> Option<&'a [u8]>
        ensures some { IfSome result (λ line. self.old ≡ line.now ∷ self.new) }
        ensures none { IfNone result (self.old ≡ []) }
    {
        let text = self.text;
        if text.is_empty() {
            return None;
        }
        let Some(at) = find_feed(text) else {
            self.text = after(text, text.len());
            return Some(text);
        };
        self.text = after(text, at + 1);
        Some(before(text, at))
    }
}

fn find_feed(text: &[u8]) -> Option<usize>
    ensures found { result ≡ position is_feed text.now }
    ensures within { IfSome result (λ at. at < length text.now) }
{
    text.iter().position(|byte| *byte == b'\n')
}

/// Whether a text has at most 1,000,000 lines.
pub fn has_few_lines(text: &[u8]) -> bool
    ensures { result ≡ not (nat_lt most_lines (length (lines_of text.now))) }
{
    let mut left = TextLines::new(text);
    let mut count = 0;
    while let Some(_line) = left.next() {
        if count == MOST_LINES {
            return false;
        }
        count += 1;
    }
    true
}
