ghost use Rattle.std.specs.Prelude.{◌≡◌, ℕ, ◌<◌, ◌≤◌, ◌==◌, [], ◌∷◌, length, take, drop, position, IfSome, IfNone};
ghost use Rattle.artery_lines.specs.Lines.{is_space, tokens_of};

use std::marker::Model;

/// The tokens of a line that are left to read, in order. Each space parts two tokens, and a token
/// may be empty, so a line of n spaces has n + 1 tokens.
#[derive(Drop)]
pub struct Tokens<'a> {
    text: &'a [u8],
    ended: bool,
}

impl<'a> Model for Tokens<'a> {
    ghost use Rattle.std.specs.Prelude.{ℕ, List, [], if◌then◌else◌};
    ghost use Rattle.artery_lines.specs.Lines.{tokens_of};

    ghost Value = { List (List ℕ) };

    ghost view = { λ t. if t.ended then [] else tokens_of t.text.now };
}

impl<'a> Tokens<'a> {
    /// All tokens of a line.
    pub fn new(line: &'a [u8]) -> Tokens<'a>
        ensures { result ≡ tokens_of line.now }
    {
        Tokens {
            text: line,
            ended: false,
        }
    }

    /// Takes the next token; `None` where there is none.
    #[tactic(auto, using(crate::proofs::Cuts::cut_at, crate::proofs::Cuts::cut_none))]
    pub fn next(&mut self) -> Option<&'a [u8]>
        ensures some { IfSome result (λ token. self.old ≡ token.now ∷ self.new) }
        ensures none { IfNone result (self.old ≡ []) }
    {
        if self.ended {
            return None;
        }
        let text = self.text;
        let Some(at) = find_space(text) else {
            self.ended = true;
            return Some(text);
        };
        self.text = after(text, at + 1);
        Some(before(text, at))
    }

    /// Whether no token is left.
    #[tactic(auto, using(crate::proofs::Cuts::cuts_some))]
    pub fn is_empty(&self) -> bool
        ensures { result ≡ (length self.now == 0) }
    {
        self.ended
    }
}

// The first `at` bytes of a text.
pub(crate) fn before(text: &[u8], at: usize) -> &[u8]
    requires { at ≤ length text.now }
    ensures { result.now ≡ take at text.now }
{
    &text[..at]
}

// What stands behind the first `at` bytes of a text.
pub(crate) fn after(text: &[u8], at: usize) -> &[u8]
    requires { at ≤ length text.now }
    ensures { result.now ≡ drop at text.now }
{
    &text[at..]
}

fn find_space(text: &[u8]) -> Option<usize>
    ensures found { result ≡ position is_space text.now }
    ensures within { IfSome result (λ at. at < length text.now) }
{
    text.iter().position(|byte| *byte == b' ')
}
