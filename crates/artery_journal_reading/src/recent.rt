//! Incarnations that were read last, with their texts: most lines name the same ones as the line before, and then need not be read anew.
ghost use Rattle.std.specs.Prelude.{◌≡◌, Some, IfOk, IfSome, IsTrue};
ghost use Rattle.artery_lines.specs.Lines.{Tells};
ghost use Rattle.artery_journal_reading.specs.Reading.{unique_told};

use artery_base::{NoMemory, UniqueAddress};
use artery_lines::LineFault;
use artery_text::read_unique;
use std::alloc::Global;

/// An incarnation, and the text that tells it.
#[derive(Drop)]
struct Known<'a> {
    text: &'a [u8],
    unique: UniqueAddress,
    ghost told: { unique_told text.now ≡ Some unique },
}

/// At most two incarnations, those of the texts that were read last.
#[derive(Drop)]
pub(crate) struct Recent<'a> {
    keeps: bool,
    first: Option<Known<'a>>,
    second: Option<Known<'a>>,
    first_is_older: bool,
}

#[tactic(auto, using(crate::proofs::Told::tells_unique))]
fn unique_from(alloc: Global, text: &[u8]) -> Result<UniqueAddress, LineFault>
    ensures { Tells result (unique_told text.now) }
{
    Ok(read_unique(alloc, text)?)
}

impl<'a> Known<'a> {
    // Whether a text is its own.
    fn has_text(&self, text: &[u8]) -> bool
        ensures { IsTrue result → self.now.text.now ≡ text.now }
    {
        self.text == text
    }
}

// The incarnation, copied, where the text is its own.
fn copied_for(known: &Option<Known<'_>>, text: &[u8]) -> Result<Option<UniqueAddress>, NoMemory>
    ensures { IfOk result (λ found. IfSome found (λ unique. unique_told text.now ≡ Some unique)) }
{
    let Some(known) = known else {
        return Ok(None);
    };
    if !known.has_text(text) {
        return Ok(None);
    }
    let unique = known.unique.clone()?;
    Ok(Some(unique))
}

impl<'a> Recent<'a> {
    /// None, of a journal that begins.
    pub(crate) fn new() -> Recent<'a> {
        Recent {
            keeps: true,
            first: None,
            second: None,
            first_is_older: true,
        }
    }

    /// None, of a line that stands alone: what it names is not kept.
    pub(crate) fn none() -> Recent<'a> {
        Recent {
            keeps: false,
            first: None,
            second: None,
            first_is_older: true,
        }
    }

    // Keeps what a text tells, in the place of what was read longer ago.
    fn keep(&mut self, text: &'a [u8], unique: &UniqueAddress) -> Result<(), NoMemory>
        requires { unique_told text.now ≡ Some unique.now }
    {
        if !self.keeps {
            return Ok(());
        }
        let unique = unique.clone()?;
        let known = Known { text, unique };
        if self.first_is_older {
            self.first = Some(known);
        } else {
            self.second = Some(known);
        }
        self.first_is_older = !self.first_is_older;
        Ok(())
    }

    /// The incarnation that a text tells.
    pub(crate) fn unique(
        &mut self,
        alloc: Global,
        text: &'a [u8],
    ) -> Result<UniqueAddress, LineFault>
        ensures { Tells result (unique_told text.now) }
    {
        if let Some(unique) = copied_for(&self.first, text)? {
            self.first_is_older = false;
            return Ok(unique);
        }
        if let Some(unique) = copied_for(&self.second, text)? {
            self.first_is_older = true;
            return Ok(unique);
        }
        let unique = unique_from(alloc, text)?;
        self.keep(text, &unique)?;
        Ok(unique)
    }
}
