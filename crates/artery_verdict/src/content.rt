use artery_base::{NoMemory, Tell};
use artery_control::Control;
use artery_header::Envelope;
use artery_journal::Rule;

/// What a frame says.
#[derive(Debug, Drop)]
pub enum Content<'f> {
    /// A control message.
    Control(Control),
    /// An ordinary message, and the envelope in which it came.
    Ordinary {
        envelope: Envelope<'f>,
        message: Tell,
    },
}

/// Why nothing is told of what a frame says.
#[derive(Clone, Copy, Debug, PartialEq, Eq)]
pub enum NotSaid {
    /// The first rule that drops the frame.
    Dropped(Rule),
    /// There is no memory for what it says.
    NoMemory,
}

impl From<Rule> for NotSaid {
    ghost use Rattle.std.specs.Prelude.{◌≡◌};
    ghost use Rattle.artery_verdict.specs.declared.content.NotSaid.TheVariants as reasons;

    ghost from_gives = { λ rule e. e ≡ reasons.Dropped rule };

    fn from(rule: Rule) -> NotSaid {
        NotSaid::Dropped(rule)
    }
}

impl From<NoMemory> for NotSaid {
    ghost use Rattle.std.specs.Prelude.{◌≡◌};
    ghost use Rattle.artery_verdict.specs.declared.content.NotSaid.TheVariants as reasons;

    ghost from_gives = { λ _ e. e ≡ reasons.NoMemory };

    fn from(_error: NoMemory) -> NotSaid {
        NotSaid::NoMemory
    }
}
