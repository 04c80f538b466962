//! Where a node's requests come from.
ghost use Rattle.std.specs.Prelude.{◌≡◌, ℕ, List};
ghost use Rattle.artery_net.specs.declared.offer.Offer.{Offer};
ghost use Rattle.artery_net.specs.Feeding.{Gives};

use crate::offer::Offer;

/// What a feed answers.
#[derive(Debug, PartialEq, Eq, Drop)]
pub enum Fed {
    /// An offer of some sender.
    Item(Offer),
    /// Nothing was there at one moment of the call, and some sender has not finished.
    Empty,
    /// Each sender has finished.
    Ended,
}

/// Where the offers of senders come from.
pub trait Feed {
    /// How many senders there are. Their numbers are below this.
    ghost senders: { Self → ℕ };

    /// All offers given, in order.
    ghost given: { Self → List Offer };

    /// The next offer. `Ended` comes exactly where each sender's `Finished` was given before, and `Empty` only where nothing was there at one
    /// moment of the call.
    fn take(&mut self) -> Fed
        ensures gives { Gives (senders self.old) (given self.old) (given self.new) result }
        ensures senders { senders self.new ≡ senders self.old };
}
