//! A lane's taker as the feed of a node.
ghost use Rattle.std.specs.Prelude.{◌≡◌, ℕ, List};
ghost use Rattle.artery_net.specs.Feeding.{Gives};
ghost use Rattle.artery_lanes.specs.Calls.{given_of, EmptyOnlyAt};

use crate::taker::Taker;
use artery_net::{Fed, Feed};
use std::sync::Wait;

/// The feed over a lane's taker. It keeps the handle that a take needs: a take may wait for another thread that is at the queue.
#[derive(Drop)]
pub struct LaneFeed<R> {
    rt: R,
    pub taker: Taker,
}

impl<R: Wait> LaneFeed<R> {
    /// A feed over this taker. What the taker has taken counts as given.
    pub fn new(rt: R, taker: Taker) -> LaneFeed<R>
        ensures { result.taker ≡ taker }
    {
        LaneFeed { rt, taker }
    }
}

impl<R: Wait> Feed for LaneFeed<R> {
    ghost senders = { λ f. f.taker.made };

    ghost given = { λ f. given_of f.taker.got };

    /// The next offer of some sender. `Ended` comes exactly where the `Finished` of each was taken, and `Empty` only where the queue was empty
    /// at one moment of the call.
    #[tactic(auto, using(crate::proofs::FeedSteps::given_next))]
    fn take(&mut self) -> Fed
        ensures gives { Gives self.old.taker.made (given_of self.old.taker.got) (given_of self.new.taker.got) result }
        ensures senders { self.new.taker.made ≡ self.old.taker.made }
        ensures empty { EmptyOnlyAt self.old.taker result }
        ensures same { (self.new.taker.queue ≡ self.old.taker.queue) × (self.new.taker.ended ≡ self.old.taker.ended) }
    {
        if self.taker.has_ended() {
            return Fed::Ended;
        }
        match self.taker.take(&self.rt) {
            Some(offer) => Fed::Item(offer),
            None => Fed::Empty,
        }
    }
}
