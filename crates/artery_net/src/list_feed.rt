//! A feed in memory.
ghost use Rattle.std.specs.Prelude.{◌≡◌, ◌++◌, []};
ghost use Rattle.artery_net.specs.declared.feed.Fed.TheVariants as fed;
ghost use Rattle.artery_net.specs.Feeding.{Gives, AreWhole, ListState, GivesFirst, before};

use crate::feed::{Fed, Feed};
use crate::offer::Offer;
use crate::offers::Offers;
use std::collections::VecDeque;
use std::marker::Model;
use std::snapshot::Snapshot;

/// A feed that gives a list of offers and then says that it has ended. It is never empty before. A contract sees how many senders there are,
/// what was given and what is left.
#[derive(Drop)]
pub struct ListFeed {
    senders: u32,
    left: VecDeque<Offer>,
    // The whole list as contracts see it. It takes no memory.
    all: Snapshot<Offers>,
}

impl Model for ListFeed {
    ghost Value = { ListState };

    ghost view = { λ f. record { senders = f.senders; given = before f.all.value f.left.items; left = f.left.items } };

    ghost invariant = { λ f. (before f.all.value f.left.items ++ f.left.items ≡ f.all.value) × AreWhole f.senders (before f.all.value f.left.items) f.left.items };
}

impl ListFeed {
    /// A feed of these offers. Senders are numbered below `senders`, and the `Finished` of each stands in the list once, after all its other
    /// offers. Takes no memory.
    #[tactic(auto, using(crate::proofs::Feeds::none_before))]
    pub fn new(offers: Offers, senders: u32) -> ListFeed
        requires { AreWhole senders [] offers }
        ensures { result ≡ record { senders = senders; given = []; left = offers } }
    {
        let all = Snapshot::of(&offers);
        ListFeed {
            senders,
            left: VecDeque::from_vec(offers.into_vec()),
            all,
        }
    }
}

impl Feed for ListFeed {
    ghost senders = { λ f. f.senders };

    ghost given = { λ f. f.given };

    /// The first offer of those that are left, and `Ended` where none is.
    #[tactic(auto, using(crate::proofs::Feeds::given_next, crate::proofs::Feeds::kept_next, crate::proofs::Feeds::whole_next, crate::proofs::Feeds::not_ended, crate::proofs::Feeds::ended))]
    fn take(&mut self) -> Fed
        ensures gives { Gives self.old.senders self.old.given self.new.given result }
        ensures senders { self.new.senders ≡ self.old.senders }
        ensures first { GivesFirst self.old.left self.new.left result }
    {
        match self.left.pop_front() {
            None => Fed::Ended,
            Some(offer) => Fed::Item(offer),
        }
    }
}
