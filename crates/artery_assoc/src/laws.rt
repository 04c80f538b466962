//! What holds of a peer over any list of calls. The function does nothing.
ghost use Rattle.std.specs.Prelude.{◌≡◌, ℕ, true, List, Some};
ghost use Rattle.artery_assoc.specs.Peer.{PeerState, PeerCall, is_closed, learning, peer_learnt, peer_closed, peer_after, closing};
ghost use Rattle.artery_assoc.specs.declared.peer.Close.TheVariants.{AlreadyClosed, Closed};
ghost use Rattle.artery_assoc.specs.declared.peer.Learn.TheVariants.{WasClosed, Learnt};

/// A closed UID is WasClosed to `learn` and AlreadyClosed to `close`, and stays closed under every list of calls. The former UID that
/// `learn` tells, and the one that `close` closes, are closed.
#[tactic(auto, using(crate::proofs::ForEver::stays_closed, crate::proofs::ForEver::former_is_closed, crate::proofs::ForEver::closed_is_closed))]
pub fn closed_for_ever()
    ensures learn { (uid : ℕ) (p : PeerState) → is_closed uid p ≡ true → learning uid p ≡ WasClosed }
    ensures close { (uid : ℕ) (p : PeerState) → is_closed uid p ≡ true → closing uid p ≡ AlreadyClosed }
    ensures stays { (uid : ℕ) (p : PeerState) (calls : List PeerCall) → is_closed uid p ≡ true → is_closed uid (peer_after calls p) ≡ true }
    ensures never { (uid : ℕ) (p : PeerState) (calls : List PeerCall) → is_closed uid p ≡ true → learning uid (peer_after calls p) ≡ WasClosed }
    ensures former { (uid former : ℕ) (p : PeerState) → learning uid p ≡ Learnt (Some former) → is_closed former (peer_learnt uid p) ≡ true }
    ensures closed { (uid : ℕ) (p : PeerState) → closing uid p ≡ Closed → is_closed uid (peer_closed uid p) ≡ true }
{}
