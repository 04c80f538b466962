//! What holds of a connection over any list of calls. The functions do nothing.
ghost use Rattle.std.specs.Prelude.{◌≡◌, ◌⊎◌, ℕ, List, [], ◌∷◌, Option};
ghost use Rattle.artery_base.specs.declared.address.UniqueAddress.{UniqueAddress};
ghost use Rattle.artery_handshake.specs.Runs.{OutCall, conn_after, BindsWithin, state_after};
ghost use Rattle.artery_handshake.specs.declared.out_conn.OutConn.{OutConn};
ghost use Rattle.artery_handshake.specs.declared.out_conn.OutState.TheVariants.{Bound};
ghost use Rattle.artery_handshake.specs.declared.in_conn.InState.TheVariants.{Raw, Known};

/// Only an answer to which the connection says Bind makes it bound, to the UID that Bind has. A bound connection stays bound to its UID under
/// every list of calls, and no call changes the dial number and the stream.
#[tactic(auto, using(crate::proofs::Bindings::bound_by, crate::proofs::Bindings::stays_bound, crate::proofs::Bindings::same_dial, crate::proofs::Bindings::same_stream))]
pub fn only_bind_binds()
    ensures only { (uid : ℕ) (calls : List OutCall) (c : OutConn) → (conn_after calls c).state ≡ Bound uid → (c.state ≡ Bound uid) ⊎ BindsWithin uid calls c }
    ensures stays { (uid : ℕ) (calls : List OutCall) (c : OutConn) → c.state ≡ Bound uid → (conn_after calls c).state ≡ Bound uid }
    ensures dial { (calls : List OutCall) (c : OutConn) → (conn_after calls c).dial ≡ c.dial }
    ensures stream { (calls : List OutCall) (c : OutConn) → (conn_after calls c).stream ≡ c.stream }
{}

/// The first request on a connection that came in says for ever of whom it is.
#[tactic(auto, using(crate::proofs::Bindings::stays_known))]
pub fn known_for_ever()
    ensures first { (origin : UniqueAddress) (nonce : Option ℕ) (requests : List (UniqueAddress × Option ℕ)) → state_after ((origin, nonce) ∷ requests) Raw ≡ Known origin nonce }
    ensures stays { (origin : UniqueAddress) (nonce : Option ℕ) (requests : List (UniqueAddress × Option ℕ)) → state_after requests (Known origin nonce) ≡ Known origin nonce }
{}
