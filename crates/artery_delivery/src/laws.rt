//! The laws that tie what is kept to the whole histories. Their functions do nothing.
ghost use Rattle.std.specs.Prelude.{◌≡◌, ℕ, false, List, []};
ghost use Rattle.artery_base.specs.declared.message.SysMsg.{SysMsg};
ghost use Rattle.artery_base.specs.declared.address.UniqueAddress.{UniqueAddress};
ghost use Rattle.artery_delivery.specs.Inbound.{opening, IsKnown, IsKnownAfter, with_origin, taking, with_taken, answer_to_open, opened, answer_to_take, taken, Stands as StandsFor};
ghost use Rattle.artery_delivery.specs.Outbound.{Kept, State, Stands, nothing_kept, acceptance, kept_accepted, kept_learnt, kept_forgotten, acknowledgement, kept_acknowledged, kept_refused, kept_rewound, next_to_write, kept_pumped, nothing_sent, unacknowledged, answer_to, accepted, learnt, forgotten, answer_to_ack, acknowledged, refused, rewound, next_sent, pumped};

/// What an `Outbound` keeps stands for the whole history: every call keeps it so and has the answer of the history's step.
pub fn keeping_stands()
    ensures start { Stands nothing_kept nothing_sent }
    ensures accept { (m : SysMsg) (k : Kept) (s : State) → Stands k s → Stands (kept_accepted m k) (accepted m s) }
    ensures answer { (m : SysMsg) (k : Kept) (s : State) → Stands k s → acceptance m k ≡ answer_to m s }
    ensures learn { (k : Kept) (s : State) → Stands k s → k.learnt ≡ false → Stands (kept_learnt k) (learnt s) }
    ensures forget { Stands kept_forgotten forgotten }
    ensures acked { (n : ℕ) (k : Kept) (s : State) → Stands k s → acknowledgement n k ≡ answer_to_ack n s }
    ensures ack { (n : ℕ) (k : Kept) (s : State) → Stands k s → Stands (kept_acknowledged n k) (acknowledged n s) }
    ensures nack { (n : ℕ) (k : Kept) (s : State) → Stands k s → Stands (kept_refused n k) (refused n s) }
    ensures rewind { (k : Kept) (s : State) → Stands k s → Stands (kept_rewound k) (rewound s) }
    ensures next { (k : Kept) (s : State) → Stands k s → next_to_write k ≡ next_sent s }
    ensures pump { (k : Kept) (s : State) → Stands k s → Stands (kept_pumped k) (pumped s) }
    ensures messages { (k : Kept) (s : State) → Stands k s → k.messages ≡ unacknowledged s }
{}

/// The numbers that an `Inbound` expects stand for the messages taken: every call keeps them so and has the answer of the whole lists' step.
#[tactic(auto, using(crate::proofs::Histories::opens_alike, crate::proofs::Histories::opened_alike, crate::proofs::Histories::takes_alike, crate::proofs::Histories::taken_alike))]
pub fn expecting_stands()
    ensures start { StandsFor [] [] }
    ensures opens { (origin : UniqueAddress) (entries : List (UniqueAddress × ℕ)) (all : List (UniqueAddress × List SysMsg)) → StandsFor entries all → opening origin entries ≡ answer_to_open origin all }
    ensures open { (origin : UniqueAddress) (entries : List (UniqueAddress × ℕ)) (all : List (UniqueAddress × List SysMsg)) → StandsFor entries all → StandsFor (with_origin origin entries) (opened origin all) }
    ensures takes { (origin : UniqueAddress) (n : ℕ) (entries : List (UniqueAddress × ℕ)) (all : List (UniqueAddress × List SysMsg)) → StandsFor entries all → taking origin n entries ≡ answer_to_take origin n all }
    ensures take { (origin : UniqueAddress) (n : ℕ) (m : SysMsg) (entries : List (UniqueAddress × ℕ)) (all : List (UniqueAddress × List SysMsg)) → StandsFor entries all → StandsFor (with_taken origin n entries) (taken origin n m all) }
{}

/// An origin that was opened is known, and every origin that is known stays so.
#[tactic(auto, using(crate::proofs::Origins::known_after, crate::proofs::Origins::stays_known_open, crate::proofs::Origins::stays_known_take))]
pub fn origins_stay_known()
    ensures opened { (origin : UniqueAddress) (entries : List (UniqueAddress × ℕ)) → IsKnownAfter (opening origin entries) origin (with_origin origin entries) }
    ensures open { (origin other : UniqueAddress) (entries : List (UniqueAddress × ℕ)) → IsKnown other entries → IsKnown other (with_origin origin entries) }
    ensures take { (origin other : UniqueAddress) (n : ℕ) (entries : List (UniqueAddress × ℕ)) → IsKnown other entries → IsKnown other (with_taken origin n entries) }
{}
