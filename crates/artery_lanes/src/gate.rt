//! A gate, and its seats.
ghost use Rattle.std.specs.Prelude.{◌≡◌, ℕ, ◌+◌, ◌*◌, ◌%◌, ◌==◌, ◌<◌, ◌≤◌, true, false, [], length, IfOk, slice_index, replicate};
ghost use Rattle.atomic_table.specs.Seated.{TableId};
ghost use Rattle.artery_lanes.specs.Gate.{owner_view, stepped, loaded, observer, joined, spent as spent_view, IsLawful, SeatState, seat_of};

use crate::gate_view::SeatView;
use artery_base::NoMemory;
use atomic_table::{Join, Play, Split, Table, TableRule};
use std::alloc::Global;
use std::marker::Model;

/// The rule that the gate's table keeps, whatever the threads do.
pub struct GateRule;

impl TableRule<u64, SeatView, u64> for GateRule {
    ghost holds = { λ words s. IsLawful s };

    ghost first = { owner_view };
}

// The owner's step of a word.
struct Steps;

impl Play<u64, SeatView> for Steps {
    ghost then = { λ st m n k. (k.1 ≡ m.1) × (k.0 ≡ stepped st.word m.0) };
}

// A load of a word.
struct Loads;

impl Play<u64, SeatView> for Loads {
    ghost then = { λ st m n k. (k.1 ≡ m.1) × (k.0 ≡ loaded st.word n m.0) × (slice_index m.0.seen st.word ≤ n) };
}

// A seat is split, or takes in another.
struct Halves;

impl Split<SeatView> for Halves {
    ghost left = { λ v. v };

    ghost right = { observer };
}

impl Join<SeatView> for Halves {
    ghost both = { joined };

    ghost spent = { spent_view };
}

/// A row of words that the owner's seat steps and every seat reads. A contract sees which gate it is, and how many words it has.
#[derive(Drop)]
pub struct Gate {
    table: Table<u64, SeatView, u64, GateRule, Global>,
}

impl Model for Gate {
    ghost Value = { TableId };

    ghost view = { λ g. g.table.shared.table_id };

    ghost invariant = { λ g. 0 < g.table.shared.table_id.words };
}

/// The leave of one thread to use a gate. A contract sees of which gate it is, and what it knows: whether it is the owner's, the greatest
/// number that it has seen at each word, and how many loads it made.
#[derive(Drop)]
pub struct Seat {
    inner: atomic_table::Seat<u64, SeatView>,
}

impl Model for Seat {
    ghost Value = { SeatState };

    ghost view = { λ s. record { gate = s.inner.table_id; view = s.inner.me.0 } };

    ghost invariant = { λ s. s.inner.me.1 ≡ [] };
}

/// What a load of a word found: the number of steps that the owner has made on it, and whether that is odd. Where a word stands for an
/// address, and is stepped each time that an incarnation is learnt or closed there, `learnt` says that one is learnt and not closed.
#[derive(Clone, Copy, Debug, PartialEq, Eq)]
pub struct GateState {
    pub number: u64,
    pub learnt: bool,
}

impl Gate {
    /// A gate of 1 to 65 words that are 0, and the owner's seat. Fails only for want of memory.
    pub fn new(alloc: Global, words: usize) -> Result<(Gate, Seat), NoMemory>
        requires { (0 < words) × (words ≤ 65) }
        ensures words { IfOk result (λ r. r.0.words ≡ words) }
        ensures seat { IfOk result (λ r. r.1 ≡ seat_of r.0 (owner_view words)) }
    {
        let row = Vec::from_elem(alloc, 0u64, words)?;
        let (table, inner) = Table::of_words(alloc, row.as_slice(), &(words as u64))?;
        Ok((Gate { table }, Seat { inner }))
    }

    /// Steps a word. The seat is the owner's, and the word has fewer than 2,048 steps.
    pub fn step(&self, seat: &mut Seat, word: usize)
        requires gate { seat.old.gate ≡ self.now }
        requires word { word < self.now.words }
        requires owner { seat.old.view.owns ≡ true }
        requires few { slice_index seat.old.view.seen word < 2048 }
        ensures { seat.new ≡ seat_of self.now (stepped word seat.old.view) }
    {
        self.table
            .shared
            .fetch_add::<Steps>(&mut seat.inner, word, 1);
    }

    /// Loads a word, once. The number is never below what the seat has seen there before.
    pub fn state(&self, seat: &mut Seat, word: usize) -> GateState
        requires gate { seat.old.gate ≡ self.now }
        requires word { word < self.now.words }
        ensures view { seat.new ≡ seat_of self.now (loaded word result.number seat.old.view) }
        ensures later { slice_index seat.old.view.seen word ≤ result.number }
        ensures learnt { result.learnt ≡ (result.number % 2 == 1) }
    {
        let number = self.table.shared.load::<Loads>(&mut seat.inner, word);
        GateState {
            number,
            learnt: number % 2 == 1,
        }
    }

    /// Makes two seats of one. The first is the seat as it was, the owner's where it was that; the second may only read, has seen the same,
    /// and has made no load.
    #[tactic(auto, using(crate::proofs::GateSteps::splits))]
    pub fn split(&self, seat: Seat) -> (Seat, Seat)
        requires { seat.gate ≡ self.now }
        ensures left { result.0 ≡ seat }
        ensures right { result.1 ≡ seat_of self.now (observer seat.view) }
    {
        let Seat { mut inner } = seat;
        let other = self.table.shared.split_seat::<Halves>(&mut inner);
        (Seat { inner }, Seat { inner: other })
    }

    /// Ends a seat, which is not the owner's. The kept one has seen, at each word, the greater number of the two.
    #[tactic(auto, using(crate::proofs::GateSteps::joins))]
    pub fn join(&self, kept: Seat, ended: Seat) -> Seat
        requires gates { (kept.gate ≡ self.now) × (ended.gate ≡ self.now) }
        requires observer { ended.view.owns ≡ false }
        ensures { result ≡ seat_of self.now (joined kept.view ended.view) }
    {
        let Seat { mut inner } = kept;
        let Seat { inner: spent } = ended;
        self.table.shared.join_seat::<Halves>(&mut inner, spent);
        Seat { inner }
    }
}
