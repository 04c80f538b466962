//! The judge: what it keeps of the lines taken so far.
ghost use Rattle.std.specs.Prelude.{◌≡◌, ℕ, Option, None, List, [], ◌∷◌, ◌++◌, OnOk, IfOk, IfSome, Ok, Some};
ghost use Rattle.artery_judge.specs.Lines.{Entry, of as of_line, is_stopped as stops, is_started as starts};
ghost use Rattle.artery_judge.specs.Laws.{broken_law};
ghost use Rattle.artery_judge.specs.Kept.{Stands, Takes, finds_prefix, finds_closed, finds_watch, finds_ordinary, finds_stopped, finds_moment, found_law};
ghost use Rattle.artery_judge.specs.Lines.{says_took, says_got, deals as dealings};
ghost use Rattle.artery_judge.specs.Views.{kept, node_at};

use crate::nodes::{Node, Nodes};
use crate::sent::Sent;
use crate::sets::{ClosedPairs, Watches};
use crate::told::Told;
use crate::verdict::Law;
use artery_base::{NoMemory, UniqueAddress};
use artery_journal::Line;
use std::alloc::Global;
use std::marker::Model;

/// The incarnation whose line it is.
fn of(line: &Line) -> &UniqueAddress
    ensures { result.now ≡ of_line line.now }
{
    match line {
        Line::Started { of }
        | Line::Stopped { of }
        | Line::Learnt { of, .. }
        | Line::Closed { of, .. }
        | Line::Sent { of, .. }
        | Line::Took { of, .. }
        | Line::Again { of, .. }
        | Line::Gap { of, .. }
        | Line::Told { of, .. }
        | Line::Got { of, .. }
        | Line::Dropped { of, .. }
        | Line::Stray { of, .. }
        | Line::Barred { of, .. }
        | Line::Notice { of, .. }
        | Line::Watched { of, .. }
        | Line::Unwatched { of, .. }
        | Line::Terminated { of, .. }
        | Line::Refused { of, .. }
        | Line::Spawned { of, .. }
        | Line::Ended { of, .. }
        | Line::Advertised { of, .. }
        | Line::Adopted { of, .. }
        | Line::Skipped { of, .. }
        | Line::Idle { of, .. } => of,
    }
}

/// Whether it is a line `a stopped`.
fn is_stopped(line: &Line) -> bool
    ensures { result ≡ stops line.now }
{
    match line {
        Line::Stopped { .. } => true,
        _ => false,
    }
}

/// Whether it is a line `a started`.
fn is_started(line: &Line) -> bool
    ensures { result ≡ starts line.now }
{
    match line {
        Line::Started { .. } => true,
        _ => false,
    }
}

/// Judges the lines of a journal one after the other.
///
/// It stands for the lines that it has taken, none of which broke a law. It borrows them, and keeps no copy of a message.
#[derive(Drop)]
pub struct Judge<'a> {
    sent: Sent<'a>,
    told: Told<'a>,
    closed: ClosedPairs<'a>,
    began: Watches<'a>,
    ended: Watches<'a>,
    nodes: Nodes<'a>,
}

impl<'a> Model for Judge<'a> {
    ghost use Rattle.artery_judge.specs.Views.{Tables};

    ghost Value = { Tables };

    ghost view = { λ j. record { sent = j.sent; told = j.told; closed = j.closed; began = j.began; ended = j.ended; nodes = j.nodes } };
}

impl<'a> Judge<'a> {
    /// A judge that has taken no line. Takes no memory.
    pub fn new(alloc: Global) -> Judge<'a>
        ensures { Stands (kept result) [] }
    {
        Judge {
            sent: Sent::new(alloc),
            told: Told::new(alloc),
            closed: ClosedPairs::new(alloc),
            began: Watches::new(alloc),
            ended: Watches::new(alloc),
            nodes: Nodes::new(alloc),
        }
    }

    /// Whether a line breaks the prefix law.
    fn breaks_prefix(&self, line: &'a Line) -> bool
        ensures { result ≡ finds_prefix (kept self.now) (says_took line.now) }
    {
        match line {
            Line::Took {
                of,
                other,
                n,
                message,
            } => !self.sent.is_next(other, of, *n, message),
            _ => false,
        }
    }

    /// Whether a line breaks the close law.
    fn breaks_closed(&self, line: &'a Line) -> bool
        ensures { result ≡ finds_closed (kept self.now) (dealings line.now) }
    {
        match line {
            Line::Learnt { of, other }
            | Line::Closed { of, other, .. }
            | Line::Sent { of, other, .. }
            | Line::Took { of, other, .. }
            | Line::Again { of, other, .. }
            | Line::Gap { of, other, .. }
            | Line::Told { of, other, .. }
            | Line::Got { of, other, .. } => self.closed.has(of, other),
            _ => false,
        }
    }

    /// Whether a line breaks the watch law.
    fn breaks_watch(&self, line: &'a Line) -> bool
        ensures { result ≡ finds_watch (kept self.now) line.now }
    {
        match line {
            Line::Watched { of, id, .. } => self.began.has(of, *id),
            Line::Unwatched { of, id } | Line::Terminated { of, id } => {
                !(self.began.has(of, *id) && !self.ended.has(of, *id))
            }
            _ => false,
        }
    }

    /// Whether a line breaks the ordinary law.
    fn breaks_ordinary(&self, line: &'a Line) -> bool
        ensures { result ≡ finds_ordinary (kept self.now) (says_got line.now) }
    {
        match line {
            Line::Got { nonce: None, .. } => true,
            Line::Got {
                of,
                other,
                nonce: Some(dial),
                message,
            } => !self.told.has(other, of, *dial, message),
            _ => false,
        }
    }

    /// What is kept of the incarnation whose line it is.
    fn node(&self, line: &'a Line) -> Option<Node>
        ensures { result ≡ node_at (of_line line.now) self.now.nodes }
    {
        self.nodes.get(of(line))
    }

    /// Whether a line breaks the stopped law, as what is kept of its incarnation tells.
    fn breaks_stopped(&self, node: Option<Node>, line: &'a Line) -> bool
        requires { node ≡ node_at (of_line line.now) self.now.nodes }
        ensures { result ≡ finds_stopped (kept self.now) line.now }
    {
        match node {
            Some(node) => node.stopped || is_started(line),
            None => false,
        }
    }

    /// Whether a line breaks the moment law, as what is kept of its incarnation tells.
    fn breaks_moment(&self, node: Option<Node>, moment: Option<u64>, line: &'a Line) -> bool
        requires { node ≡ node_at (of_line line.now) self.now.nodes }
        ensures { result ≡ finds_moment (kept self.now) (moment, line.now) }
    {
        let Some(moment) = moment else {
            return false;
        };
        match node {
            Some(node) => moment < node.moment,
            None => false,
        }
    }

    /// The first law that the next line, with its moment if it has one, would break after those taken, and None where it would break
    /// none. Takes nothing, and no memory.
    pub fn breaks(&self, moment: Option<u64>, line: &'a Line) -> Option<Law>
        ensures { (before : List Entry) → Stands (kept self.now) before → result ≡ broken_law before (moment, line.now) }
    {
        let node = self.node(line);
        self.breaks_beside(node, moment, line)
    }

    /// The same, where it is known what is kept of the line's incarnation.
    fn breaks_beside(&self, node: Option<Node>, moment: Option<u64>, line: &'a Line) -> Option<Law>
        requires { node ≡ node_at (of_line line.now) self.now.nodes }
        ensures { (before : List Entry) → Stands (kept self.now) before → result ≡ broken_law before (moment, line.now) }
    {
        self.first(node, moment, line)
    }

    /// The first law that a line breaks, as what is kept tells, of its incarnation this.
    fn first(&self, node: Option<Node>, moment: Option<u64>, line: &'a Line) -> Option<Law>
        requires { node ≡ node_at (of_line line.now) self.now.nodes }
        ensures { result ≡ found_law (kept self.now) (moment, line.now) }
    {
        if self.breaks_prefix(line) {
            return Some(Law::Prefix);
        }
        if self.breaks_closed(line) {
            return Some(Law::Closed);
        }
        if self.breaks_watch(line) {
            return Some(Law::Watch);
        }
        if self.breaks_ordinary(line) {
            return Some(Law::Ordinary);
        }
        if self.breaks_stopped(node, line) {
            return Some(Law::Stopped);
        }
        if self.breaks_moment(node, moment, line) {
            return Some(Law::Moment);
        }
        None
    }

    /// Takes the next line, with its moment if it has one, which breaks no law. Without memory the judge stands for no lines any more.
    pub fn take(
        &mut self,
        alloc: Global,
        moment: Option<u64>,
        line: &'a Line,
    ) -> Result<(), NoMemory>
        ensures { OnOk result ((before : List Entry) → Stands (kept self.old) before → broken_law before (moment, line.now) ≡ None → Stands (kept self.new) (before ++ (moment, line.now) ∷ [])) }
    {
        self.take_beside(alloc, None, moment, line)
    }

    /// The same, where it may be known what is kept of the line's incarnation.
    #[tactic(auto, using(crate::proofs::Standing::takes_stands))]
    fn take_beside(
        &mut self,
        alloc: Global,
        node: Option<Node>,
        moment: Option<u64>,
        line: &'a Line,
    ) -> Result<(), NoMemory>
        requires { IfSome node (λ n. node_at (of_line line.now) self.old.nodes ≡ Some n) }
        ensures { OnOk result ((before : List Entry) → Stands (kept self.old) before → broken_law before (moment, line.now) ≡ None → Stands (kept self.new) (before ++ (moment, line.now) ∷ [])) }
    {
        self.keep(alloc, node, moment, line)?;
        Ok(())
    }

    /// Takes the next line unless it breaks a law, and answers the first law that it breaks.
    pub(crate) fn judge(
        &mut self,
        alloc: Global,
        moment: Option<u64>,
        line: &'a Line,
    ) -> Result<Option<Law>, NoMemory>
        ensures law { (before : List Entry) → Stands (kept self.old) before → IfOk result (λ law. law ≡ broken_law before (moment, line.now)) }
        ensures taken { (before : List Entry) → Stands (kept self.old) before → result ≡ Ok None → Stands (kept self.new) (before ++ (moment, line.now) ∷ []) }
    {
        let node = self.node(line);
        let broken = self.breaks_beside(node, moment, line);
        if broken.is_some() {
            return Ok(broken);
        }
        self.take_beside(alloc, node, moment, line)?;
        Ok(None)
    }

    /// Keeps what a line tells, of whose incarnation it is known what is kept, if that is told.
    fn keep(
        &mut self,
        alloc: Global,
        node: Option<Node>,
        moment: Option<u64>,
        line: &'a Line,
    ) -> Result<(), NoMemory>
        requires { IfSome node (λ n. node_at (of_line line.now) self.old.nodes ≡ Some n) }
        ensures { OnOk result (Takes (moment, line.now) (kept self.old) (kept self.new)) }
    {
        self.nodes
            .note_beside(node, of(line), is_stopped(line), moment.unwrap_or(0))?;
        match line {
            Line::Sent {
                of,
                other,
                n,
                message,
            } => self.sent.push(alloc, of, other, *n, message)?,
            Line::Took { of, other, .. } => self.sent.pop(of, other),
            Line::Told {
                of,
                other,
                dial,
                message,
            } => self.told.push(alloc, of, other, *dial, message)?,
            Line::Got {
                of,
                other,
                nonce: Some(dial),
                message,
            } => self.told.skip_past(of, other, *dial, message),
            Line::Closed { of, other, .. } => self.closed.add(of, other)?,
            Line::Watched { of, id, .. } => self.began.add(of, *id)?,
            Line::Unwatched { of, id } | Line::Terminated { of, id } => self.ended.add(of, *id)?,
            _ => {}
        }
        Ok(())
    }
}
