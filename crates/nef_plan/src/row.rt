//! Rows of operations of one kind, of which each has the set of the one before as its first operand.

ghost use Rattle.std.specs.Prelude.{◌≡◌, ◌⊎◌, ◌<◌, ◌≤◌, ◌∷◌, ◌++◌};
ghost use Rattle.nef_plan.specs.Prelude.{ℕ, true, IfOk, OnOk, List, length, [], Set, node_set, set_of, operand, IsOperand, NamesBelow, AreOfOneKind, BeginsWith, PartsAreReady, IsNodeReady, IsRowOf, combined, joined, row_parts, spare, IsMadeAs, IsMade, Drafts as State};

use crate::OutOfMemory;
use nef_expr::Node;
use std::alloc::Global;

/// The most parts beside the last that a row has where its operation is put off: so each line joins few.
pub(crate) const MOST_PARTS: usize = 64;

/// What the operations of a row make.
#[derive(Clone, Copy)]
pub(crate) enum RowKind {
    /// The union of the parts.
    Union,
    /// The symmetric difference of the parts.
    Exclusive,
    /// The node `from` without the union of the parts.
    Difference { from: usize },
}

/// A row that isn't worked yet. Its parts are the sets of the other nodes, in order, and of the last.
#[derive(Drop)]
pub(crate) struct Row {
    pub(crate) kind: RowKind,
    pub(crate) others: Vec<usize>,
    pub(crate) last: usize,
}

/// What is known of a node of the script.
#[derive(Drop)]
pub(crate) enum Bound {
    /// No name is bound to it so far.
    No,
    /// Its set is made.
    Made,
    /// Its set is that of the row, which is worked when the set is wanted.
    Deferred(Row),
}

impl RowKind {
    /// Whether both are of one kind, whatever they are differences from.
    pub(crate) fn is_like(self, other: RowKind) -> bool
        ensures like { result ≡ true → AreOfOneKind self other }
    {
        matches!(
            (self, other),
            (RowKind::Union, RowKind::Union)
                | (RowKind::Exclusive, RowKind::Exclusive)
                | (RowKind::Difference { .. }, RowKind::Difference { .. })
        )
    }

    /// The node that makes the set of two parts.
    pub(crate) fn join(self, first: usize, second: usize) -> Node
        ensures set { (ss : List Set) → set_of ss result ≡ joined self (operand ss first) (operand ss second) }
        ensures within { (n : ℕ) → first < n → second < n → NamesBelow n result }
        ensures operands { (k : ℕ) → IsOperand k result → (k ≡ first) ⊎ (k ≡ second) }
        ensures first { IsOperand first result }
    {
        match self {
            RowKind::Exclusive => Node::Xor(first, second),
            RowKind::Union | RowKind::Difference { .. } => Node::Or(first, second),
        }
    }
}

impl Row {
    /// The row of one operation of the kind.
    pub(crate) fn begun(
        alloc: Global,
        kind: RowKind,
        first: usize,
        second: usize,
    ) -> Result<Row, OutOfMemory>
        requires begins { BeginsWith kind first }
        ensures few { IfOk result (λ r. length r.others.items ≤ 1) }
        ensures row { IfOk result (λ r. (plan : State) (k : ℕ) → k < length plan.nodes → IsNodeReady plan first → IsNodeReady plan second → node_set plan.nodes k ≡ combined kind (node_set plan.nodes first) (node_set plan.nodes second) → IsRowOf plan r k) }
    {
        let mut others = Vec::new(alloc);
        match kind {
            RowKind::Union | RowKind::Exclusive => others.push(first)?,
            RowKind::Difference { .. } => (),
        }
        Ok(Row {
            kind,
            others,
            last: second,
        })
    }

    /// A copy of the row.
    pub(crate) fn copied(&self, alloc: Global) -> Result<Row, OutOfMemory>
        ensures kind { IfOk result (λ r. r.kind ≡ self.now.kind) }
        ensures others { IfOk result (λ r. r.others.items ≡ self.now.others.items) }
        ensures last { IfOk result (λ r. r.last ≡ self.now.last) }
    {
        Ok(Row {
            kind: self.kind,
            others: Vec::from_slice(alloc, self.others.as_slice())?,
            last: self.last,
        })
    }

    /// Adds a part behind the others.
    pub(crate) fn add(&mut self, part: usize) -> Result<(), OutOfMemory>
        ensures kind { self.new.kind ≡ self.old.kind }
        ensures others { OnOk result (self.new.others.items ≡ self.old.others.items ++ self.old.last ∷ []) }
        ensures last { OnOk result (self.new.last ≡ part) }
    {
        self.others.push(self.last)?;
        self.last = part;
        Ok(())
    }

    /// How many parts beside the last the operation that ends the row takes.
    pub(crate) fn spare(&self) -> usize
        ensures spare { result ≡ spare self.now.kind }
    {
        match self.kind {
            RowKind::Union | RowKind::Exclusive => 1,
            RowKind::Difference { .. } => 0,
        }
    }

    /// The operation that ends the row, when its other parts are joined.
    pub(crate) fn ending(&self) -> Node
        requires few { length self.now.others.items ≤ spare self.now.kind }
        ensures made { (plan : State) (k : ℕ) → IsRowOf plan self.now k → IsMadeAs plan.nodes k result }
        ensures operands { (plan : State) (k : ℕ) → PartsAreReady plan self.now.kind (row_parts self.now) → IsOperand k result → IsMade plan.steps.items k }
    {
        let last = self.last;
        match self.kind {
            RowKind::Difference { from } => Node::Diff(from, last),
            RowKind::Union | RowKind::Exclusive => match self.others.last() {
                Some(part) => self.kind.join(*part, last),
                None => Node::Or(last, last),
            },
        }
    }
}
