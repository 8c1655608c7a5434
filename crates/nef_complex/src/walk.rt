//! A walk over the carriers that come near a window, which is a span.

ghost use Rattle.std.specs.Prelude.{◌≡◌, ◌<◌};
ghost use Rattle.nef_geo.specs.Prelude.{ℕ, length, Option, None, IsTrue, IsAt, Set};
ghost use Rattle.nef_complex.specs.Complexes.{ShowsSet, LiesOutside};
ghost use Rattle.nef_index.specs.Numbers.{AreNumbersOf};
ghost use Rattle.nef_index.specs.Groups.{IsInGroup, IsInCluster};
ghost use Rattle.nef_index.specs.Index.{AreSpanned};
ghost use Rattle.nef_index.specs.declared.groups.Group.{Group as GroupValue};
ghost use Rattle.nef_index.specs.declared.spans.Span.{Span as SpanValue};
ghost use Rattle.nef_complex.specs.Index.{points_of};
ghost use Rattle.nef_complex.specs.declared.complex.Complex.{Complex as ComplexValue};

use crate::complex::{Complex, carrier_clusters, carrier_spans};
use nef_index::{Cluster, Group, Span, may_meet};

/// A search for something on one carrier after the other, within a window.
pub trait Search {
    type Found;

    /// The window's span.
    ghost within: { Self → SpanValue };

    /// What was found so far is right.
    ghost right: { Self → ComplexValue → Option Self.Found → Type 0 };

    /// The carrier with this number has nothing that would take the place of what was found.
    ghost passed: { Self → ComplexValue → Option Self.Found → ℕ → Type 0 };

    /// The window.
    fn window(&self) -> &Span
        ensures window { result.now ≡ within self.now };

    /// Whether no further carrier needs to be asked.
    fn is_over(&self, found: &Option<Self::Found>) -> bool
        ensures over { IsTrue result → (c : ComplexValue) (k : ℕ) → passed self.now c found.now k };

    /// Asks the carrier with this number.
    fn ask(&self, c: &Complex, number: usize, found: &mut Option<Self::Found>)
        requires shows { (s : Set) × ShowsSet s c.now }
        requires number { number < length c.now.carriers }
        requires right { right self.now c.now found.old }
        ensures right { right self.now c.now found.new }
        ensures kept { (k : ℕ) → passed self.now c.now found.old k → passed self.now c.now found.new k }
        ensures passed { passed self.now c.now found.new number };

    /// A carrier whose part of the skeleton lies outside the window needn't be asked.
    ghost apart: { (x : Self) (c : ComplexValue) (f : Option Self.Found) (k : ℕ) → LiesOutside c (within x) k → passed x c f k };
}

// Asks the carriers of the group whose spans, which hold all that a carrier has of the skeleton, meet the window.
fn ask_group<S: Search>(search: &S, c: &Complex, group: &Group, found: &mut Option<S::Found>)
    requires shows { (s : Set) × ShowsSet s c.now }
    requires within { AreNumbersOf c.now.carriers group.now.carriers }
    requires right { S.right search.now c.now found.old }
    ensures right { S.right search.now c.now found.new }
    ensures kept { (k : ℕ) → S.passed search.now c.now found.old k → S.passed search.now c.now found.new k }
    ensures passed { (k : ℕ) → IsInGroup group.now k → S.passed search.now c.now found.new k }
{
    let spans = carrier_spans(c);
    for number in group.carriers.as_slice() {
        if search.is_over(found) {
            return;
        }
        if may_meet(&spans[*number], search.window()) {
            search.ask(c, *number, found);
        }
    }
}

// Asks the carriers of the cluster's groups whose spans meet the window.
fn ask_cluster<S: Search>(search: &S, c: &Complex, cluster: &Cluster, found: &mut Option<S::Found>)
    requires shows { (s : Set) × ShowsSet s c.now }
    requires groups { (i : ℕ) (g : GroupValue) → IsAt cluster.now.groups i g → AreSpanned c.now.carriers (points_of c.now.vertices) (IsInGroup g) g.span }
    requires right { S.right search.now c.now found.old }
    ensures right { S.right search.now c.now found.new }
    ensures kept { (k : ℕ) → S.passed search.now c.now found.old k → S.passed search.now c.now found.new k }
    ensures passed { (k : ℕ) → IsInCluster cluster.now k → S.passed search.now c.now found.new k }
{
    for group in cluster.groups.as_slice() {
        if search.is_over(found) {
            return;
        }
        if may_meet(&group.span, search.window()) {
            ask_group(search, c, group, found);
        }
    }
}

/// What is found on the carriers. A carrier is passed over whose span, group's or cluster's span misses the window.
pub fn search_carriers<S: Search>(search: &S, c: &Complex) -> Option<S::Found>
    requires shows { (s : Set) × ShowsSet s c.now }
    requires right { S.right search.now c.now None }
    ensures right { S.right search.now c.now result }
    ensures passed { (k : ℕ) → k < length c.now.carriers → S.passed search.now c.now result k }
{
    let mut found = None;
    for cluster in carrier_clusters(c) {
        if search.is_over(&found) {
            return found;
        }
        if may_meet(&cluster.span, search.window()) {
            ask_cluster(search, c, cluster, &mut found);
        }
    }
    found
}
