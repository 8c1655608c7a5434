//! Groups of carriers that lie close to one another, and clusters of groups.

ghost use Rattle.std.specs.Prelude.{◌<◌};
ghost use Rattle.nef_index.specs.Prelude.{ℕ, length, IfOk, IsAt, Cluster as ClusterValue, Group as GroupValue, StandsIn, IsInGroup, IsInCluster, AreKeyed, IsWide};

use crate::OutOfMemory;
use crate::spans::{Bounds, Span};
use nef_geo::{HALF_SIDE, List};
use std::alloc::Global;

/// Carriers by their numbers, with a span of all points on them.
#[derive(Drop)]
pub struct Group {
    pub span: Span,
    pub carriers: List<usize>,
}

/// Groups of carriers, with a span of all points on the carriers.
#[derive(Drop)]
pub struct Cluster {
    pub span: Span,
    pub groups: List<Group>,
}

// How many carriers a group and a cluster have, but for the last ones.
const MOST_IN_GROUP: usize = 8;

const MOST_IN_CLUSTER: usize = 8 * MOST_IN_GROUP;

// The low 16 bits of the number, with a zero bit above each bit.
fn spread(number: u32) -> u32 {
    let bytes = (number & 0xFFFF | (number & 0xFFFF) << 8) & 0x00FF_00FF;
    let nibbles = (bytes | bytes << 4) & 0x0F0F_0F0F;
    let pairs = (nibbles | nibbles << 2) & 0x3333_3333;
    (pairs | pairs << 1) & 0x5555_5555
}

// Twice the middle of the bounds, counted from the frame's low side. Bounds beyond the frame count as the frame's side.
fn middle(bounds: &Bounds) -> u32 {
    let low = bounds.low.clamp(-HALF_SIDE, HALF_SIDE);
    let high = bounds.high.clamp(-HALF_SIDE, HALF_SIDE);
    (low + high + 2 * HALF_SIDE) as u32
}

// The bits of the span's middles in y and z in turns: spans with close keys mostly lie close together, seen along x.
fn place_key(span: &Span) -> u32 {
    spread(middle(&span.y)) << 1 | spread(middle(&span.z))
}

// Each span's key and number, in the order of the keys.
fn in_order(alloc: Global, spans: &[Span]) -> Result<Vec<(u32, usize)>, OutOfMemory>
    ensures keyed { IfOk result (λ v. AreKeyed (length spans.now) v.items) }
{
    let mut keyed = Vec::with_capacity(alloc, spans.len())?;
    for (number, span) in spans.iter().enumerate() {
        keyed.push((place_key(span), number))?;
    }
    keyed.sort_unstable();
    Ok(keyed)
}

// The group of the carriers with these numbers, whose spans are given.
fn group_of(alloc: Global, spans: &[Span], keyed: &[(u32, usize)]) -> Result<Group, OutOfMemory>
    requires within { (i : ℕ) (e : ℕ × ℕ) → IsAt keyed.now i e → e.1 < length spans.now }
    ensures wide { IfOk result (λ g. IsWide spans.now (IsInGroup g) g.span) }
    ensures all { IfOk result (λ g. (i : ℕ) (e : ℕ × ℕ) → IsAt keyed.now i e → IsInGroup g e.1) }
{
    let mut span = Span::none();
    let room = Vec::with_capacity(alloc, keyed.len())?;
    let mut carriers = List::from_vec(room);
    for (_key, number) in keyed {
        span = span.with_span(&spans[*number]);
        carriers.push(*number)?;
    }
    Ok(Group { span, carriers })
}

// The cluster of the carriers with these numbers, whose spans are given.
fn cluster_of(alloc: Global, spans: &[Span], keyed: &[(u32, usize)]) -> Result<Cluster, OutOfMemory>
    requires within { (i : ℕ) (e : ℕ × ℕ) → IsAt keyed.now i e → e.1 < length spans.now }
    ensures wide { IfOk result (λ q. IsWide spans.now (IsInCluster q) q.span) }
    ensures groups { IfOk result (λ q. (i : ℕ) (g : GroupValue) → IsAt q.groups i g → IsWide spans.now (IsInGroup g) g.span) }
    ensures all { IfOk result (λ q. (i : ℕ) (e : ℕ × ℕ) → IsAt keyed.now i e → IsInCluster q e.1) }
{
    let mut span = Span::none();
    let mut groups = List::new(alloc);
    for next in keyed.chunks(MOST_IN_GROUP) {
        let group = group_of(alloc, spans, next)?;
        span = span.with_span(&group.span);
        groups.push(group)?;
    }
    Ok(Cluster { span, groups })
}

/// The clusters of all carriers, whose spans are given. Each carrier stands in some group of some cluster.
pub(crate) fn clusters_of(alloc: Global, spans: &[Span]) -> Result<List<Cluster>, OutOfMemory>
    ensures wide { IfOk result (λ v. (i : ℕ) (q : ClusterValue) → IsAt v i q → IsWide spans.now (IsInCluster q) q.span) }
    ensures groups { IfOk result (λ v. (i j : ℕ) (q : ClusterValue) (g : GroupValue) → IsAt v i q → IsAt q.groups j g → IsWide spans.now (IsInGroup g) g.span) }
    ensures all { IfOk result (λ v. (k : ℕ) → k < length spans.now → StandsIn IsInCluster v k) }
{
    let keyed = in_order(alloc, spans)?;
    let mut clusters = List::new(alloc);
    for next in keyed.chunks(MOST_IN_CLUSTER) {
        clusters.push(cluster_of(alloc, spans, next)?)?;
    }
    Ok(clusters)
}
