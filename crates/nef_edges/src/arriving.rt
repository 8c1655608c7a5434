//! The ends at which edges arrive, sorted by their lines, and on one line by their vertices.

ghost use Rattle.std.specs.Prelude.{◌<◌, ◌≤◌, ◌+◌, ◌≡◌, ◌*ℤ◌};
ghost use Rattle.nef_edges.specs.Prelude.{ℕ, length, IsTrue, IfOk, OnOk, nat_abs, IsSortedBy, IsAt, int_cmp, nat_cmp, ordering_then, Equal, EdgeEnd, end_lt, moment_order, dir_order, line_order, end_order, IsEarlierSvertex, AreArriving, IsAfter, NoneAfter, IsNextEnd, moment_limit};

use crate::OutOfMemory;
use crate::along::is_along;
use crate::edge_end::{EdgeEnd, product};
use nef_complex::Vertex;
use std::alloc::Global;
use std::cmp::Ordering;

// Adds the ends at which edges arrive at vertex number i.
fn add_arriving(ends: &mut Vec<EdgeEnd>, vertices: &[Vertex], i: usize) -> Result<(), OutOfMemory>
    requires within { i < length vertices.now }
    requires before { AreArriving vertices.now (IsEarlierSvertex i 0) ends.old.items }
    ensures added { OnOk result (AreArriving vertices.now (IsEarlierSvertex (i + 1) 0) ends.new.items) }
{
    let vertex = &vertices[i];
    for (k, svertex) in vertex.map.svertices.as_slice().iter().enumerate() {
        let dir = svertex.dir.back();
        if dir.is_normal() {
            ends.push(EdgeEnd::of(vertex.point, dir, i, k))?;
        }
    }
    Ok(())
}

// Most vertices have three or four edges, of which about one in two arrives.
const ENDS_AT_VERTEX: usize = 2;

/// The ends at which edges arrive at the vertices, sorted by their lines and vertices.
pub(crate) fn sorted_arriving(
    alloc: Global,
    vertices: &[Vertex],
) -> Result<Vec<EdgeEnd>, OutOfMemory>
    ensures all { IfOk result (λ v. AreArriving vertices.now (IsEarlierSvertex (length vertices.now) 0) v.items) }
    ensures sorted { IfOk result (λ v. IsSortedBy end_lt v.items) }
{
    let mut ends = Vec::with_capacity(alloc, vertices.len().saturating_mul(ENDS_AT_VERTEX))?;
    for i in 0..vertices.len() {
        add_arriving(&mut ends, vertices, i)?;
    }
    ends.sort_unstable_by(end_cmp);
    Ok(ends)
}

// Whether the end with this number stands after `from` in the order of ends.
fn is_after(ends: &[EdgeEnd], number: usize, from: &EdgeEnd) -> bool
    ensures after { IsTrue result → (h : EdgeEnd) × IsAt ends.now number h × IsAfter from.now h }
{
    match ends.get(number) {
        Some(end) => end_cmp(end, from).is_gt(),
        None => false,
    }
}

// A guess of how many of the sorted ends don't stand after `from`. The guess is right where all ends with the key of
// `from` lie on one line, as for most keys.
fn guess_up_to(ends: &[EdgeEnd], from: &EdgeEnd) -> usize
    ensures within { result ≤ length ends.now }
{
    ends.partition_point(|end| {
        end.key < from.key || (end.key == from.key && end.vertex <= from.vertex)
    })
}

// Whether no end before this number stands after `from`: the ends are sorted, so the last end before the number tells.
fn is_up_to(ends: &[EdgeEnd], number: usize, from: &EdgeEnd) -> bool
    requires sorted { IsSortedBy end_lt ends.now }
    requires within { number ≤ length ends.now }
    ensures before { IsTrue result → NoneAfter ends.now from.now number }
{
    number == 0 || end_cmp(&ends[number - 1], from).is_le()
}

/// The first of the sorted ends after `from`. A guess is tried first: two comparisons of lines check it, while halving
/// takes one comparison of lines for each step among the ends with one key.
pub(crate) fn next_after(ends: &[EdgeEnd], from: &EdgeEnd) -> EdgeEnd
    requires sorted { IsSortedBy end_lt ends.now }
    requires some { (k : ℕ) × (h : EdgeEnd) × IsAt ends.now k h × IsAfter from.now h }
    ensures next { IsNextEnd ends.now from.now result }
{
    let guess = guess_up_to(ends, from);
    if is_after(ends, guess, from) && is_up_to(ends, guess, from) {
        return ends[guess];
    }
    let count = ends.partition_point(|end| end_cmp(end, from).is_le());
    ends[count]
}

// Compares n/w and m/v, where w and v are the weights of the points of a and b.
fn ratio_cmp(n: i128, a: &EdgeEnd, m: i128, b: &EdgeEnd) -> Ordering
    requires n_small { nat_abs n ≤ moment_limit }
    requires m_small { nat_abs m ≤ moment_limit }
    ensures order { result ≡ int_cmp (n *ℤ b.now.point.w) (m *ℤ a.now.point.w) }
{
    let (w, v) = (a.point.w(), b.point.w());
    (n * v as i128).cmp(&(m * w as i128))
}

fn moment_cmp(a: &EdgeEnd, b: &EdgeEnd) -> Ordering
    ensures order { result ≡ moment_order a.now b.now }
{
    let n = product(&a.point, &a.dir);
    let m = product(&b.point, &b.dir);
    ratio_cmp(n.0, a, m.0, b)
        .then(ratio_cmp(n.1, a, m.1, b))
        .then(ratio_cmp(n.2, a, m.2, b))
}

fn is_one_line(a: &EdgeEnd, b: &EdgeEnd) -> bool
    ensures tied { IsTrue result → line_order a.now b.now ≡ Equal }
{
    if !a.dir.is_same(&b.dir) {
        return false;
    }
    is_along(&a.point, &a.dir, &b.point)
}

// Compares the lines of two ends with one key. Mostly both ends lie on one line.
fn line_cmp(a: &EdgeEnd, b: &EdgeEnd) -> Ordering
    ensures order { result ≡ ordering_then (dir_order a.now.dir b.now.dir) (moment_order a.now b.now) }
{
    if is_one_line(a, b) {
        return Ordering::Equal;
    }
    a.dir.cmp(&b.dir).then_with(|| moment_cmp(a, b))
}

// Compares two ends with one key. Most keys differ, so this call isn't inlined into `end_cmp`.
#[inline(never)]
fn tied_cmp(a: &EdgeEnd, b: &EdgeEnd) -> Ordering
    ensures order { result ≡ ordering_then (ordering_then (dir_order a.now.dir b.now.dir) (moment_order a.now b.now)) (nat_cmp a.now.vertex b.now.vertex) }
{
    line_cmp(a, b).then(a.vertex.cmp(&b.vertex))
}

// Compares the lines of two ends, and then the numbers of their vertices.
pub(crate) fn end_cmp(a: &EdgeEnd, b: &EdgeEnd) -> Ordering
    ensures order { result ≡ end_order a.now b.now }
{
    a.key.cmp(&b.key).then_with(|| tied_cmp(a, b))
}
