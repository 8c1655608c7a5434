//! Carriers in order, with the runs of parallel carriers, which stand side by side: at most one of a run holds a point.

ghost use Rattle.std.specs.Prelude.{◌≡◌, ◌<◌, ◌↔◌};
ghost use Rattle.nef_geo.specs.Prelude.{IfOk, OnOk, ℕ, pos, length, IsTrue, IsNone, IfSome, point_of, form_of, form_at, normal_of};
ghost use Rattle.nef_index.specs.Carriers.{AreInOrder, AreHolders};
ghost use Rattle.nef_index.specs.Runs.{IsRun, AreRuns, ContinuesRun, IsHolderIn, IsOnlyHolder};

use crate::OutOfMemory;
use nef_geo::{List, Plane, Point, Sign, side};
use std::alloc::Global;
use std::marker::Model;

/// Whether the plane holds the point.
pub fn holds(h: &Plane, point: &Point) -> bool
    ensures holds { IsTrue result ↔ (form_at (form_of h.now) (point_of point.now) ≡ pos 0) }
{
    side(h, point) == Sign::Zero
}

fn same_normal(g: &Plane, h: &Plane) -> bool
    ensures same { IsTrue result → normal_of (form_of g.now) ≡ normal_of (form_of h.now) }
{
    g.a() == h.a() && g.b() == h.b() && g.c() == h.c()
}

// Whether the carrier after this one belongs to the same run.
fn goes_on(carriers: &[Plane], number: usize) -> bool
    requires within { number < length carriers.now }
    ensures on { IsTrue result → ContinuesRun carriers.now number }
{
    match carriers.get(number + 1) {
        Some(next) => same_normal(&carriers[number], next),
        None => false,
    }
}

// For each run of carriers the number at which the run ends, which is that of the next run's first carrier.
fn run_ends(alloc: Global, carriers: &[Plane]) -> Result<Vec<usize>, OutOfMemory>
    ensures runs { IfOk result (λ v. AreRuns carriers.now v.items) }
{
    let mut ends = Vec::with_capacity(alloc, carriers.len())?;
    for number in 0..carriers.len() {
        if !goes_on(carriers, number) {
            ends.push(number + 1)?;
        }
    }
    Ok(ends)
}

// The carrier of the run from `first` to before `past` that holds the point, by halving: at the point the forms of
// parallel carriers rise with their last numbers. Most runs have one carrier.
fn holder_in(carriers: &[Plane], first: usize, past: usize, point: &Point) -> Option<usize>
    requires ordered { AreInOrder carriers.now }
    requires run { IsRun carriers.now first past }
    ensures holder { IfSome result (λ k. IsOnlyHolder carriers.now first past (point_of point.now) k) }
    ensures none { IsNone result → (k : ℕ) → IsHolderIn carriers.now first past (point_of point.now) k → ⊥ }
{
    if past - first == 1 {
        return holds(&carriers[first], point).then_some(first);
    }
    carriers[first..past]
        .binary_search_by(|h| side(h, point).number().cmp(&0))
        .ok()
        .map(|number| first + number)
}

/// Planes in order of their four numbers, once each; contracts see the list of the planes. The ends of the runs of
/// parallel planes are found once, so that each run is searched by halving for the plane that holds a point.
#[derive(Drop)]
pub struct SortedCarriers {
    planes: List<Plane>,
    ends: Vec<usize>,
}

impl Model for SortedCarriers {
    ghost use Rattle.std.specs.Prelude.{List as Sequence};
    ghost use Rattle.nef_geo.specs.declared.plane.Plane.{Plane as PlaneValue};
    ghost use Rattle.nef_index.specs.Carriers.{AreInOrder};
    ghost use Rattle.nef_index.specs.Runs.{AreRuns};

    ghost Value = { Sequence PlaneValue };

    ghost view = { λ c. c.planes };

    ghost invariant = { λ c. AreInOrder c.planes × AreRuns c.planes c.ends.items };
}

impl SortedCarriers {
    /// The carriers with the ends of their runs. `OutOfMemory` says that memory was wanted and not found.
    pub fn of(alloc: Global, planes: List<Plane>) -> Result<SortedCarriers, OutOfMemory>
        requires ordered { AreInOrder planes }
        ensures kept { IfOk result (λ c. c ≡ planes) }
    {
        let ends = run_ends(alloc, planes.as_slice())?;
        Ok(SortedCarriers { planes, ends })
    }

    /// Replaces the list by the numbers of the carriers that hold the point, in increasing order. `OutOfMemory` says
    /// that memory was wanted and not found.
    pub fn holders(&self, point: &Point, numbers: &mut Vec<usize>) -> Result<(), OutOfMemory>
        ensures holders { OnOk result (AreHolders self.now (point_of point.now) (point_of point.now) numbers.new.items) }
    {
        numbers.clear();
        let mut first = 0;
        for past in &self.ends {
            if let Some(number) = holder_in(self.planes.as_slice(), first, *past, point) {
                numbers.push(number)?;
            }
            first = *past;
        }
        Ok(())
    }

    /// The carriers as a slice.
    pub fn planes(&self) -> &[Plane]
        ensures planes { result.now ≡ self.now }
        ensures ordered { AreInOrder self.now }
    {
        self.planes.as_slice()
    }

    /// The carriers without the ends of their runs.
    pub fn into_planes(self) -> List<Plane>
        ensures planes { result ≡ self }
    {
        self.planes
    }
}
