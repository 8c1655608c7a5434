//! What a combination of two complexes has at a point.

ghost use Rattle.std.specs.Prelude.{◌≡◌};
ghost use Rattle.nef_complex.specs.Prelude.{List as Sequence, length, map, IfOk, IfSome, IsTrue, IsVertexPoint, SpacePoint, InClosedFrame, Set, Label as PlainLabel, point_of, Cone, complex_of, ShowsSet};
ghost use Rattle.nef_star.specs.Ops.{op_label};
ghost use Rattle.nef_smap.specs.Maps.{map_of, IsLeastMap};
ghost use Rattle.nef_stopo.specs.Sets.{op_set};
ghost use Rattle.law_geometry.specs.complex.Complexes.{Complex as PlainComplex};
ghost use Rattle.nef_complex.specs.declared.complex.Complex.{Complex as ShownComplex};
ghost use Rattle.nef_complex.specs.declared.complex.Vertex.{Vertex as ShownVertex};
ghost use Rattle.nef_cand.specs.Candidates.{AreFramed};
ghost use Rattle.nef_cand.specs.Names.{operand_of, other_of, named_point, IsNameAt, IsNamed, AreNamed};
ghost use Rattle.nef_locate.specs.Places.{IsPlaceIn, IsPlaceAt};
ghost use Rattle.nef_ops.specs.Shares.{either_of, complement_if, IsCombinedMap, HasShare, IsRightChoice, LeadsAt, IsFindingIn, IsFoundAt};
ghost use Rattle.nef_ops.specs.Far.{AreTold};
ghost use Rattle.nef_ops.specs.Rights.{IsAsIn, IsRight, IsInput, movable, kept_outcome, IsOutcomeOf};
ghost use Rattle.nef_result.specs.Outcomes.{of_operand, IsOutcomeAt};

use crate::OutOfMemory;
use crate::regions::{Regions, label_among};
use crate::share::{Share, face_share, share_at, share_of};
use nef_cand::{CandidateName, Named, Operand};
use nef_complex::Complex;
use nef_core::Job;
use nef_geo::{Label, Point};
use nef_locate::{Place, locate, place_map};
use nef_result::Outcome;
use nef_smap::{SphereMap, face_map};
use nef_star::Op;
use nef_stopo::{combine, exchanged};
use nef_unique::same_map;
use std::alloc::Global;

// What is known of a point in a complex: its place, or, far from the skeleton, the one label around the point.
#[derive(Clone, Copy)]
enum Finding {
    /// The point lies at this place.
    At(Place),
    /// The point has this label, and so have all points close to it.
    Far(Label),
}

// What the set holds of the frame close to a point of which this is found. Without `by_maps` no map is looked at, and
// the answer is `Part` at vertices and on edges.
fn found_share(c: &Complex, found: &Finding, by_maps: bool) -> Share
    requires shows { (s : Set) × ShowsSet s c.now }
    requires has { IsFindingIn c.now found.now }
    ensures share { (s : Set) (y : SpacePoint) → ShowsSet s c.now → IsFoundAt c.now y found.now → HasShare result s y }
{
    match *found {
        Finding::At(place) => share_at(c, &place, by_maps),
        Finding::Far(label) => face_share(label),
    }
}

// The least map of the set at a point of which this is found. `OutOfMemory` comes where no memory is left; off the
// vertices and edges no memory is taken.
fn found_map(alloc: Global, c: &Complex, found: &Finding) -> Result<SphereMap, OutOfMemory>
    requires shows { (s : Set) × ShowsSet s c.now }
    requires has { IsFindingIn c.now found.now }
    ensures least { IfOk result IsLeastMap }
    ensures cone { IfOk result (λ m. (s : Set) (y : SpacePoint) → ShowsSet s c.now → IsFoundAt c.now y found.now → Cone (map_of m) s y) }
{
    match *found {
        Finding::At(place) => place_map(alloc, c, &place),
        Finding::Far(label) => Ok(face_map(alloc, label, label)),
    }
}

// The number of the vertex, where the place is a vertex.
fn vertex_number(place: &Place) -> Option<usize>
    ensures vertex { (C : PlainComplex) (y : SpacePoint) → IsPlaceAt C y place.now → IfSome result (λ k. IsVertexPoint C k y) }
{
    match *place {
        Place::Vertex(number) => Some(number),
        Place::OnEdge(_) => None,
        Place::InFacet(_) => None,
        Place::InVolume { .. } => None,
    }
}

// The number of the vertex, where a vertex was found.
fn found_vertex(found: &Finding) -> Option<usize>
    ensures vertex { (c : ShownComplex) (y : SpacePoint) → IsFoundAt c y found.now → IfSome result (λ k. IsVertexPoint (complex_of c) k y) }
{
    match *found {
        Finding::At(place) => vertex_number(&place),
        Finding::Far(_) => None,
    }
}

// The outcome where the operand's vertex with this number stays, with `In` and `Not` exchanged in its map if `turned`.
fn kept(operand: Operand, number: usize, turned: bool) -> Outcome
    ensures kept { result ≡ kept_outcome turned operand number }
{
    if turned {
        Outcome::Turned(operand, number)
    } else {
        Outcome::Stays(operand, number)
    }
}

// The least map of the complement if `turned`, and else the map itself.
fn turned_if(map: SphereMap, turned: bool) -> SphereMap
    requires least { IsLeastMap map }
    ensures least { IsLeastMap result }
    ensures cone { (s : Set) (y : SpacePoint) → Cone (map_of map) s y → Cone (map_of result) (complement_if turned s) y }
{
    if turned { exchanged(map) } else { map }
}

// The outcome at a point where the result is as this operand, or as its complement if `turned`, by what is `found`
// there: the operand's vertex, where its map may be moved, or else what the operand's map says.
fn one_outcome(
    alloc: Global,
    input: &Input,
    operand: Operand,
    found: &Finding,
    turned: bool,
) -> Result<Outcome, OutOfMemory>
    requires shows { (s : Set) × ShowsSet s input.now.complex.now }
    requires has { IsFindingIn input.now.complex.now found.now }
    ensures outcome { IfOk result (λ o. (us vs : Sequence ShownVertex) (r s : Set) (y : SpacePoint) → of_operand operand us vs ≡ movable input.now → ShowsSet s input.now.complex.now → IsFoundAt input.now.complex.now y found.now → IsAsIn (complement_if turned s) r y → IsOutcomeAt us vs r y o) }
{
    if input.is_own {
        if let Some(number) = found_vertex(found) {
            return Ok(kept(operand, number, turned));
        }
    }
    let map = found_map(alloc, input.complex, found)?;
    Outcome::of(alloc, turned_if(map, turned))
}

// The vertex or edge in the name, with its operand, and the place in the other operand if the name has one.
fn told_places(name: &CandidateName) -> (Operand, Place, Option<Place>)
    ensures place { (C D : PlainComplex) (y : SpacePoint) → IsNameAt C D y name.now → IsPlaceIn (operand_of result.0 C D) result.1 }
    ensures at { (C D : PlainComplex) (y : SpacePoint) → IsNameAt C D y name.now → IsPlaceAt (operand_of result.0 C D) y result.1 }
    ensures across { (C D : PlainComplex) (y : SpacePoint) → IsNameAt C D y name.now → IfSome result.2 (λ a. IsPlaceIn (other_of result.0 C D) a × IsPlaceAt (other_of result.0 C D) y a) }
{
    match *name {
        CandidateName::Vertex(operand, number) => (operand, Place::Vertex(number), None),
        CandidateName::Edge(operand, number) => (operand, Place::OnEdge(number), None),
        CandidateName::Cut(operand, number, place) => (operand, Place::OnEdge(number), Some(place)),
    }
}

// What is known of the candidate in operand `own`. The candidate is located there only where its name tells of the
// other operand alone and no region tells its label.
fn finding_in(input: &Input, own: Operand, candidate: &Named) -> Finding
    requires input { IsInput input.now }
    requires framed { InClosedFrame (point_of candidate.now.point) }
    requires named { (C D : PlainComplex) × (operand_of own C D ≡ complex_of input.now.complex.now) × IsNamed C D candidate.now }
    ensures has { IsFindingIn input.now.complex.now result }
    ensures found { IsFoundAt input.now.complex.now (point_of candidate.now.point) result }
{
    let (operand, place, across) = told_places(&candidate.name);
    if operand == own {
        return Finding::At(place);
    }
    if let Some(place) = across {
        return Finding::At(place);
    }
    let far = input.far;
    match label_among(far, &candidate.point) {
        Some(label) => Finding::Far(label),
        None => Finding::At(locate(input.complex, &candidate.point)),
    }
}

// What the set holds of the frame close to the point, where a region tells the point's label.
fn far_share(far: &Regions, point: &Point) -> Share
    ensures share { (c : ShownComplex) (s : Set) → AreTold c far.now → ShowsSet s c → HasShare result s (point_of point.now) }
{
    match label_among(far, point) {
        Some(label) => face_share(label),
        None => Share::Part,
    }
}

// Which map a combination has at a point.
#[derive(Clone, Copy, PartialEq, Eq)]
enum MapChoice {
    /// The map of this set, or of its complement if the flag is true.
    One(Operand, bool),
    /// A map with parts of both sets.
    Both,
}

// Which map the operation's combination has at a point, where the two sets hold these shares of the frame.
fn choice_of(op: Op, first: Share, second: Share) -> MapChoice
    ensures leads { IsRightChoice result op first second }
{
    match (op, first, second) {
        (Op::And, Share::Nothing, _) => MapChoice::One(Operand::First, false),
        (Op::And, _, Share::Nothing) => MapChoice::One(Operand::Second, false),
        (Op::And, Share::Everything, _) => MapChoice::One(Operand::Second, false),
        (Op::And, _, Share::Everything) => MapChoice::One(Operand::First, false),
        (Op::Or, Share::Nothing, _) => MapChoice::One(Operand::Second, false),
        (Op::Or, _, Share::Nothing) => MapChoice::One(Operand::First, false),
        (Op::Or, Share::Everything, _) => MapChoice::One(Operand::First, false),
        (Op::Or, _, Share::Everything) => MapChoice::One(Operand::Second, false),
        (Op::Diff, Share::Nothing, _) => MapChoice::One(Operand::First, false),
        (Op::Diff, _, Share::Nothing) => MapChoice::One(Operand::First, false),
        (Op::Diff, Share::Everything, _) => MapChoice::One(Operand::Second, true),
        (Op::Diff, _, Share::Everything) => MapChoice::One(Operand::Second, true),
        (Op::Xor, Share::Nothing, _) => MapChoice::One(Operand::Second, false),
        (Op::Xor, _, Share::Nothing) => MapChoice::One(Operand::First, false),
        (Op::Xor, Share::Everything, _) => MapChoice::One(Operand::Second, true),
        (Op::Xor, _, Share::Everything) => MapChoice::One(Operand::First, true),
        (_, Share::Part, Share::Part) => MapChoice::Both,
    }
}

// Whether the operation makes of a set and itself this set.
fn keeps_equals(op: Op) -> bool
    ensures keeps { IsTrue result → (l : PlainLabel) → op_label op l l ≡ l }
{
    match op {
        Op::And | Op::Or => true,
        Op::Diff | Op::Xor => false,
    }
}

// The least map of the combination of two sets at a point, from their least maps there. Where one set holds all or
// nothing of the frame close to the point, the result is the other set's map, its complement's, or the set's own.
fn merged(
    alloc: Global,
    first: SphereMap,
    second: SphereMap,
    op: Op,
) -> Result<SphereMap, OutOfMemory>
    requires first { IsLeastMap first }
    requires second { IsLeastMap second }
    ensures combined { IfOk result (IsCombinedMap op first second) }
{
    match choice_of(op, share_of(&first), share_of(&second)) {
        MapChoice::One(operand, turned) => match operand {
            Operand::First => Ok(turned_if(first, turned)),
            Operand::Second => Ok(turned_if(second, turned)),
        },
        MapChoice::Both => {
            if keeps_equals(op) && same_map(&first, &second) {
                Ok(first)
            } else {
                combine(alloc, &first, &second, op)
            }
        }
    }
}

/// An operand of a combination: its complex, whether maps may be moved out of the complex, and the complex's regions.
#[derive(Drop)]
pub(crate) struct Input<'a> {
    pub(crate) complex: &'a Complex,
    pub(crate) is_own: bool,
    pub(crate) far: &'a Regions,
}

// Of two values, one for each operand, that of this operand.
fn either_of<'a, T>(operand: Operand, first: &'a T, second: &'a T) -> &'a T
    ensures either { result.now ≡ either_of operand first.now second.now }
{
    match operand {
        Operand::First => first,
        Operand::Second => second,
    }
}

/// The jobs of a combination of the sets of two complexes: the outcome at each candidate.
#[derive(Drop)]
pub(crate) struct BinaryJob<'a> {
    pub(crate) op: Op,
    pub(crate) first: Input<'a>,
    pub(crate) second: Input<'a>,
    pub(crate) listed: &'a [Named],
}

impl<'a> BinaryJob<'a> {
    // Which map the combination has at a point, by what is found of the point in the two operands. Labels mostly
    // decide, and cost less to look at than the map of a vertex.
    fn choice(&self, first: &Finding, second: &Finding) -> MapChoice
        requires first { IsInput self.now.first }
        requires second { IsInput self.now.second }
        requires has_first { IsFindingIn self.now.first.complex.now first.now }
        requires has_second { IsFindingIn self.now.second.complex.now second.now }
        ensures leads { (s t : Set) (y : SpacePoint) → ShowsSet s self.now.first.complex.now → ShowsSet t self.now.second.complex.now → IsFoundAt self.now.first.complex.now y first.now → IsFoundAt self.now.second.complex.now y second.now → LeadsAt result self.now.op s t y }
    {
        let first_told = found_share(self.first.complex, first, false);
        let second_told = found_share(self.second.complex, second, false);
        let told = choice_of(self.op, first_told, second_told);
        if told != MapChoice::Both {
            return told;
        }
        let first_share = found_share(self.first.complex, first, true);
        let second_share = found_share(self.second.complex, second, true);
        choice_of(self.op, first_share, second_share)
    }

    // The outcome at a vertex of one operand, where its map may be moved and a region of the other operand has a label.
    fn told_outcome(&self, operand: Operand, number: usize, point: &Point) -> Option<Outcome>
        requires first { IsInput self.now.first }
        requires second { IsInput self.now.second }
        requires vertex { IsVertexPoint (operand_of operand (complex_of self.now.first.complex.now) (complex_of self.now.second.complex.now)) number (point_of point.now) }
        ensures outcome { IfSome result (IsOutcomeOf self.now.op self.now.first self.now.second (point_of point.now)) }
    {
        if !either_of(operand, &self.first, &self.second).is_own {
            return None;
        }
        let part = Share::Part;
        let share = far_share(either_of(operand, &self.second, &self.first).far, point);
        let first = *either_of(operand, &part, &share);
        let second = *either_of(operand, &share, &part);
        match choice_of(self.op, first, second) {
            MapChoice::One(chosen, turned) => {
                if chosen == operand {
                    Some(kept(operand, number, turned))
                } else {
                    None
                }
            }
            MapChoice::Both => None,
        }
    }

    // The outcome at a candidate. At most candidates one look tells the outcome, and nothing else is begun.
    fn outcome_at(&self, alloc: Global, candidate: &Named) -> Result<Outcome, OutOfMemory>
        requires first { IsInput self.now.first }
        requires second { IsInput self.now.second }
        requires framed { InClosedFrame (point_of candidate.now.point) }
        requires named { IsNamed (complex_of self.now.first.complex.now) (complex_of self.now.second.complex.now) candidate.now }
        ensures outcome { IfOk result (IsOutcomeOf self.now.op self.now.first self.now.second (point_of candidate.now.point)) }
    {
        if let CandidateName::Vertex(operand, number) = candidate.name {
            if let Some(outcome) = self.told_outcome(operand, number, &candidate.point) {
                return Ok(outcome);
            }
        }
        self.found_outcome(alloc, candidate)
    }

    // The outcome at a candidate by what is known of it in both operands. Where one operand holds all or nothing of the
    // frame close to the candidate, no more than one map is made.
    fn found_outcome(&self, alloc: Global, candidate: &Named) -> Result<Outcome, OutOfMemory>
        requires first { IsInput self.now.first }
        requires second { IsInput self.now.second }
        requires framed { InClosedFrame (point_of candidate.now.point) }
        requires named { IsNamed (complex_of self.now.first.complex.now) (complex_of self.now.second.complex.now) candidate.now }
        ensures outcome { IfOk result (IsOutcomeOf self.now.op self.now.first self.now.second (point_of candidate.now.point)) }
    {
        let first = finding_in(&self.first, Operand::First, candidate);
        let second = finding_in(&self.second, Operand::Second, candidate);
        match self.choice(&first, &second) {
            MapChoice::One(operand, turned) => match operand {
                Operand::First => one_outcome(alloc, &self.first, Operand::First, &first, turned),
                Operand::Second => one_outcome(
                    alloc,
                    &self.second,
                    Operand::Second,
                    &second,
                    turned,
                ),
            },
            MapChoice::Both => {
                let map = found_map(alloc, self.first.complex, &first)?;
                let other = found_map(alloc, self.second.complex, &second)?;
                let both = merged(alloc, map, other, self.op)?;
                Outcome::of(alloc, both)
            }
        }
    }

    // Whether one look tells the outcome: the candidate is an operand's vertex, in a labelled region of the other.
    fn is_told(&self, candidate: &Named) -> bool {
        match candidate.name {
            CandidateName::Vertex(operand, _) => {
                let far = either_of(operand, &self.second, &self.first).far;
                label_among(far, &candidate.point).is_some()
            }
            CandidateName::Edge(_, _) => false,
            CandidateName::Cut(_, _, _) => false,
        }
    }

    /// How many jobs take more than one look.
    pub(crate) fn busy_jobs(&self) -> u64 {
        let mut count: u64 = 0;
        for candidate in self.listed {
            if !self.is_told(candidate) {
                count = count.saturating_add(1);
            }
        }
        count
    }
}

impl<'a> Job for BinaryJob<'a> {
    type Out = Outcome;

    ghost count = { λ j. length j.listed.now };

    ghost right = { λ j i o. (s t : Set) → ShowsSet s j.first.complex.now → ShowsSet t j.second.complex.now → IsRight (op_set j.op s t) (movable j.first) (movable j.second) (map named_point j.listed.now) i o };

    ghost workable = { λ j. IsInput j.first × IsInput j.second × AreFramed (map named_point j.listed.now) × AreNamed (complex_of j.first.complex.now) (complex_of j.second.complex.now) j.listed.now };

    fn jobs(&self) -> u64 {
        self.listed.len() as u64
    }

    fn work(&self, alloc: Global, job: u64) -> Result<Outcome, OutOfMemory> {
        self.outcome_at(alloc, &self.listed[job as usize])
    }
}
