//! The operations of topology, and the label that each makes of a label and of the labels close to it.

ghost use Rattle.std.specs.Prelude.{◌≡◌, ◌∷◌, ◌++◌};
ghost use Rattle.nef_stopo.specs.Prelude.{option_map, List, [], map, Label, in_by, label_by, face_label, sloop_by, is_in, ray_mark, star_labels, svertex_labels, arc_labels, sloop_labels, option_labels, map_labels, sloop_of, svertex_of, arc_of, map_of, topology_of, nearby_of, gather, ray_of, star_of};

use nef_geo::Label;
use nef_smap::{SArc, SLoop, SVertex, SphereMap};
use nef_star::{Ray, Star};

fn is_in(label: Label) -> bool
    ensures { result ≡ is_in label }
{
    label == Label::In
}

/// What is known of a list of labels: whether all and whether some of them are In.
#[derive(Clone, Copy)]
pub(crate) struct Nearby {
    all: bool,
    some: bool,
}

impl Nearby {
    // For the empty list.
    fn none() -> Nearby
        ensures { result ≡ nearby_of [] }
    {
        Nearby {
            all: true,
            some: false,
        }
    }

    /// For a list of one label.
    pub(crate) fn of(label: Label) -> Nearby
        ensures { result ≡ nearby_of (label ∷ []) }
    {
        Nearby {
            all: is_in(label),
            some: is_in(label),
        }
    }

    /// For the labels of both lists together.
    pub(crate) fn and(self, other: Nearby) -> Nearby
        ensures { (xs ys : List Label) → self ≡ nearby_of xs → other ≡ nearby_of ys → result ≡ nearby_of (xs ++ ys) }
    {
        Nearby {
            all: self.all && other.all,
            some: self.some || other.some,
        }
    }
}

fn near_labels(labels: &[Label]) -> Nearby
    ensures { result ≡ nearby_of labels.now }
{
    let mut near = Nearby::none();
    for label in labels {
        near = near.and(Nearby::of(*label));
    }
    near
}

fn near_rays(rays: &[Ray]) -> Nearby
    ensures { result ≡ nearby_of (map ray_mark (map ray_of rays.now)) }
{
    let mut near = Nearby::none();
    for ray in rays {
        near = near.and(Nearby::of(ray.mark));
    }
    near
}

/// For the labels of the star's rays and sectors.
pub(crate) fn near_star(star: &Star) -> Nearby
    ensures { result ≡ nearby_of (star_labels (star_of star.now)) }
{
    near_rays(star.rays.as_slice()).and(near_labels(star.sectors.as_slice()))
}

fn near_option(label: Option<Label>) -> Nearby
    ensures { result ≡ nearby_of (option_labels label) }
{
    match label {
        Some(label) => Nearby::of(label),
        None => Nearby::none(),
    }
}

fn near_svertices(svertices: &[SVertex]) -> Nearby
    ensures { result ≡ nearby_of (gather svertex_labels (map svertex_of svertices.now)) }
{
    let mut near = Nearby::none();
    for svertex in svertices {
        near = near.and(Nearby::of(svertex.mark).and(near_option(svertex.around)));
    }
    near
}

/// For the labels on an item and on both of its sides.
fn near_item(pos: Label, mark: Label, neg: Label) -> Nearby
    ensures { result ≡ nearby_of (pos ∷ mark ∷ neg ∷ []) }
{
    Nearby {
        all: is_in(pos) && is_in(mark) && is_in(neg),
        some: is_in(pos) || is_in(mark) || is_in(neg),
    }
}

fn near_arcs(arcs: &[SArc]) -> Nearby
    ensures { result ≡ nearby_of (gather arc_labels (map arc_of arcs.now)) }
{
    let mut near = Nearby::none();
    for arc in arcs {
        near = near.and(near_item(arc.pos, arc.mark, arc.neg));
    }
    near
}

fn near_circle(circle: Option<SLoop>) -> Nearby
    ensures { result ≡ nearby_of (sloop_labels (option_map sloop_of circle)) }
{
    match circle {
        Some(circle) => near_item(circle.pos, circle.mark, circle.neg),
        None => Nearby::none(),
    }
}

/// For all labels that the map lists, except its mark.
pub(crate) fn near_map(map: &SphereMap) -> Nearby
    ensures { result ≡ nearby_of (map_labels (map_of map.now)) }
{
    let faces = near_circle(map.sloop).and(near_option(map.ground));
    near_svertices(map.svertices.as_slice()).and(near_arcs(map.arcs.as_slice()).and(faces))
}

/// An operation of topology on a set.
#[derive(Clone, Copy)]
pub(crate) enum Topology {
    Interior,
    Closure,
    /// The closure without the interior.
    Boundary,
    Complement,
}

impl Topology {
    // Whether a point labelled `own` becomes In, where `near` tells of the labels close to it.
    fn holds(self, own: Label, near: Nearby) -> bool
        ensures holds { result ≡ in_by (topology_of self) own near.all near.some }
    {
        let inside = is_in(own) && near.all;
        let closed = is_in(own) || near.some;
        match self {
            Topology::Interior => inside,
            Topology::Closure => closed,
            Topology::Boundary => closed && !inside,
            Topology::Complement => !is_in(own),
        }
    }

    /// What a label becomes, where `near` tells of the labels close to its point. `Out` stays `Out`.
    pub(crate) fn label(self, own: Label, near: Nearby) -> Label
        ensures label { result ≡ label_by (topology_of self) own near.all near.some }
    {
        if own == Label::Out {
            return Label::Out;
        }
        if self.holds(own, near) {
            Label::In
        } else {
            Label::Not
        }
    }

    /// What a face's label becomes. No other label is close to a point of a face.
    pub(crate) fn face_label(self, own: Label) -> Label
        ensures label { result ≡ face_label (topology_of self) own }
    {
        self.label(own, Nearby::none())
    }

    /// The sloop, if there is one, with the operation's labels.
    pub(crate) fn sloop(self, sloop: Option<SLoop>) -> Option<SLoop>
        ensures sloop { option_map sloop_of result ≡ option_map (sloop_by (topology_of self)) (option_map sloop_of sloop) }
    {
        let circle = sloop?;
        let near = Nearby::of(circle.pos).and(Nearby::of(circle.neg));
        Some(SLoop {
            normal: circle.normal,
            mark: self.label(circle.mark, near),
            pos: self.face_label(circle.pos),
            neg: self.face_label(circle.neg),
        })
    }

    /// The ground, if there is one, with the operation's label.
    pub(crate) fn ground(self, ground: Option<Label>) -> Option<Label>
        ensures ground { result ≡ option_map (face_label (topology_of self)) ground }
    {
        ground.map(|label| self.face_label(label))
    }
}
