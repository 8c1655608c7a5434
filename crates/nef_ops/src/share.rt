//! What a set holds of the frame close to a point, by its map there or by the point's place in the complex.

ghost use Rattle.std.specs.Prelude.{◌<◌};
ghost use Rattle.nef_complex.specs.Prelude.{ℕ, length, IsTrue, IsVertexPoint, SpacePoint, Set, IsAt, Item as PlainItem, items, Cone, complex_of, ShowsSet};
ghost use Rattle.nef_smap.specs.Items.{item_of};
ghost use Rattle.nef_smap.specs.Maps.{map_of};
ghost use Rattle.nef_smap.specs.declared.map.SVertex.{SVertex as PlainSVertex};
ghost use Rattle.nef_locate.specs.declared.point.Place.TheVariants as place;
ghost use Rattle.nef_locate.specs.Places.{IsPlaceIn, IsPlaceAt};
ghost use Rattle.nef_ops.specs.Shares.{LacksLabel, SvertexLacks, ItemLacks, InShare, HasShare};

use nef_complex::{Complex, Corner};
use nef_geo::Label;
use nef_locate::{Place, place_label};
use nef_smap::{Item, SVertex, SphereMap};

/// What a set holds of the frame close to a point.
#[derive(Clone, Copy)]
pub(crate) enum Share {
    /// No point.
    Nothing,
    /// Each point of the frame.
    Everything,
    /// Some points, or as many as isn't known.
    Part,
}

// Whether neither a svertex nor the face round a svertex has the label.
fn svertices_lack(svertices: &[SVertex], label: Label) -> bool
    ensures lacks { IsTrue result → (k : ℕ) (v : PlainSVertex) → IsAt svertices.now k v → SvertexLacks label v }
{
    for svertex in svertices {
        if svertex.mark == label || svertex.around == Some(label) {
            return false;
        }
    }
    true
}

// Whether neither the item nor a face beside the item has the label.
fn item_lacks(item: &Item, label: Label) -> bool
    ensures lacks { IsTrue result → ItemLacks label (item_of item.now) }
{
    item.mark() != label && item.label(true) != label && item.label(false) != label
}

// Whether neither an item nor a face beside an item has the label.
fn items_lack(map: &SphereMap, label: Label) -> bool
    ensures lacks { IsTrue result → (k : ℕ) (x : PlainItem) → IsAt (items (map_of map.now)) k x → ItemLacks label x }
{
    for number in 0..map.item_count() {
        if !item_lacks(&map.item_at(number), label) {
            return false;
        }
    }
    true
}

// Whether neither the point nor a direction has the label.
fn lacks(map: &SphereMap, label: Label) -> bool
    ensures lacks { IsTrue result → LacksLabel label (map_of map.now) }
{
    if map.mark == label || map.ground == Some(label) {
        return false;
    }
    if !svertices_lack(map.svertices.as_slice(), label) {
        return false;
    }
    items_lack(map, label)
}

/// What a set holds of the frame close to a point, by its map there.
pub(crate) fn share_of(map: &SphereMap) -> Share
    ensures share { (s : Set) (p : SpacePoint) → Cone (map_of map.now) s p → HasShare result s p }
{
    if lacks(map, Label::In) {
        Share::Nothing
    } else if lacks(map, Label::Not) {
        Share::Everything
    } else {
        Share::Part
    }
}

// What the set holds of the frame close to the points of the facet that have this corner.
fn facet_share(c: &Complex, corner: &Corner) -> Share
    requires place { IsPlaceIn (complex_of c.now) (place.InFacet corner.now) }
    ensures share { (s : Set) (y : SpacePoint) → ShowsSet s c.now → IsPlaceAt (complex_of c.now) y (place.InFacet corner.now) → HasShare result s y }
{
    let item = c.vertices.at(corner.vertex).map.item_at(corner.item);
    if item_lacks(&item, Label::In) {
        Share::Nothing
    } else if item_lacks(&item, Label::Not) {
        Share::Everything
    } else {
        Share::Part
    }
}

/// What a set holds of the frame close to a point where all directions have this label.
pub(crate) fn face_share(label: Label) -> Share
    ensures share { InShare result label }
{
    match label {
        Label::In => Share::Everything,
        Label::Out => Share::Nothing,
        Label::Not => Share::Nothing,
    }
}

// What the set holds of the frame close to the vertex with this number, or `Part` if maps aren't looked at.
fn vertex_share(c: &Complex, number: usize, by_maps: bool) -> Share
    requires within { number < length c.now.vertices }
    ensures share { (s : Set) (p : SpacePoint) → ShowsSet s c.now → IsVertexPoint (complex_of c.now) number p → HasShare result s p }
{
    if by_maps {
        share_of(&c.vertices.at(number).map)
    } else {
        Share::Part
    }
}

/// What the set holds of the frame close to the points that lie at this place. No map is made, so on some edges along
/// which the set holds all or nothing the answer is `Part`. Without `by_maps` no map is looked at, and the answer is
/// `Part` at all vertices and on all edges.
pub(crate) fn share_at(c: &Complex, at: &Place, by_maps: bool) -> Share
    requires shows { (s : Set) × ShowsSet s c.now }
    requires place { IsPlaceIn (complex_of c.now) at.now }
    ensures share { (s : Set) (y : SpacePoint) → ShowsSet s c.now → IsPlaceAt (complex_of c.now) y at.now → HasShare result s y }
{
    match *at {
        Place::Vertex(number) => vertex_share(c, number, by_maps),
        // each label close to the edge is a label close to its lower end
        Place::OnEdge(number) => vertex_share(c, c.edges.at(number).low, by_maps),
        Place::InFacet(corner) => facet_share(c, &corner),
        Place::InVolume { .. } => face_share(place_label(c, at)),
    }
}
