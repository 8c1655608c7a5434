//! A complex, the lookup of its vertices by their points, and what its index tells: what each carrier holds, and which
//! carriers hold a vertex or an edge.

ghost use Rattle.std.specs.Prelude.{◌<◌};
ghost use Rattle.nef_complex.specs.Prelude.{ℕ, IsNone, IfSome, IfOk, IfErr, length, point_of, form_of, IsAt, Set, Plane, IsVertexPoint, complex_of, AreSorted, AreBelow, AreAbove, ShowsSet, IsIndexed, Edge as EdgeValue, Vertex as VertexValue, HasItemIn, LiesOn, EdgeLiesIn, AreNumbersWith, AreHolders, AreHoldersAlong, AreSpans, AreAlone, ArePeaks, AreClusters, points_of};

use nef_geo::{List, Plane, Point, lex_cmp};
use nef_index::{Cluster, Edge, Index, Span};
use nef_smap::SphereMap;

/// A vertex: a point where no direction is flat, with the least map of the set there.
#[derive(Drop)]
pub struct Vertex {
    pub point: Point,
    pub map: SphereMap,
}

/// A complex. Its carriers are the planes of the halves that the set was made of and the six planes of the frame, in
/// order of their four numbers, once each. Vertices stand in increasing order of their points, edges in increasing
/// order of their lower vertex and its svertex. For each carrier a flag tells whether it is the plane of an item of some
/// vertex. The index is that of some carriers, points and edges: calls that read it ask that it be that of the complex.
#[derive(Drop)]
pub struct Complex {
    pub carriers: List<Plane>,
    pub vertices: List<Vertex>,
    pub edges: List<Edge>,
    pub has_item: List<bool>,
    pub index: Index,
}

/// An item of a vertex: the number of an arc, or the number of arcs for the sloop.
#[derive(Clone, Copy)]
pub struct Corner {
    pub vertex: usize,
    pub item: usize,
}

/// What a ray within a plane first meets: a vertex or an edge, by its number.
#[derive(Clone, Copy)]
pub enum PlaneMeet {
    AtVertex(usize),
    AtEdge(usize),
}

/// The number of the vertex at `p`, by halving, or `Err` with how many vertices come before `p`; all others come after.
pub fn find_vertex(c: &Complex, p: &Point) -> Result<usize, usize>
    requires sorted { AreSorted c.now.vertices }
    ensures found { IfOk result (λ k. IsVertexPoint (complex_of c.now) k (point_of p.now)) }
    ensures before { IfErr result (λ n. AreBelow c.now.vertices n p.now) }
    ensures after { IfErr result (λ n. AreAbove c.now.vertices n p.now) }
{
    c.vertices
        .as_slice()
        .binary_search_by(|v| lex_cmp(&v.point, p))
}

/// The number of the vertex at `p`, or `None` exactly where no vertex stands there.
pub fn vertex_at(c: &Complex, p: &Point) -> Option<usize>
    requires sorted { AreSorted c.now.vertices }
    ensures found { IfSome result (λ k. IsVertexPoint (complex_of c.now) k (point_of p.now)) }
    ensures none { IsNone result → (k : ℕ) → IsVertexPoint (complex_of c.now) k (point_of p.now) → ⊥ }
{
    match find_vertex(c, p) {
        Ok(number) => Some(number),
        Err(_before) => None,
    }
}

/// The numbers of the edges in a plane and of the vertices on it, in increasing order, and the peaks of the edges.
#[derive(Clone, Copy)]
pub struct PlaneItems<'a> {
    pub edges: &'a [usize],
    pub vertices: &'a [usize],
    pub peaks: &'a [usize],
}

/// The edges and vertices of the plane, which is looked up among the carriers by halving. `None` comes exactly where
/// the plane is that of no vertex's item.
pub fn plane_items<'a>(c: &'a Complex, h: &Plane) -> Option<PlaneItems<'a>>
    requires shows { (s : Set) × ShowsSet s c.now }
    ensures item { IfSome result (λ r. HasItemIn c.now.vertices (form_of h.now)) }
    ensures edges { IfSome result (λ r. AreNumbersWith (EdgeLiesIn c.now.vertices c.now.edges (form_of h.now)) r.edges.now) }
    ensures vertices { IfSome result (λ r. AreNumbersWith (LiesOn c.now.vertices (form_of h.now)) r.vertices.now) }
    ensures peaks { IfSome result (λ r. ArePeaks c.now.edges r.edges.now r.peaks.now) }
    ensures none { IsNone result → HasItemIn c.now.vertices (form_of h.now) → ⊥ }
{
    match c.carriers.as_slice().binary_search(h) {
        Ok(number) => {
            if *c.has_item.at(number) {
                Some(carrier_items(c, number))
            } else {
                None
            }
        }
        Err(_place) => None,
    }
}

/// The numbers of the carriers that hold the vertex with this number, in increasing order.
pub fn vertex_holders(c: &Complex, number: usize) -> &[usize]
    requires indexed { IsIndexed c.now }
    requires within { number < length c.now.vertices }
    ensures holders { (v : VertexValue) → IsAt c.now.vertices number v → AreHolders c.now.carriers (point_of v.point) (point_of v.point) result.now }
{
    c.index.point_holders(number)
}

/// The numbers of the carriers that hold both ends of the edge with this number, in increasing order.
pub fn edge_holders(c: &Complex, number: usize) -> &[usize]
    requires indexed { IsIndexed c.now }
    requires within { number < length c.now.edges }
    ensures holders { (e : EdgeValue) → IsAt c.now.edges number e → AreHoldersAlong c.now.carriers c.now.vertices e result.now }
{
    c.index.edge_holders(number)
}

/// The edges that lie in the carrier with this number, and the vertices on the carrier.
pub fn carrier_items<'a>(c: &'a Complex, number: usize) -> PlaneItems<'a>
    requires indexed { IsIndexed c.now }
    requires within { number < length c.now.carriers }
    ensures edges { (h : Plane) → IsAt c.now.carriers number h → AreNumbersWith (EdgeLiesIn c.now.vertices c.now.edges (form_of h)) result.edges.now }
    ensures vertices { (h : Plane) → IsAt c.now.carriers number h → AreNumbersWith (LiesOn c.now.vertices (form_of h)) result.vertices.now }
    ensures peaks { ArePeaks c.now.edges result.edges.now result.peaks.now }
{
    let (edges, peaks) = c.index.carrier_edges(number);
    PlaneItems {
        edges,
        vertices: c.index.carrier_points(number),
        peaks,
    }
}

/// For each vertex the span of its point alone.
pub fn point_spans(c: &Complex) -> &[Span]
    requires indexed { IsIndexed c.now }
    ensures alone { AreAlone c.now.vertices result.now }
{
    c.index.point_spans()
}

/// For each carrier a span of the vertices on it.
pub fn carrier_spans(c: &Complex) -> &[Span]
    requires indexed { IsIndexed c.now }
    ensures spans { AreSpans c.now.carriers c.now.vertices result.now }
{
    c.index.carrier_spans()
}

/// The carriers in groups, and the groups in clusters, with spans of the vertices on their carriers. Each carrier
/// stands in some group of some cluster.
pub(crate) fn carrier_clusters(c: &Complex) -> &[Cluster]
    requires indexed { IsIndexed c.now }
    ensures clusters { AreClusters c.now.carriers (points_of c.now.vertices) result.now }
{
    c.index.clusters()
}
