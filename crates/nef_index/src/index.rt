//! The index of a skeleton.

ghost use Rattle.std.specs.Prelude.{◌≡◌, ◌<◌};
ghost use Rattle.nef_geo.specs.Prelude.{length, IfOk, IsAt, point_of, form_of};
ghost use Rattle.nef_geo.specs.declared.plane.Plane.{Plane};
ghost use Rattle.nef_geo.specs.declared.point.Point.{Point};
ghost use Rattle.nef_index.specs.declared.skeleton.Edge.{Edge as EdgeValue};
ghost use Rattle.nef_index.specs.Numbers.{AreNumbersWith};
ghost use Rattle.nef_index.specs.Skeleton.{IndexedLists, IsPointOn, IsEdgeIn};
ghost use Rattle.nef_index.specs.Carriers.{AreHolders};
ghost use Rattle.nef_index.specs.Peaks.{ArePeaks};
ghost use Rattle.nef_index.specs.Index.{AreGiven, AreEndHolders, ArePointSpans, AreCarrierSpans, AreClusters};

use crate::OutOfMemory;
use crate::groups::Cluster;
use crate::making::{carriers_spanned, edge_rows, edges_in_carriers};
use crate::skeleton::{Edge, Told};
use crate::spans::Span;
use crate::table::Table;
use nef_geo::List;
use std::alloc::Global;
use std::marker::Model;

/// The index of a skeleton, which is carriers, points and edges; contracts see the skeleton. For each point: the numbers
/// of the carriers that hold it, and its span. For each edge: the numbers of the carriers that hold both ends. For each
/// carrier: the numbers of the points on it and of the edges in it, and a span of these points. All rows of numbers
/// increase. Clusters of groups hold carriers that lie close to one another; long rows of edges have peaks.
#[derive(Drop)]
pub struct Index {
    at_point: Table,
    at_edge: Table,
    on_carrier: Table,
    in_carrier: Table,
    points: List<Span>,
    carriers: List<Span>,
    clusters: List<Cluster>,
    peaks: Table,
    told: Told,
}

impl Model for Index {
    ghost use Rattle.nef_index.specs.Skeleton.{IndexedLists};

    ghost Value = { IndexedLists };

    ghost use Rattle.nef_index.specs.Index.{IsIndex};

    ghost view = { λ x. x.told.skeleton };

    ghost invariant = { λ x. IsIndex x };
}

impl Index {
    /// The index of a skeleton with `count` carriers and these edges. The carriers that hold each point and a span of each
    /// point are given. `OutOfMemory` says that memory was wanted and not found.
    pub fn of(
        alloc: Global,
        count: usize,
        edges: &[Edge],
        at_point: Table,
        points: List<Span>,
    ) -> Result<Index, OutOfMemory>
        ghost of: { IndexedLists }
        requires given { AreGiven of count edges.now at_point points }
        ensures index { IfOk result (λ x. x ≡ of) }
    {
        let at_edge = edge_rows(alloc, edges, &at_point)?;
        let on_carrier = at_point.transposed(alloc, count)?;
        let (in_carrier, peaks) = edges_in_carriers(alloc, count, edges, &at_edge)?;
        let (carriers, clusters) = carriers_spanned(alloc, points.as_slice(), &on_carrier)?;
        let told = Told::new(&alloc);
        Ok(Index {
            at_point,
            at_edge,
            on_carrier,
            in_carrier,
            points,
            carriers,
            clusters,
            peaks,
            told,
        })
    }

    /// The numbers of the carriers that hold the point with this number, in increasing order.
    pub fn point_holders(&self, number: usize) -> &[usize]
        requires within { number < length self.now.points }
        ensures holders { (p : Point) → IsAt self.now.points number p → AreHolders self.now.carriers (point_of p) (point_of p) result.now }
    {
        self.at_point.row(number)
    }

    /// The numbers of the carriers that hold both ends of the edge with this number, in increasing order.
    pub fn edge_holders(&self, number: usize) -> &[usize]
        requires within { number < length self.now.edges }
        ensures holders { (e : EdgeValue) → IsAt self.now.edges number e → AreEndHolders self.now.carriers self.now.points e result.now }
    {
        self.at_edge.row(number)
    }

    /// The numbers of the points on the carrier with this number, in increasing order.
    pub fn carrier_points(&self, number: usize) -> &[usize]
        requires within { number < length self.now.carriers }
        ensures points { (h : Plane) → IsAt self.now.carriers number h → AreNumbersWith (IsPointOn self.now.points (form_of h)) result.now }
    {
        self.on_carrier.row(number)
    }

    /// The numbers of the edges in the carrier with this number, in increasing order, and the peaks of this row.
    pub fn carrier_edges(&self, number: usize) -> (&[usize], &[usize])
        requires within { number < length self.now.carriers }
        ensures edges { (h : Plane) → IsAt self.now.carriers number h → AreNumbersWith (IsEdgeIn self.now.points self.now.edges (form_of h)) result.0.now }
        ensures peaks { ArePeaks self.now.edges result.0.now result.1.now }
    {
        (self.in_carrier.row(number), self.peaks.row_or_none(number))
    }

    /// For each point its span.
    pub fn point_spans(&self) -> &[Span]
        ensures spans { ArePointSpans self.now.points result.now }
    {
        self.points.as_slice()
    }

    /// For each carrier a span of the points on it.
    pub fn carrier_spans(&self) -> &[Span]
        ensures spans { AreCarrierSpans self.now.carriers self.now.points result.now }
    {
        self.carriers.as_slice()
    }

    /// The carriers in groups, and the groups in clusters, with spans of the points on their carriers. Each carrier
    /// stands in some group of some cluster.
    pub fn clusters(&self) -> &[Cluster]
        ensures clusters { AreClusters self.now.carriers self.now.points result.now }
    {
        self.clusters.as_slice()
    }
}
