//! Rows of edges in order of their lower ends, by numbers of vertices. Upper ends stand in no order: peaks tell of many
//! edges at once that all of them end before a vertex.

ghost use Rattle.std.specs.Prelude.{◌≡◌, ◌<◌, ◌≤◌, ◌+◌};
ghost use Rattle.nef_complex.specs.Prelude.{ℕ, length, IsAt, Set, Form, Edge as EdgeValue, ShowsSet, AreNumbersOf, AreNumbersWith, EdgeLiesIn, EndBelow, ArePeaks};

use crate::complex::{Complex, PlaneItems};
use nef_index::passed_from;

impl PlaneItems<'_> {
    /// How many of the edges have a lower end with a number below `limit`. These edges come first in the row.
    pub fn edges_before(&self, c: &Complex, limit: usize) -> usize
        requires shows { (s : Set) × ShowsSet s c.now }
        requires edges { (h : Form) × AreNumbersWith (EdgeLiesIn c.now.vertices c.now.edges h) self.now.edges.now }
        ensures within { result ≤ length self.now.edges.now }
        ensures before { (i k : ℕ) (e : EdgeValue) → i < result → IsAt self.now.edges.now i k → IsAt c.now.edges k e → e.low < limit }
        ensures beyond { (i k : ℕ) (e : EdgeValue) → result ≤ i → IsAt self.now.edges.now i k → IsAt c.now.edges k e → limit ≤ e.low }
    {
        let mut low = 0;
        let mut high = self.edges.len();
        while low < high {
            let middle = low + (high - low) / 2;
            if c.edges.at(self.edges[middle]).low < limit {
                low = middle + 1;
            } else {
                high = middle;
            }
        }
        high
    }

    /// The last of the first `count` edges whose upper end isn't below `least`, by its number in the row, counted from
    /// 1; 0 where each upper end is below.
    pub fn last_reaching(&self, c: &Complex, count: usize, least: usize) -> usize
        requires within { AreNumbersOf c.now.edges self.now.edges.now }
        requires peaks { ArePeaks c.now.edges self.now.edges.now self.now.peaks.now }
        requires count { count ≤ length self.now.edges.now }
        ensures count { result ≤ count }
        ensures passed { EndBelow c.now.edges self.now.edges.now result count least }
        ensures reaches { (i k : ℕ) (e : EdgeValue) → result ≡ i + 1 → IsAt self.now.edges.now i k → IsAt c.now.edges k e → least ≤ e.high }
    {
        let mut place = count;
        while 0 < place {
            if let Some(first) = passed_from(self.peaks, place, least) {
                place = first;
            } else if c.edges.at(self.edges[place - 1]).high < least {
                place -= 1;
            } else {
                return place;
            }
        }
        0
    }
}
