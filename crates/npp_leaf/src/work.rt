//! What the work on a node finds.

ghost use Rattle.std.specs.Prelude.{◌≡◌, None, Some};

use npp_net::Tolls;
use npp_rows::{Mark, Response};
use npp_tree::{Bound, Evidence, Point};

/// What the exact work on the program of a node finds.
#[derive(Debug, Drop)]
pub struct LeafWork<N> {
    /// What bounds the node: a dual or a Farkas answer of its program, or why the program has none at the width.
    pub evidence: Evidence<N>,
    /// The value of the evidence: the optimum of the program, or Empty where it has no point. A mark has none.
    pub value: Option<Bound>,
    /// The point of the run, exactly where the evidence is Dual.
    pub point: Option<Point<N>>,
    /// The best tolls of a full choice with the reply to them, exactly where the evidence is Inverse.
    pub best: Option<(Tolls<N>, Response<N>)>,
}

impl<N> LeafWork<N> {
    /// The work on a program that is not quiet.
    pub(crate) fn marked(mark: Mark) -> LeafWork<N>
        ensures { result ≡ record { evidence = Evidence.Basic mark; value = None; point = None; best = None } }
    {
        LeafWork {
            evidence: Evidence::Basic(mark),
            value: None,
            point: None,
            best: None,
        }
    }

    /// The work on a program without a point, by its evidence.
    pub(crate) fn without_point(evidence: Evidence<N>) -> LeafWork<N>
        ensures { result ≡ record { evidence = evidence; value = Some Bound.Empty; point = None; best = None } }
    {
        LeafWork {
            evidence,
            value: Some(Bound::Empty),
            point: None,
            best: None,
        }
    }
}
