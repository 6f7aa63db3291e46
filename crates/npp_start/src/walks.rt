//! The walks of a reply.

ghost use Rattle.std.specs.Prelude.{◌≡◌, ◌<◌, ◌≤◌, List, map, length, IfOk};
ghost use Rattle.npp_frac.specs.Rational.{Rational};
ghost use Rattle.npp_cover.specs.Replaces.{path_at};
ghost use Rattle.npp_labels.specs.Covers.{AreUsefulCovers, path_total};
ghost use Rattle.npp_rows.specs.Caps.{path_model};
ghost use Rattle.npp_rows.specs.Meaning.{reply_value};
ghost use Rattle.npp_rows.specs.Response.{reply};
ghost use Rattle.npp_tree.specs.Outcome.{path_line_value};
ghost use Rattle.npp_start.specs.Allowed.{AreAllowed};
ghost use Rattle.npp_start.specs.Walks.{IsReply, IsReplyTo, reply_lines};

use npp_cover::{Cover, UsefulPath};
use npp_frac::Exact;
use npp_net::{Instance, Listed, Memory};
use npp_rows::Response;
use npp_tree::PathLine;
use std::alloc::Global;

/// The walk of each commodity in a reply, with what it costs and what it pays.
///
/// The covers are the useful ones of the instance, one for each commodity in order, and the reply is that of
/// [`respond`](npp_inverse::respond) to some tolls. Under these tolls the walks are cheapest over all walks, and no cheapest
/// walks earn more than they do, which is the revenue of the reply. No walk comes to a node twice.
pub fn walks_of_reply<N: Exact>(
    alloc: Global,
    instance: &Instance,
    covers: &[Cover],
    response: &Response<N>,
) -> Result<Vec<PathLine<N>>, Memory>
    requires covers { AreUsefulCovers instance.now.arcs instance.now.commodities covers.now }
    requires reply { IsReply (path_model instance.now covers.now) (reply_value N.rational response.now) }
    ensures lines { IfOk result (λ lines. map (path_line_value N.rational) lines.items
        ≡ reply_lines (path_model instance.now covers.now) (reply_value N.rational response.now)) }
    ensures reply { (T : List Rational) → AreAllowed instance.now T → reply_value N.rational response.now ≡ reply (path_model instance.now covers.now) T
        → IfOk result (λ lines. IsReplyTo instance.now T (map (path_line_value N.rational) lines.items) (N.rational response.now.revenue)) }
{
    let paths = response.paths.entries();
    let paid = response.paid.entries();
    let mut lines = Vec::new(alloc);
    for k in 0..instance.commodities().len() {
        let path = &covers[k].paths()[paths[k] as usize];
        lines.push(taken_line(alloc, path, paid[k])?)?;
    }
    Ok(lines)
}

/// The walk of a path, with what it pays.
fn taken_line<N: Exact>(alloc: Global, path: &UsefulPath, paid: N) -> Result<PathLine<N>, Memory>
    ensures { IfOk result (λ line. path_line_value N.rational line
        ≡ record { cost = path.now.cost; paid = N.rational paid; arcs = path.now.walk.arcs.items }) }
{
    let arcs = Vec::from_slice(alloc, &path.walk.arcs)?;
    Ok(PathLine {
        cost: path.cost,
        paid,
        arcs: Listed::of(arcs),
    })
}
