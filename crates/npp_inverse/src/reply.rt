//! The reply of travellers to tolls.

ghost use Rattle.std.specs.Prelude.{◌≡◌, ◌<◌, ◌≤◌, ◌+◌, ◌&&◌, pos, length, map, is_ok, IfOk, OnOk, None, Some, Err, ℕ};
ghost use Rattle.npp_frac.specs.Rational.{whole, ◌+ℚ◌, ◌*ℚ◌};
ghost use Rattle.npp_frac.specs.Fits.{limit_of, fits_add, fits_mul};
ghost use Rattle.npp_net.specs.Network.{toll_count};
ghost use Rattle.npp_rows.specs.Caps.{path_model};
ghost use Rattle.npp_rows.specs.Limits.{path_total};
ghost use Rattle.npp_rows.specs.Lowering.{AreClosedCovers};
ghost use Rattle.npp_rows.specs.Meaning.{reply_value};
ghost use Rattle.npp_rows.specs.Response.{commodity_fits, revenue_below, reply, reply_stop, taken_path, taken_toll};
ghost use Rattle.npp_inverse.specs.Offers.{HasUsefulPaths};
ghost use Rattle.npp_inverse.specs.Replies.{AnswersTolls};

use crate::offer::{Offer, taken_offer};
use crate::refusal::RespondRefusal;
use npp_cover::Cover;
use npp_frac::{Exact, Overflow};
use npp_net::{Instance, Listed, Tolls};
use npp_rows::{PathTable, Response};
use std::alloc::Global;

/// The revenue with what the travellers of a commodity pay together.
fn with_payment<N: Exact>(revenue: N, demand: u32, toll: N) -> Result<N, Overflow<N>>
    requires { demand ≤ 1000000 }
    ensures fits { is_ok result ≡ (fits_mul (limit_of N.WIDTH) (whole (pos demand)) (N.rational toll)
        && fits_add (limit_of N.WIDTH) (N.rational revenue) (whole (pos demand) *ℚ N.rational toll)) }
    ensures exact { IfOk result (λ r. N.rational r ≡ N.rational revenue +ℚ whole (pos demand) *ℚ N.rational toll) }
{
    let payment = N::of_whole(i64::from(demand)).mul(toll)?;
    revenue.add(payment)
}

/// The offer that a commodity takes, and the revenue of the commodities up to it.
fn next_reply<N: Exact>(
    table: &PathTable,
    k: u32,
    tolls: &[N],
    revenue: N,
) -> Result<(Offer<N>, N), Overflow<N>>
    requires k { k < length table.now.covers }
    requires size { length tolls.now ≡ length table.now.caps }
    requires useful { HasUsefulPaths table.now }
    requires revenue { N.rational revenue ≡ revenue_below table.now (map N.rational tolls.now) k }
    ensures fits { is_ok result ≡ commodity_fits (limit_of N.WIDTH) table.now (map N.rational tolls.now) k }
    ensures path { IfOk result (λ r. r.0.path ≡ taken_path table.now (map N.rational tolls.now) k) }
    ensures toll { IfOk result (λ r. N.rational r.0.toll ≡ taken_toll table.now (map N.rational tolls.now) k) }
    ensures revenue { IfOk result (λ r. N.rational r.1 ≡ revenue_below table.now (map N.rational tolls.now) (k + 1)) }
{
    let taken = taken_offer(table, k, tolls)?;
    let total = with_payment(revenue, table.demand(k), taken.toll)?;
    Ok((taken, total))
}

/// The reply to tolls: each commodity takes the useful path of the least price, among these the one that pays the most,
/// among these the first.
///
/// There is one toll for each toll arc. The sums of a path are begun at 0 and go by rising toll, and the revenue goes by
/// rising commodity; a reply that does not fit is refused at the first commodity of which a sum or product does not.
pub fn reply_to<N: Exact>(
    alloc: Global,
    table: &PathTable,
    tolls: &[N],
) -> Result<Response<N>, RespondRefusal>
    requires size { length tolls.now ≡ length table.now.caps }
    requires useful { HasUsefulPaths table.now }
    ensures fits { OnOk result (reply_stop (limit_of N.WIDTH) table.now (map N.rational tolls.now) ≡ None) }
    ensures reply { IfOk result (λ r. reply_value N.rational r ≡ reply table.now (map N.rational tolls.now)) }
    ensures overflow { (k : ℕ) → result ≡ Err (RespondRefusal.Overflow k) → reply_stop (limit_of N.WIDTH) table.now (map N.rational tolls.now) ≡ Some k }
{
    let mut paths = Vec::new(alloc);
    let mut paid = Vec::new(alloc);
    let mut revenue = N::of_whole(0);
    for k in 0..table.commodities() {
        let (taken, total) = match next_reply(table, k, tolls, revenue) {
            Ok(step) => step,
            Err(_) => return Err(RespondRefusal::Overflow { commodity: k }),
        };
        paths.push(taken.path)?;
        paid.push(taken.toll)?;
        revenue = total;
    }
    Ok(Response {
        paths: Listed::of(paths),
        paid: Listed::of(paid),
        revenue,
    })
}

/// The reply of the travellers to tolls, one for each toll arc: each commodity takes the useful path of the least price,
/// among these the one that pays the most, among these the first (the optimistic reply of Labbé, Marcotte and Savard).
///
/// Each path that is taken is cheapest over all walks, and no cheapest walks earn more. The covers are those of the
/// instance, one for each commodity in order. `Overflow` names the first commodity of which a sum or product of the reply
/// does not fit the width.
pub fn respond<N: Exact>(
    alloc: Global,
    instance: &Instance,
    covers: &[Cover],
    tolls: &Tolls<N>,
) -> Result<Response<N>, RespondRefusal>
    requires covers { AreClosedCovers instance.now covers.now }
    requires few { path_total covers.now ≤ 16777216 }
    requires tolls { length tolls.now ≡ toll_count instance.now.arcs }
    ensures fits { OnOk result (reply_stop (limit_of N.WIDTH) (path_model instance.now covers.now) (map N.rational tolls.now) ≡ None) }
    ensures reply { IfOk result (λ r. reply_value N.rational r ≡ reply (path_model instance.now covers.now) (map N.rational tolls.now)) }
    ensures best { IfOk result (λ r. AnswersTolls instance.now (path_model instance.now covers.now) (map N.rational tolls.now) (reply_value N.rational r)) }
    ensures overflow { (k : ℕ) → result ≡ Err (RespondRefusal.Overflow k)
        → reply_stop (limit_of N.WIDTH) (path_model instance.now covers.now) (map N.rational tolls.now) ≡ Some k }
{
    let table = PathTable::new(alloc, instance, covers)?;
    reply_to(alloc, &table, tolls.values())
}
