//! The tolls with which a search starts.

ghost use Rattle.std.specs.Prelude.{◌≡◌, None, map, replicate, length, IfOk};
ghost use Rattle.npp_frac.specs.Rational.{zero_ℚ};
ghost use Rattle.npp_frac.specs.Fits.{limit_of};
ghost use Rattle.npp_rows.specs.Meaning.{reply_value};
ghost use Rattle.npp_rows.specs.Response.{reply, reply_stop};
ghost use Rattle.npp_inverse.specs.Offers.{HasUsefulPaths};
ghost use Rattle.npp_inverse.specs.Best.{AreWithinCaps};
ghost use Rattle.npp_start.specs.Start.{no_tolls, start_tolls};

use npp_frac::Exact;
use npp_inverse::{Best, RespondRefusal, best_tolls_for, reply_to};
use npp_net::{Memory, Tolls};
use npp_rows::{PathTable, Response};
use std::alloc::Global;

/// Tolls, and the travellers' reply to them.
#[derive(Debug, Drop)]
pub struct Start<N> {
    /// The tolls, by the numbers of the toll arcs.
    pub tolls: Tolls<N>,
    /// The reply to them, which fits the width. Its revenue is the first lower value of a search.
    pub response: Response<N>,
}

/// The best tolls under which each commodity takes its first useful path, which costs the least where all tolls are zero;
/// and zero tolls where the program of this choice is not quiet at the width of `N`.
pub fn find_start_for<N: Exact>(alloc: Global, table: &PathTable) -> Result<Start<N>, Memory>
    requires { HasUsefulPaths table.now }
    ensures tolls { IfOk result (λ s. map N.rational s.tolls ≡ start_tolls (limit_of N.WIDTH) table.now) }
    ensures size { IfOk result (λ s. length s.tolls ≡ length table.now.caps) }
    ensures capped { IfOk result (λ s. AreWithinCaps table.now (map N.rational s.tolls)) }
    ensures fits { IfOk result (λ s. reply_stop (limit_of N.WIDTH) table.now (map N.rational s.tolls) ≡ None) }
    ensures reply { IfOk result (λ s. reply_value N.rational s.response ≡ reply table.now (map N.rational s.tolls)) }
{
    let choice = zero_choice(alloc, table.commodities())?;
    match best_tolls_for(alloc, table, &choice)? {
        Best::Found {
            tolls,
            response,
            ..
        } => Ok(Start { tolls, response }),
        Best::NoTolls { .. } => without_tolls(alloc, table),
        Best::Loud(_) => without_tolls(alloc, table),
    }
}

/// Path 0 of each commodity.
fn zero_choice(alloc: Global, commodities: u32) -> Result<Vec<u32>, Memory>
    ensures { IfOk result (λ choice. choice.items ≡ replicate commodities 0) }
{
    let choice = vec![in alloc; 0; commodities as usize]?;
    Ok(choice)
}

/// Zero on each toll arc.
fn zero_tolls<N: Exact>(alloc: Global, count: u32) -> Result<Vec<N>, Memory>
    ensures { IfOk result (λ tolls. map N.rational tolls.items ≡ replicate count zero_ℚ) }
{
    let zero = N::of_whole(0);
    let mut tolls = Vec::new(alloc);
    for _toll in 0..count {
        tolls.push(zero)?;
    }
    Ok(tolls)
}

/// Zero tolls, and the reply to them.
fn without_tolls<N: Exact>(alloc: Global, table: &PathTable) -> Result<Start<N>, Memory>
    requires { HasUsefulPaths table.now }
    ensures tolls { IfOk result (λ s. map N.rational s.tolls ≡ no_tolls table.now) }
    ensures size { IfOk result (λ s. length s.tolls ≡ length table.now.caps) }
    ensures capped { IfOk result (λ s. AreWithinCaps table.now (map N.rational s.tolls)) }
    ensures fits { IfOk result (λ s. reply_stop (limit_of N.WIDTH) table.now (map N.rational s.tolls) ≡ None) }
    ensures reply { IfOk result (λ s. reply_value N.rational s.response ≡ reply table.now (map N.rational s.tolls)) }
{
    let tolls = zero_tolls(alloc, table.tolls())?;
    match reply_to(alloc, table, &tolls) {
        Ok(response) => Ok(Start {
            tolls: Tolls::of(tolls),
            response,
        }),
        Err(RespondRefusal::Overflow { .. }) => unreachable!(),
        Err(RespondRefusal::Memory) => Err(Memory),
    }
}
