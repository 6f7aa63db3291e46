//! One operation at one width, and at two.

ghost use Rattle.std.specs.Prelude.{◌≡◌, ◌≢◌, ◌≤◌, is_ok, IfOk, IfErr, IsOkAnd};
ghost use Rattle.npp_frac.specs.Fits.{limit_of};
ghost use Rattle.npp_frac.specs.Operation.{value_by, fits_by};
ghost use Rattle.npp_frac.specs.Rational.{zero_ℚ};

use crate::exact::Exact;
use crate::refusal::{Op, Overflow};

/// The operation of a name on two values. A divisor is not zero.
pub fn apply<N: Exact>(op: Op, left: N, right: N) -> Result<N, Overflow<N>>
    requires { op ≡ Op.Div → N.rational right ≢ zero_ℚ }
    ensures fits { is_ok result ≡ fits_by op (limit_of N.WIDTH) (N.rational left) (N.rational right) }
    ensures exact { IfOk result (λ r. N.rational r ≡ value_by op (N.rational left) (N.rational right)) }
    ensures refused { IfErr result (λ e. e ≡ record { op = op; left = left; right = right }) }
{
    match op {
        Op::Add => left.add(right),
        Op::Sub => left.sub(right),
        Op::Mul => left.mul(right),
        Op::Div => left.div(right),
    }
}

/// One operation on two values at a width, and on the same values at one that is not smaller.
///
/// What fits at a width fits at each greater width, with the same value.
pub fn apply_at_both<N: Exact, W: Exact>(
    op: Op,
    narrow: (N, N),
    wide: (W, W),
) -> (Result<N, Overflow<N>>, Result<W, Overflow<W>>)
    requires wider { N.WIDTH ≤ W.WIDTH }
    requires left { W.rational wide.0 ≡ N.rational narrow.0 }
    requires right { W.rational wide.1 ≡ N.rational narrow.1 }
    requires divisor { op ≡ Op.Div → N.rational narrow.1 ≢ zero_ℚ }
    ensures narrow { is_ok result.0 ≡ fits_by op (limit_of N.WIDTH) (N.rational narrow.0) (N.rational narrow.1) }
    ensures exact { IfOk result.0 (λ n. N.rational n ≡ value_by op (N.rational narrow.0) (N.rational narrow.1)) }
    ensures wide { is_ok result.1 ≡ fits_by op (limit_of W.WIDTH) (W.rational wide.0) (W.rational wide.1) }
    ensures same { IfOk result.0 (λ n. IsOkAnd result.1 (λ w. W.rational w ≡ N.rational n)) }
{
    (apply(op, narrow.0, narrow.1), apply(op, wide.0, wide.1))
}
