//! Laws of runs, which the callers of the solver may cite. The functions do nothing.

ghost use Rattle.std.specs.Prelude.{◌≡◌, ℕ, Option};
ghost use Rattle.npp_lp.specs.Programs.{LinearProgram};
ghost use Rattle.npp_simplex.specs.Tableau.{Tableau};
ghost use Rattle.npp_simplex.specs.Run.{run};
ghost use Rattle.npp_simplex.specs.Bases.{bases, AreAllDifferent};
ghost use Rattle.npp_simplex.specs.PhaseTwo.{AgreeWithoutExtra, HaveSameRuns};
ghost use Rattle.npp_simplex.specs.Widths.{IsWider, IsNarrow};

/// No two bases of a run over all rational numbers have the same columns.
pub fn no_basis_comes_twice()
    ensures { (p : LinearProgram) (pivots : ℕ) → AreAllDifferent (bases p pivots) }
{}

/// Phase two reads nothing in the goal row of phase one and in the extra column.
pub fn phase_two_reads_no_extra()
    ensures { (t u : Tableau) → AgreeWithoutExtra t u → HaveSameRuns t u }
{}

/// A run that meets no number beyond its limit is the run at each wider limit and over all rational numbers.
pub fn narrow_run_is_each_wider_run()
    ensures { (a b : Option ℕ) (cap : ℕ) (p : LinearProgram) → IsWider a b → IsNarrow (run a cap p) → run b cap p ≡ run a cap p }
{}
