//! Places in rising lists.

ghost use Rattle.std.specs.Prelude.{◌≡◌, ◌<◌, ◌≤◌, ◌-◌, length, slice_index, slice_index_or, Contains, MatchOption};
ghost use Rattle.std.specs.List.{AllPairs};
ghost use Rattle.npp_rows.specs.Starts.{IsPieceAt};

/// The place of a number in a list that rises strictly.
pub(crate) fn place_in(list: &[u32], number: u32) -> Option<usize>
    requires { AllPairs (λ p q. p < q) list.now }
    ensures { MatchOption result
        (Contains list.now number → ⊥)
        (λ i. (i < length list.now) × (slice_index_or list.now i number ≡ number)) }
{
    list.binary_search(&number).ok()
}

/// The piece in which a place lies, where the starts of the pieces rise strictly and the last of them is their end.
pub(crate) fn piece_of(starts: &[u32], place: u32) -> usize
    requires rising { AllPairs (λ a b. a < b) starts.now }
    requires some { 0 < length starts.now }
    requires low { slice_index starts.now 0 ≤ place }
    requires high { place < slice_index starts.now (length starts.now - 1) }
    ensures { IsPieceAt starts.now place result }
{
    match starts.binary_search(&place) {
        Ok(at) => at,
        Err(gap) => gap - 1,
    }
}
