//! Laws of the control channels' resource elements.

ghost use Rattle.std.specs.Prelude.{◌≤◌, ℕ, List};
ghost use Rattle.lte_types.specs.declared.duration.Duration.{Duration};
ghost use Rattle.lte_types.specs.declared.resource.Resource.{Resource};
ghost use Rattle.grid_map.specs.declared.Reg.{Reg};
ghost use Rattle.grid_map.specs.Control.{pcfich_places, pdcch_groups};
ghost use Rattle.grid_map.specs.Candidate.{candidate_places};
ghost use Rattle.grid_map.specs.Laws.{IsIndexed, CarryCandidate};

/// A law: the PCFICH has sixteen different resource elements, and the PDCCH candidate has 144. With a control format
/// indicator of 2 or 3, the PDCCH has enough resource-element groups for the candidate.
pub fn control_places()
    ensures pcfich { (identity : ℕ) → IsIndexed 16 (pcfich_places identity) }
    ensures candidate { (identity : ℕ) (groups : List Reg) → CarryCandidate groups →
        IsIndexed 144 (candidate_places identity groups) }
    ensures groups { (identity cfi : ℕ) (duration : Duration) (resource : Resource) → 2 ≤ cfi → cfi ≤ 3 →
        CarryCandidate (pdcch_groups identity cfi duration resource) }
{}
