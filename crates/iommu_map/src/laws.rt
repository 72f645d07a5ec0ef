//! Laws of address spaces. Each is the contract of a function that does nothing.

ghost use Rattle.std.specs.Prelude.{◌≡◌, ◌≢◌, ◌-◌, ◌≤◌, ℕ, List, true, false, Some, length, slice_get};
ghost use Rattle.std.specs.List.{Contains};
ghost use Rattle.busdma_rules.specs.Iommu.Space.{DeviceRun, IsSpace, Space};
ghost use Rattle.busdma_rules.specs.Iommu.Space.{entered, first_free, frame_of_page, has_page};
ghost use Rattle.busdma_rules.specs.Iommu.Space.{is_live, run_unmapped as left};

use crate::Iommu;

/// Two live runs share no device page.
pub fn runs_share_no_page(iommu: &Iommu)
    ensures { (i j p : ℕ) (r q : DeviceRun) → slice_get iommu.now.runs i ≡ Some r →
        slice_get iommu.now.runs j ≡ Some q → has_page p r ≡ true → has_page p q ≡ true → i ≡ j }
{
    iommu.translate(0);
}

/// A new run is live, and so is each run that was live before. The pages of the new run map to its frames,
/// and every other page maps to what it did before. If the new run is ended at once, the space is as it was.
pub fn entered_runs_take_their_own_pages()
    ensures live { (s : Space) (frames : List ℕ) (first : ℕ) → is_live (entered (Some first) frames s) first ≡ true }
    ensures there { (s : Space) (frames : List ℕ) (first : ℕ) →
        Contains (entered (Some first) frames s).runs (record { first = first; frames = frames }) }
    ensures others_live { (s : Space) (frames : List ℕ) (first : ℕ) (r : DeviceRun) → Contains s.runs r →
        Contains (entered (Some first) frames s).runs r }
    ensures own { (s : Space) (frames : List ℕ) (first p : ℕ) → IsSpace s → 1 ≤ length frames →
        first_free s (length frames) ≡ Some first → has_page p (record { first = first; frames = frames }) ≡ true →
        frame_of_page (entered (Some first) frames s).runs p ≡ slice_get frames (p - first) }
    ensures others { (s : Space) (frames : List ℕ) (first p : ℕ) →
        has_page p (record { first = first; frames = frames }) ≡ false →
        frame_of_page (entered (Some first) frames s).runs p ≡ frame_of_page s.runs p }
    ensures back { (s : Space) (frames : List ℕ) (first : ℕ) → IsSpace s → 1 ≤ length frames →
        first_free s (length frames) ≡ Some first → left first (entered (Some first) frames s) ≡ s }
{}

/// No page of a new run belongs to a run that was live before, so no live run had the new run's first page.
pub fn entered_runs_are_new()
    ensures { (s : Space) (frames : List ℕ) (first p : ℕ) (r : DeviceRun) → IsSpace s → 1 ≤ length frames →
        first_free s (length frames) ≡ Some first → Contains s.runs r →
        has_page p (record { first = first; frames = frames }) ≡ true → has_page p r ≡ false }
{}

/// A run that ends releases only its own pages. Every other page maps to what it did before, and each run
/// that begins elsewhere stays live.
pub fn ended_runs_take_their_own_pages()
    ensures others { (s : Space) (p : ℕ) (r : DeviceRun) → IsSpace s → Contains s.runs r → has_page p r ≡ false →
        frame_of_page (left r.first s).runs p ≡ frame_of_page s.runs p }
    ensures live { (s : Space) (first : ℕ) (r : DeviceRun) → Contains s.runs r → r.first ≢ first →
        Contains (left first s).runs r }
{}
