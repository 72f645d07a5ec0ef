//! Laws of storms. Each law is the contract of a function that does nothing.

ghost use Rattle.std.specs.Prelude.{ℕ, ◌≡◌, ◌≤◌, ◌+◌, ◌*◌, ◌↔◌};
ghost use Rattle.std.specs.List.{AllByRecursion};
ghost use Rattle.busdma_base.specs.declared.scenarios.scenario.Driver.{Driver};
ghost use Rattle.busdma_base.specs.Scenarios.Script.{steps_of};
ghost use Rattle.busdma_base.specs.Scenarios.Valid.{IsValid};
ghost use Rattle.program_rules.specs.Storms.Scenario.{storm_scenario};

/// A storm of up to 256 rounds is a valid scenario.
pub fn storms_are_valid()
    ensures { (n seed : ℕ) → n ≤ 256 → IsValid (storm_scenario n seed) }
{}

/// Each driver of a storm has three operations, and seven operations and items for each round. With 256
/// rounds these are 1795.
pub fn storms_have_seven_steps_a_round()
    ensures { (n seed : ℕ) → AllByRecursion (λ (d : Driver). steps_of d.script ≡ 3 + 7 * n) (storm_scenario n seed).drivers }
{}
