//! Laws of the account with which a scenario opens. Each law is a clause of a function that does nothing.

ghost use Rattle.busdma_base.specs.declared.scenarios.scenario.Scenario.{Scenario};
ghost use Rattle.busdma_base.specs.Scenarios.Opening.{opening};
ghost use Rattle.busdma_base.specs.Scenarios.Valid.{IsValid};
ghost use Rattle.busdma_machine.specs.Bounce.EachFrame.{LiesBelowMaxmem};
ghost use Rattle.busdma_machine.specs.Bounce.History.{IsOpening};

/// The account with which a valid scenario opens can begin a history. Even if the scenario is not valid,
/// each frame of the account has a number below maxmem.
pub fn scenario_opens()
    ensures may_begin { (s : Scenario) → IsValid s → IsOpening (opening s) }
    ensures below_maxmem { (s : Scenario) → LiesBelowMaxmem (opening s) }
{}
