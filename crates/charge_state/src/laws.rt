ghost use Rattle.std.specs.Prelude.{◌≡◌, ◌≤◌, ◌↔◌, ℕ, List, length, AllPairs, Contains, Result, Ok};
ghost use Rattle.charge_model.specs.declared.charge.Charge.{Charge};
ghost use Rattle.charge_model.specs.declared.charge.Test.{Test};
ghost use Rattle.charge_model.specs.Rules.{IsTestOf, at_site};
ghost use Rattle.charge_model.specs.GroundList.{IsEarlier, own};
ghost use Rattle.charge_state.specs.Order.{IsRun, HoldsEach};
ghost use Rattle.charge_state.specs.Tests.{tests_of};
ghost use Rattle.charge_state.specs.Text.{charges_text, IsReading};
ghost use Rattle.charge_state.specs.declared.text.ChargeFault.{ChargeFault};
ghost use Rattle.charge_model.specs.declared.TheConstants.{MAX_SITES};

/// Going from the first list of n charges by next ones, until there is none, meets each list of
/// n charges of the base, in order and once.
#[tactic(auto, using(crate::proofs::Sequences::run_holds_each))]
pub fn runs_meet_each_list()
    ensures { (base n : ℕ) (lists : List (List Charge))
        → IsRun base n lists → HoldsEach base n lists }
{}

/// For each length and base there is such a run.
pub fn runs_end()
    ensures { (base n : ℕ) → (lists : List (List Charge)) × IsRun base n lists }
{}

/// The tests of a charge, in order, are those that the charge model demands of a site.
pub fn tests_are_those_of_the_model()
    ensures each { (charge : Charge) (test : Test)
        → Contains (tests_of charge) test ↔ IsTestOf charge test }
    ensures in_order { (charge : Charge) (site : ℕ)
        → AllPairs (λ a b. IsEarlier (own (at_site site a)) (own (at_site site b)))
        (tests_of charge) }
{}

/// A text says one thing: one list, or one fault.
#[tactic(auto, using(crate::proofs::Readings::one_reading))]
pub fn texts_have_one_reading()
    ensures { (text : List ℕ) (r s : Result (List Charge) ChargeFault)
        → IsReading text r → IsReading text s → r ≡ s }
{}

/// What is printed of a list is read as this list.
pub fn printed_lists_are_read()
    ensures { (c : List Charge) → length c ≤ MAX_SITES → IsReading (charges_text c) (Ok c) }
{}
