ghost use Rattle.std.specs.Prelude.{◌≡◌, ◌↔◌, ℕ, List, slice_get, Some};
ghost use Rattle.sidb_layout.specs.Layout.{Arrangement, IsLayout};
ghost use Rattle.sidb_lattice.specs.Classes.{Classing, IsClassing, AreClasses};

/// Two classes are equal exactly where their squared distances are.
#[tactic(auto, using(crate::proofs::OneClassing::equal_classes))]
pub fn equal_classes_are_equal_distances()
    ensures { (c : Classing) (k m d e : ℕ) → IsClassing c → slice_get c.distances k ≡ Some d
        → slice_get c.distances m ≡ Some e → ((k ≡ m) ↔ (d ≡ e)) }
{}

/// The classes of a layout have one list of squared distances.
#[tactic(auto, using(crate::proofs::OneClassing::one_list))]
pub fn one_list_of_distances()
    ensures { (p : Arrangement) (c e : Classing) → AreClasses p c → AreClasses p e
        → c.distances ≡ e.distances }
{}

/// A layout has one list of classes.
#[tactic(auto, using(crate::proofs::OneClassing::one_classing))]
pub fn one_classing()
    ensures { (p : Arrangement) (c e : Classing) → AreClasses p c → AreClasses p e → c ≡ e }
{}

/// Each layout has a list of classes.
pub fn each_layout_has_classes()
    ensures { (p : Arrangement) → IsLayout p → (c : Classing) × AreClasses p c }
{}
