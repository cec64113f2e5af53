//! How the members of a search tree are counted, and how the count grows with the threshold.
ghost use Rattle.std.specs.Prelude.{◌≡◌, ◌+◌, ◌<◌, ◌≤◌, ℤ, List, [], length, true, false, Option};
ghost use Rattle.charge_model.specs.declared.charge.Charge.{Charge};
ghost use Rattle.charge_model.specs.Problem.{Problem};
ghost use Rattle.charge_model.specs.Tree.{is_node, node_count};
ghost use Rattle.tree_leaves.specs.Subtree.{nodes_under, nodes_beyond, IsThresholdAtMost};

/// No member begins with a prefix that is no node, one with a node that has all its charges, and
/// with another node itself and those with one charge more. All begin with the empty prefix.
#[tactic(auto, using(crate::proofs::Counts::counted))]
pub fn nodes_count_their_children()
    ensures closed { (p : Problem) (threshold : Option ℤ) (prefix : List Charge)
        → is_node p threshold prefix ≡ false → nodes_under p threshold prefix ≡ 0 }
    ensures full { (p : Problem) (threshold : Option ℤ) (prefix : List Charge)
        → p.sites ≤ length prefix → is_node p threshold prefix ≡ true
        → nodes_under p threshold prefix ≡ 1 }
    ensures beyond { (p : Problem) (threshold : Option ℤ) (prefix : List Charge)
        → length prefix < p.sites → is_node p threshold prefix ≡ true
        → nodes_under p threshold prefix ≡ nodes_beyond p threshold prefix + 1 }
    ensures whole { (p : Problem) (threshold : Option ℤ)
        → nodes_under p threshold [] ≡ node_count p threshold }
{}

/// A higher threshold has no fewer members.
#[tactic(auto, using(crate::proofs::Thresholds::count_more))]
pub fn higher_thresholds_have_no_fewer_nodes()
    ensures { (p : Problem) (a b : Option ℤ) (prefix : List Charge) → IsThresholdAtMost a b
        → nodes_under p a prefix ≤ nodes_under p b prefix }
{}
