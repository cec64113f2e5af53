ghost use Rattle.std.specs.Prelude.{◌≤◌, ◌↔◌, ℤ, List, length, Contains, Option};
ghost use Rattle.charge_model.specs.declared.charge.Charge.{Charge};
ghost use Rattle.charge_model.specs.Problem.{Problem, Table, IsProblem, IsTable};
ghost use Rattle.charge_model.specs.GroundList.{IsGroundList, IsListed};
ghost use Rattle.charge_model.specs.Tree.{node_count, IsLeastCertain};
ghost use Rattle.narrower_laws.specs.Narrower.{AreStaying, IsNarrower, Stays};

use certain_energy_laws::laws::energies_have_greatest_values;
use charge_model::laws::{beating_is_transitive, energies_are_small, problems_have_tables};

/// A table of a problem is a table of each wider one.
pub fn tables_are_tables_of_wider_problems()
    ensures { (wide narrow : Problem) (t : Table) → IsNarrower wide narrow
        → IsTable narrow t → IsTable wide t }
{}

/// Each entry of a problem's ground list is an entry of each wider problem's.
pub fn entries_are_entries_of_wider_problems()
    ensures { (wide narrow : Problem) (l m : List (List Charge)) (c : List Charge)
        → IsNarrower wide narrow → IsGroundList wide l → IsGroundList narrow m
        → Contains m c → Contains l c }
{}

/// The lists that stay in a problem of a wider problem's ground list are those that are listed
/// there, and no others.
pub fn staying_lists_are_listed()
    ensures { (wide narrow : Problem) (l : List (List Charge)) (c : List Charge)
        → IsProblem narrow → IsNarrower wide narrow → IsGroundList wide l
        → (Stays narrow l c ↔ IsListed narrow c) }
{
    problems_have_tables();
    energies_are_small();
    beating_is_transitive();
}

/// The ground list of a problem is what stays in it of a wider problem's ground list: no other list
/// need be looked at.
pub fn ground_lists_come_from_those_of_wider_problems()
    ensures { (wide narrow : Problem) (l m : List (List Charge)) → IsProblem narrow
        → IsNarrower wide narrow → IsGroundList wide l → AreStaying narrow l m
        → IsGroundList narrow m }
{
    problems_have_tables();
    energies_are_small();
    beating_is_transitive();
}

/// The ground list of a problem is no longer than that of each wider one.
pub fn narrower_ground_lists_are_no_longer()
    ensures { (wide narrow : Problem) (l m : List (List Charge)) → IsNarrower wide narrow
        → IsGroundList wide l → IsGroundList narrow m → length m ≤ length l }
{}

/// The search tree of a problem under its least certain energy has no more nodes than that of each
/// wider problem.
pub fn narrower_problems_take_no_more_nodes()
    ensures { (wide narrow : Problem) (b c : Option ℤ) → IsProblem narrow
        → IsNarrower wide narrow → IsLeastCertain wide b → IsLeastCertain narrow c
        → node_count narrow c ≤ node_count wide b }
{
    energies_have_greatest_values();
}
