ghost use Rattle.std.specs.Prelude.{◌≡◌, ◌≢◌, ◌↔◌, ℕ, ℤ, ◌≤ℤ◌, List, length, take, Contains, IsTrue};
ghost use Rattle.charge_model.specs.declared.charge.Charge.{Charge};
ghost use Rattle.charge_model.specs.Problem.{Problem, IsProblem, UnderEveryTable};
ghost use Rattle.charge_model.specs.Rules.{IsGroundState};
ghost use Rattle.charge_model.specs.GroundList.{Entry, IsMarkedGroundList};
ghost use Rattle.level_range_laws.specs.declared.interval.Interval.{Interval};
ghost use Rattle.level_range_laws.specs.Levels.{at_level, IsIn, IsPossibleAt, IsCertainAt, IsCandidateIn, HaveSameValidity};
ghost use Rattle.level_range_laws.specs.Candidates.{AreAllCandidates};
ghost use Rattle.level_range_laws.specs.RangePrefixes.{IsRangePrefix, ListsRangePrefixes, range_prefix_count};
ghost use Rattle.level_range_laws.specs.Answers.{Outcome, lists_of_outcomes, IsAnswerAt, outcomes_of};
ghost use Rattle.level_range_laws.specs.Parts.{Printed, ArePrinted, IsInOne};

/// The levels at which a list is possibly valid have no gap, nor have those at which it is
/// certainly valid.
pub fn levels_of_validity_are_intervals()
    ensures possible { (p : Problem) (c : List Charge) (a m b : ℤ) → a ≤ℤ m → m ≤ℤ b
        → IsPossibleAt p a c → IsPossibleAt p b c → IsPossibleAt p m c }
    ensures certain { (p : Problem) (c : List Charge) (a m b : ℤ) → a ≤ℤ m → m ≤ℤ b
        → IsCertainAt p a c → IsCertainAt p b c → IsCertainAt p m c }
{}

/// Levels at which the same lists are possibly valid, and the same certainly, have the same answer:
/// energies do not depend on the level.
pub fn answers_follow_validity()
    ensures { (p : Problem) (a b : ℤ) (answer : List Outcome)
        → HaveSameValidity p a b → IsAnswerAt p a answer → IsAnswerAt p b answer }
{}

/// There is one answer at a level.
pub fn one_answer_at_a_level()
    ensures { (p : Problem) (level : ℤ) (a b : List Outcome)
        → IsAnswerAt p level a → IsAnswerAt p level b → a ≡ b }
{}

/// There is one list of printed parts of an interval of levels.
pub fn one_list_of_printed_parts()
    ensures { (p : Problem) (levels : Interval) (a b : List Printed)
        → ArePrinted p levels a → ArePrinted p levels b → a ≡ b }
{}

/// Each level of an interval lies in exactly one of the printed parts.
pub fn each_level_is_in_one_part()
    ensures { (p : Problem) (levels : Interval) (parts : List Printed) (level : ℤ)
        → ArePrinted p levels parts → IsIn levels level → IsInOne parts level }
{}

/// There is one list of all candidates of an interval.
pub fn one_list_of_candidates()
    ensures { (p : Problem) (levels : Interval) (a b : List (List Charge))
        → AreAllCandidates p levels a → AreAllCandidates p levels b → a ≡ b }
{}

/// The entries of a marked ground list, each with whether its mark is certain, are the answer.
pub fn marked_lists_are_answers()
    ensures { (p : Problem) (level : ℤ) (es : List Entry)
        → IsMarkedGroundList (at_level p level) es → IsAnswerAt p level (outcomes_of es) }
{}

/// Under every table each ground state at a level is in the answer, and each certain entry of the
/// answer is a ground state.
pub fn answers_hold_ground_states()
    ensures listed { (p : Problem) (level : ℤ) (answer : List Outcome)
        → IsAnswerAt p level answer → UnderEveryTable p (λ t. (c : List Charge)
        → IsGroundState (at_level p level) t c → Contains (lists_of_outcomes answer) c) }
    ensures certain { (p : Problem) (level : ℤ) (answer : List Outcome) (o : Outcome)
        → IsAnswerAt p level answer → Contains answer o → IsTrue o.certain
        → UnderEveryTable p (λ t. IsGroundState (at_level p level) t o.charges) }
{}

/// Each prefix of a list that is possibly valid at some level of an interval is a range prefix.
pub fn prefixes_of_candidates_are_open()
    ensures { (p : Problem) (levels : Interval) (c : List Charge) (m : ℕ)
        → IsProblem p → IsCandidateIn p levels c → IsRangePrefix p levels (take m c) }
{}

/// The count of range prefixes is the length of a list that holds each of them once, and nothing
/// else.
pub fn range_prefixes_are_counted()
    ensures { (p : Problem) (levels : Interval) → (l : List (List Charge))
        × ListsRangePrefixes p levels l × (length l ≡ range_prefix_count p levels) }
{}

/// Each problem has an answer at each level, also at one that no problem may have.
pub fn each_level_has_an_answer()
    ensures { (p : Problem) (level : ℤ) → IsProblem p
        → (answer : List Outcome) × IsAnswerAt p level answer }
{}

/// Each interval of levels has printed parts.
pub fn each_interval_has_printed_parts()
    ensures { (p : Problem) (levels : Interval) → IsProblem p → levels.first ≤ℤ levels.last
        → (parts : List Printed) × ArePrinted p levels parts }
{}

/// All lists that are possibly valid at some level of an interval are the members of one list.
pub fn each_interval_has_candidates()
    ensures { (p : Problem) (levels : Interval) → IsProblem p
        → (all : List (List Charge)) × AreAllCandidates p levels all }
{}
