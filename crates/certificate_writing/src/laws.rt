//! What the certificates promise that are written: each problem has one, it is sound, and it is read
//! back as itself.
ghost use Rattle.std.specs.Prelude.{◌≡◌, ◌≤◌, ℕ, pos, List, length};
ghost use Rattle.charge_model.specs.Problem.{Problem, IsProblem};
ghost use Rattle.charge_model.specs.Tree.{node_count};
ghost use Rattle.sidb_units.specs.declared.TheConstants.{MAX_ENTRIES, MAX_NODES};
ghost use Rattle.certificate_model.specs.Certificates.{IsSound};
ghost use Rattle.certificate_reading.specs.Fits.{FitsText};
ghost use Rattle.certificate_reading.specs.Texts.{IsCertText};
ghost use Rattle.certificate_writing.specs.Writing.{IsOwnCertificate};

use certain_energy_laws::laws::least_certain_energies_exist;
use certificate_walk::laws::nodes_have_few_tokens;
use charge_model::laws::energies_are_small;
use ground_list_laws::laws::one_marked_ground_list;
use marked_list_laws::laws::each_problem_has_a_marked_list;
use prefix_laws::laws::one_least_certain;
use prune_certificate::laws::printed_text;
use walk_model::laws::{ground_lists_have_written_tokens, one_list_of_tokens_is_written};

/// A problem has one own certificate.
pub fn one_own_certificate()
    ensures { (p : Problem) (a b : List ℕ) → IsOwnCertificate p a → IsOwnCertificate p b → a ≡ b }
{
    one_marked_ground_list();
    one_least_certain();
    one_list_of_tokens_is_written();
}

/// Each problem has its own certificate.
pub fn each_problem_has_its_own_certificate()
    ensures { (p : Problem) → IsProblem p → (text : List ℕ) × IsOwnCertificate p text }
{
    each_problem_has_a_marked_list();
    least_certain_energies_exist();
    ground_lists_have_written_tokens();
}

/// It is sound.
pub fn own_certificates_are_sound()
    ensures { (p : Problem) (text : List ℕ) (own : IsOwnCertificate p text) → IsProblem p
        → IsSound p (pos 0) own.list own.whole.tokens }
{
    ground_lists_have_written_tokens();
}

/// Where the list has at most 4,096 entries, and the search tree at most 10,000,000 nodes, its
/// numbers are in the ranges of a certificate text, and the text is read back as this certificate.
pub fn own_certificates_are_read_back()
    ensures fits { (p : Problem) (text : List ℕ) (own : IsOwnCertificate p text) → IsProblem p
        → length own.list ≤ MAX_ENTRIES → node_count p own.bound ≤ MAX_NODES
        → FitsText p own.list own.whole.tokens }
    ensures reads { (p : Problem) (text : List ℕ) (own : IsOwnCertificate p text) → IsProblem p
        → length own.list ≤ MAX_ENTRIES → node_count p own.bound ≤ MAX_NODES
        → IsCertText p own.list own.whole.tokens text }
{
    energies_are_small();
    nodes_have_few_tokens();
    printed_text();
}
