//! What holds of the answers of these tasks: there is one for each problem, or for all bytes, and
//! what it tells.
ghost use Rattle.std.specs.Prelude.{◌≡◌, ℕ, List};
ghost use Rattle.charge_model.specs.Problem.{Problem, IsProblem};
ghost use Rattle.command_words.specs.declared.settings.Settings.{Settings};
ghost use Rattle.run_answer.specs.declared.status.Status.{Status as StatusData};
ghost use Rattle.run_answer.specs.declared.status.Status.TheVariants.{Answered};
ghost use Rattle.task_certificate.specs.CertifyAnswer.{IsCertifyAnswer};
ghost use Rattle.task_certificate.specs.CheckAnswer.{IsCheckAnswer};
ghost use Rattle.task_certificate.specs.Told.{TellsCheckedList, TellsSoundCertificate};

use certificate_laws::laws::{certificates_have_one_verdict, sound_lists_are_ground_lists};
use certificate_reading::laws as texts;
use certificate_writing::laws::{
    one_own_certificate, own_certificates_are_read_back, own_certificates_are_sound,
};
use ground_state::laws::one_answer;
use task_ground::laws::{ground_lists_hold, one_report, some_ground_answer};
use walk_model::laws::{each_certificate_has_a_verdict, ground_lists_have_written_tokens};

/// For a problem one status and one text at most are the answer of `certify`.
pub fn one_certify_answer()
    ensures { (s : Settings) (p : Problem) (a b : StatusData) (t u : List ℕ)
        → IsCertifyAnswer s p a t → IsCertifyAnswer s p b u → (a ≡ b) × (t ≡ u) }
{
    one_answer();
    one_own_certificate();
}

/// For a problem some status and some text are the answer of `certify`.
pub fn some_certify_answer()
    ensures { (s : Settings) (p : Problem) → IsProblem p
        → (status : StatusData) × (text : List ℕ) × IsCertifyAnswer s p status text }
{
    some_ground_answer();
    ground_lists_have_written_tokens();
}

/// A text that `certify` answers is that of a sound certificate of the problem.
pub fn certify_answers_tell()
    ensures { (s : Settings) (p : Problem) (text : List ℕ) → IsProblem p
        → IsCertifyAnswer s p Answered text → TellsSoundCertificate p text }
{
    own_certificates_are_read_back();
    own_certificates_are_sound();
}

/// For all bytes one status and one text at most are the answer of `check`.
pub fn one_check_answer()
    ensures { (s : Settings) (bytes : List ℕ) (a b : StatusData) (t u : List ℕ)
        → IsCheckAnswer s bytes a t → IsCheckAnswer s bytes b u → (a ≡ b) × (t ≡ u) }
{
    texts::one_certificate();
    texts::one_fault();
    texts::no_fault();
    certificates_have_one_verdict();
    one_report();
}

/// For all bytes some status and some text are the answer of `check`.
pub fn some_check_answer()
    ensures { (s : Settings) (bytes : List ℕ)
        → (status : StatusData) × (text : List ℕ) × IsCheckAnswer s bytes status text }
{
    texts::each_text_is_read();
    texts::read_texts_fit();
    each_certificate_has_a_verdict();
    one_report();
}

/// Where `check` answers, the list of the certificate is the ground list, and its report tells the
/// ground states under every potential table.
pub fn check_answers_tell()
    ensures { (s : Settings) (bytes text : List ℕ) → IsCheckAnswer s bytes Answered text
        → TellsCheckedList s bytes text }
{
    texts::read_texts_fit();
    sound_lists_are_ground_lists();
    ground_lists_hold();
}
