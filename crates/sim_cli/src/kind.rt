// What each task reads.
ghost use Rattle.std.specs.Prelude.{◌≡◌};
ghost use Rattle.sim_cli.specs.Kind.{kind_of};

use command_words::Task;

/// What a task reads.
#[derive(Clone, Copy, Debug, PartialEq, Eq)]
pub enum InputKind {
    /// A text that means a problem.
    ProblemText,
    /// The text of a certificate.
    CertificateText,
    /// Nothing.
    NoText,
}

/// What a task reads.
pub fn kind_of(task: Task) -> InputKind
    ensures { result ≡ kind_of task }
{
    match task {
        Task::Check => InputKind::CertificateText,
        Task::Gen => InputKind::NoText,
        _ => InputKind::ProblemText,
    }
}
