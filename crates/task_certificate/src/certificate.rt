ghost use Rattle.std.specs.Prelude.{◌≡◌, ◌≤◌, length};
ghost use Rattle.charge_model.specs.GroundList.{IsMarkedGroundList};
ghost use Rattle.charge_model.specs.Tree.{IsLeastCertain, node_count};
ghost use Rattle.sidb_io.specs.Outside.{HasFault};
ghost use Rattle.sidb_units.specs.declared.TheConstants.{MAX_ENTRIES, MAX_NODES};
ghost use Rattle.token_sinks.specs.Taking.{IsFault, OnlyFaultRaises};
ghost use Rattle.task_certificate.specs.WrittenSo.{IsWrittenSo};

use certificate_writing::write_certificate;
use ground_entries::{GroundList, Solved};
use potential_problem::Problem;
use sidb_io::Sink;
use std::alloc::Global;
use std::marker::Model;
use token_sinks::Stop;
use walk_model::laws::ground_lists_have_written_tokens;

/// The certificate of a problem that is due: what its tokens go by, so that it can be written
/// while it is made.
#[derive(Drop)]
pub struct CertificateDue<'a> {
    problem: &'a Problem,
    list: GroundList,
    bound: Option<i64>,
}

impl<'a> Model for CertificateDue<'a> {
    ghost use Rattle.task_certificate.specs.DueCertificate.{DueCertificate};
    ghost use Rattle.task_certificate.specs.CertificateSeen.{seen, IsDueCertificate};

    ghost Value = { DueCertificate };

    ghost view = { seen };

    ghost invariant = { IsDueCertificate };
}

impl<'a> CertificateDue<'a> {
    /// The certificate of the ground list that was found for the problem.
    pub fn new(problem: &'a Problem, solved: Solved) -> CertificateDue<'a>
        requires list { IsMarkedGroundList problem.now solved.list }
        requires bound { IsLeastCertain problem.now solved.bound }
        requires few { node_count problem.now solved.bound ≤ MAX_NODES }
        ensures problem { result.problem ≡ problem.now }
        ensures entries { result.entries ≡ solved.list }
        ensures bound { result.bound ≡ solved.bound }
        ensures few { length result.entries ≤ MAX_ENTRIES }
    {
        let _few = solved.list.len();
        CertificateDue {
            problem,
            list: solved.list,
            bound: solved.bound,
        }
    }

    /// Writes the certificate text while it is made. After an error a front of it was written.
    pub fn write<K: Sink>(&self, alloc: Global, sink: &mut K) -> Result<(), Stop>
        ensures written { IsWrittenSo self.now (K.written sink.old) (K.written sink.new) result }
        ensures fault { IsFault result → HasFault (K.faults sink.old) (K.faults sink.new) }
        ensures counts { OnlyFaultRaises (K.faults sink.old) (K.faults sink.new) result }
    {
        ground_lists_have_written_tokens();
        let _known = self.problem.sites();
        match write_certificate(alloc, self.problem, self.bound, &self.list, sink) {
            Ok(_) => Ok(()),
            Err(stop) => Err(stop),
        }
    }
}
