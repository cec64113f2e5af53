ghost use Rattle.std.specs.Prelude.{◌≡◌, ◌≤◌, ℕ, pos, List, IfOk};
ghost use Rattle.charge_model.specs.GroundList.{IsMarkedGroundList, lists_of};
ghost use Rattle.charge_model.specs.Tree.{IsLeastCertain, node_count};
ghost use Rattle.sidb_io.specs.Outside.{HasFault};
ghost use Rattle.sidb_units.specs.declared.TheConstants.{MAX_NODES};
ghost use Rattle.certificate_model.specs.declared.token.Token.{Token};
ghost use Rattle.walk_model.specs.Walks.{AreWalked};
ghost use Rattle.token_sinks.specs.Taking.{IsFault, OnlyFaultRaises};
ghost use Rattle.token_writer.specs.Writing.{TookLines};
ghost use Rattle.prune_certificate.specs.Printed.{head_text};
ghost use Rattle.certificate_writing.specs.Writing.{IsTextUpTo, TookText};

use certificate_walk::walk;
use ground_entries::GroundList;
use potential_problem::Problem;
use prune_certificate::laws::token_lines_are_the_end;
use prune_certificate::print_head;
use sidb_io::{Sink, write_all};
use sidb_units::Memory;
use std::alloc::Global;
use token_sinks::Stop;
use token_writer::TokenWriter;
use token_writer::laws::fed_lines_are_written;

/// Writes bytes, as far as the sink takes them.
fn write_bytes<K: Sink>(sink: &mut K, bytes: &[u8]) -> Result<(), Stop>
    ensures took { TookText (K.written sink.old) bytes.now (K.written sink.new) result }
    ensures fault { IsFault result → HasFault (K.faults sink.old) (K.faults sink.new) }
    ensures counts { OnlyFaultRaises (K.faults sink.old) (K.faults sink.new) result }
{
    match write_all(sink, bytes) {
        Ok(()) => Ok(()),
        Err(_) => Err(Stop::Fault),
    }
}

/// Writes the text through the line `tokens`.
fn write_head<K: Sink>(
    alloc: Global,
    problem: &Problem,
    list: &GroundList,
    sink: &mut K,
) -> Result<(), Stop>
    ensures took { TookText (K.written sink.old) (head_text problem.now list.now)
        (K.written sink.new) result }
    ensures fault { IsFault result → HasFault (K.faults sink.old) (K.faults sink.new) }
    ensures counts { OnlyFaultRaises (K.faults sink.old) (K.faults sink.new) result }
{
    let head = match print_head(alloc, problem, list) {
        Ok(head) => head,
        Err(Memory) => return Err(Stop::Memory),
    };
    write_bytes(sink, head.as_slice())
}

/// Writes the lines of the tokens as the walk finds them: how many nodes the search tree has.
fn write_walk<K: Sink>(
    alloc: Global,
    problem: &Problem,
    bound: Option<i64>,
    list: &GroundList,
    sink: &mut K,
) -> Result<u64, Stop>
    requires bound { IsLeastCertain problem.now bound }
    requires few { node_count problem.now bound ≤ MAX_NODES }
    requires list { IsMarkedGroundList problem.now list.now }
    ensures took { (tokens : List Token)
        → AreWalked problem.now (pos 0) bound (lists_of list.now) tokens
        → TookLines (K.written sink.old) tokens (K.written sink.new) result }
    ensures nodes { IfOk result (λ n. n ≡ node_count problem.now bound) }
    ensures fault { IsFault result → HasFault (K.faults sink.old) (K.faults sink.new) }
    ensures counts { OnlyFaultRaises (K.faults sink.old) (K.faults sink.new) result }
{
    fed_lines_are_written();
    let mut writer = TokenWriter::new(sink);
    walk(alloc, problem, bound, list, &mut writer)
}

/// Writes the certificate of a problem's ground list: how many nodes the search tree has. The bound
/// is the least certain energy, in 10^-12 V, or none where no list is certainly valid. No token is
/// kept. After an error a front of the text was written.
pub fn write_certificate<K: Sink>(
    alloc: Global,
    problem: &Problem,
    bound: Option<i64>,
    list: &GroundList,
    sink: &mut K,
) -> Result<u64, Stop>
    requires bound { IsLeastCertain problem.now bound }
    requires few { node_count problem.now bound ≤ MAX_NODES }
    requires list { IsMarkedGroundList problem.now list.now }
    ensures written { (text : List ℕ) → IsTextUpTo problem.now bound list.now text
        → TookText (K.written sink.old) text (K.written sink.new) result }
    ensures nodes { IfOk result (λ n. n ≡ node_count problem.now bound) }
    ensures fault { IsFault result → HasFault (K.faults sink.old) (K.faults sink.new) }
    ensures counts { OnlyFaultRaises (K.faults sink.old) (K.faults sink.new) result }
{
    token_lines_are_the_end();
    match write_head(alloc, problem, list, sink) {
        Ok(()) => {}
        Err(stop) => return Err(stop),
    }
    let nodes = match write_walk(alloc, problem, bound, list, sink) {
        Ok(nodes) => nodes,
        Err(stop) => return Err(stop),
    };
    match write_bytes(sink, b"end\n") {
        Ok(()) => Ok(nodes),
        Err(stop) => Err(stop),
    }
}
