ghost use Rattle.std.specs.Prelude.{IfOk};
ghost use Rattle.shared_check.specs.Parts.{IsPart, IsCountOf};

use crate::setting::Setting;
use crate::tester::Tester;
use certificate_check::climb;
use certificate_walk::walk_under;
use charge_state::Charges;
use sidb_units::Memory;
use token_sinks::Stop;
use tree_leaves::track_of;

/// Gives the tokens of a task to a tester of its own: how many nodes begin with the task, or None
/// where a token is refused, or the last one leads elsewhere than past the task.
pub fn count_task(setting: &Setting, task: &Charges) -> Result<Option<u64>, Memory>
    requires { IsPart setting.now task.now }
    ensures { IfOk result (IsCountOf setting.now task.now) }
{
    let mut track = track_of(setting.alloc(), setting.problem(), task)?;
    let mut tester = Tester::new(setting, task)?;
    match walk_under(setting.guide(), &mut track, &mut tester) {
        Err(Stop::Memory) => Err(Memory),
        Err(Stop::Fault) => Ok(None),
        Ok(nodes) => {
            let whole = climb(setting.problem(), &mut track);
            if tester.stands_at(whole, &track) {
                Ok(Some(nodes))
            } else {
                Ok(None)
            }
        }
    }
}
