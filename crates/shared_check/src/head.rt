ghost use Rattle.std.specs.Prelude.{◌≡◌, ◌≢◌, ◌∷◌, ◌++◌, [], All, IfOk, OnOk};
ghost use Rattle.charge_model.specs.declared.charge.Charge.TheVariants.{Neg, Neutral, Pos};
ghost use Rattle.tree_leaves.specs.Subtree.{nodes_under, nodes_beyond};
ghost use Rattle.shared_check.specs.Parts.{IsPart, ArePartsBelow, AreSharedOut};

use crate::setting::Setting;
use certificate_walk::nodes_of;
use charge_state::{Charge, Charges};
use prefix_bound::laws::nodes_are_tested;
use token_sinks::{Stop, Token};
use tree_leaves::laws::nodes_count_their_children;
use walk_model::laws::prefixes_have_one_token;

/// How many charges a task has.
const TASK_CHARGES: usize = 4;

/// Adds a task at the end.
fn add_task(task: &Charges, tasks: &mut Vec<Charges>) -> Result<(), Stop>
    ensures { OnOk result (tasks.new.items ≡ tasks.old.items ++ task.now ∷ []) }
{
    match tasks.push(task.copy()) {
        Ok(()) => Ok(()),
        Err(_) => Err(Stop::Memory),
    }
}

/// Shares out the nodes of a prefix with one more charge.
#[cycle(heads)]
fn share_child(
    setting: &Setting,
    prefix: &Charges,
    charge: Charge,
    tasks: &mut Vec<Charges>,
) -> Result<u64, Stop>
    requires part { IsPart setting.now (prefix.now ++ charge ∷ []) }
    requires tasks { All (IsPart setting.now) tasks.old.items }
    ensures tasks { OnOk result (All (IsPart setting.now) tasks.new.items) }
    ensures shared { IfOk result (λ few. AreSharedOut setting.now
        (nodes_under setting.now.problem setting.now.threshold (prefix.now ++ charge ∷ []))
        few tasks.old.items tasks.new.items) }
{
    let _few = setting.problem().sites();
    let mut longer = prefix.copy();
    longer.push(charge);
    share_under(setting, &longer, tasks)
}

/// Shares out the nodes of the prefixes with one more charge.
#[cycle(heads)]
fn share_children(
    setting: &Setting,
    prefix: &Charges,
    tasks: &mut Vec<Charges>,
) -> Result<u64, Stop>
    requires parts { ArePartsBelow setting.now prefix.now }
    requires tasks { All (IsPart setting.now) tasks.old.items }
    ensures tasks { OnOk result (All (IsPart setting.now) tasks.new.items) }
    ensures shared { IfOk result (λ few. AreSharedOut setting.now
        (nodes_beyond setting.now.problem setting.now.threshold prefix.now)
        few tasks.old.items tasks.new.items) }
{
    let negative = match share_child(setting, prefix, Charge::Neg, tasks) {
        Ok(few) => few,
        Err(stop) => return Err(stop),
    };
    let neutral = match share_child(setting, prefix, Charge::Neutral, tasks) {
        Ok(few) => few,
        Err(stop) => return Err(stop),
    };
    if setting.problem().base() == 2 {
        return Ok(negative + neutral);
    }
    match share_child(setting, prefix, Charge::Pos, tasks) {
        Ok(positive) => Ok(negative + neutral + positive),
        Err(stop) => Err(stop),
    }
}

/// Shares out the nodes of a prefix: tests the tokens of those with fewer charges than a task, and
/// adds the tasks that begin with it. How many nodes begin with none of these.
#[cycle(heads)]
pub fn share_under(
    setting: &Setting,
    prefix: &Charges,
    tasks: &mut Vec<Charges>,
) -> Result<u64, Stop>
    requires part { IsPart setting.now prefix.now }
    requires tasks { All (IsPart setting.now) tasks.old.items }
    ensures tasks { OnOk result (All (IsPart setting.now) tasks.new.items) }
    ensures shared { IfOk result (λ few. AreSharedOut setting.now
        (nodes_under setting.now.problem setting.now.threshold prefix.now)
        few tasks.old.items tasks.new.items) }
{
    nodes_are_tested();
    nodes_count_their_children();
    prefixes_have_one_token();
    if prefix.len() == TASK_CHARGES {
        return match add_task(prefix, tasks) {
            Ok(()) => Ok(0),
            Err(stop) => Err(stop),
        };
    }
    let token = match setting.token_at(prefix) {
        Ok(token) => token,
        Err(stop) => return Err(stop),
    };
    match token {
        Token::Node => match share_children(setting, prefix, tasks) {
            Ok(few) => Ok(few + 1),
            Err(stop) => Err(stop),
        },
        closing => Ok(nodes_of(closing)),
    }
}
