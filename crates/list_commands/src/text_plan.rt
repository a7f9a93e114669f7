//! When the memory for the text of a long reply is taken.

ghost use Rattle.std.specs.Prelude.{◌≡◌, ◌||◌, [], ◌∷◌, All, IsTrue};
ghost use Rattle.std.specs.FinMap.{get};
ghost use Rattle.std.specs.Str.{bytes_eq};
ghost use Rattle.command_cases.specs.Case.{Case};
ghost use Rattle.command_cases.specs.Shapes.{at_two};
ghost use Rattle.command_cases.specs.TextPlan.{IsPlanFor};
ghost use Rattle.command_table.specs.ListCommands.{list_command_keys};
ghost use Rattle.list_commands.specs.ListCommand.{at_list, list_command_case, may_be_list, move_step, pop_step};
ghost use Rattle.texts.specs.declared.text_list.End.{End};
ghost use Rattle.values.specs.ListValue.{end_item};

use crate::lists::item_at;
use command_cases::TextPlan;
use command_table::ListCommand;
use keyspace::Keyspace;
use texts::{End, Text};
use values::{ListValue, Value};

/// When the memory for the text of this command's reply is taken. The keyspace has to cover each of its keys.
pub fn list_text_plan<K: Keyspace>(keyspace: &K, command: &ListCommand) -> TextPlan
    requires { All (λ key. IsTrue (K.covered key)) (list_command_keys command.now) }
    ensures { IsPlanFor (list_command_case command.now) (K.contents keyspace.now) result }
{
    match command {
        ListCommand::Lindex { .. } => TextPlan::After,
        ListCommand::Lrange { .. } => TextPlan::After,
        ListCommand::Lpop { key } => plan_for_end(keyspace, key, End::Head),
        ListCommand::Rpop { key } => plan_for_end(keyspace, key, End::Tail),
        ListCommand::Lmove {
            from,
            to,
            taken,
            ..
        } => plan_for_move(keyspace, from, to, *taken),
        ListCommand::Rpoplpush { from, to } => plan_for_move(keyspace, from, to, End::Tail),
        _ => TextPlan::Never,
    }
}

/// The plan of a body that changes the keyspace and answers what a pop at this end would.
fn plan_for_end<K: Keyspace>(keyspace: &K, key: &Text, end: End) -> TextPlan
    requires { IsTrue (K.covered key.now) }
    ensures { (case : Case) → (case (K.contents keyspace.now)).1 ≡ (at_list (pop_step end) (get (K.contents keyspace.now) key.now)).1
        → IsPlanFor case (K.contents keyspace.now) result }
{
    match keyspace.look(key.as_slice()) {
        Some(Value::List(list)) => TextPlan::for_bulk(item_at_end(list, end)),
        _ => TextPlan::Never,
    }
}

/// The plan of LMOVE and RPOPLPUSH, which answer the item at this end of the first list.
fn plan_for_move<K: Keyspace>(keyspace: &K, from: &Text, to: &Text, taken: End) -> TextPlan
    requires from { IsTrue (K.covered from.now) }
    requires to { IsTrue (K.covered to.now) }
    ensures { (put : End) → IsPlanFor (at_two from.now to.now (move_step (bytes_eq from.now to.now) taken put))
        (K.contents keyspace.now) result }
{
    if receives(keyspace, from, to) {
        plan_for_end(keyspace, from, taken)
    } else {
        TextPlan::Never
    }
}

/// Whether an item of the first key's list can go to the second key: it is the same one, or has a list or nothing.
fn receives<K: Keyspace>(keyspace: &K, from: &Text, to: &Text) -> bool
    requires { IsTrue (K.covered to.now) }
    ensures { result ≡ (bytes_eq from.now to.now || may_be_list (get (K.contents keyspace.now) to.now)) }
{
    if from.as_slice() == to.as_slice() {
        return true;
    }
    match keyspace.look(to.as_slice()) {
        None => true,
        Some(Value::List(_)) => true,
        Some(_) => false,
    }
}

/// The item at this end of the list.
#[tactic(auto, using(crate::proofs::ListItems::ends))]
fn item_at_end(list: &ListValue, end: End) -> &[u8]
    ensures { result.now ∷ [] ≡ end_item end list.now }
{
    let last = list.len() - 1;
    match end {
        End::Head => item_at(list, 0),
        End::Tail => item_at(list, last),
    }
}
