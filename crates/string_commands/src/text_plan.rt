//! When the memory for the text of a long reply is taken.

ghost use Rattle.std.specs.Prelude.{◌≡◌, All, IsTrue};
ghost use Rattle.std.specs.FinMap.{get};
ghost use Rattle.command_cases.specs.Case.{Case};
ghost use Rattle.command_cases.specs.TextPlan.{IsPlanFor};
ghost use Rattle.command_table.specs.StringCommands.{string_command_keys};
ghost use Rattle.string_commands.specs.StringCommand.{get_step, string_command_case};

use command_cases::TextPlan;
use command_table::StringCommand;
use keyspace::Keyspace;
use texts::Text;
use values::Value;

/// When the memory for the text of this command's reply is taken. The keyspace has to cover each of its keys.
pub fn string_text_plan<K: Keyspace>(keyspace: &K, command: &StringCommand) -> TextPlan
    requires { All (λ key. IsTrue (K.covered key)) (string_command_keys command.now) }
    ensures { IsPlanFor (string_command_case command.now) (K.contents keyspace.now) result }
{
    match command {
        StringCommand::Get { .. } => TextPlan::After,
        StringCommand::Mget { .. } => TextPlan::After,
        StringCommand::Getrange { .. } => TextPlan::After,
        StringCommand::Getset { key, .. } => plan_for_string(keyspace, key),
        StringCommand::Getdel { key } => plan_for_string(keyspace, key),
        _ => TextPlan::Never,
    }
}

/// The plan of a body that changes the keyspace and answers what GET would.
fn plan_for_string<K: Keyspace>(keyspace: &K, key: &Text) -> TextPlan
    requires { IsTrue (K.covered key.now) }
    ensures { (case : Case) → (case (K.contents keyspace.now)).1 ≡ (get_step (get (K.contents keyspace.now) key.now)).1
        → IsPlanFor case (K.contents keyspace.now) result }
{
    match keyspace.look(key.as_slice()) {
        Some(Value::Str(bytes)) => TextPlan::for_bulk(bytes.as_slice()),
        _ => TextPlan::Never,
    }
}
