//! When the memory for the text of a long reply is taken.

ghost use Rattle.command_cases.specs.TextPlan.{IsPlanFor};
ghost use Rattle.hash_commands.specs.HashCommand.{hash_command_case};
ghost use Rattle.keyspace.specs.Map.{Map};

use command_cases::TextPlan;
use command_table::HashCommand;

/// When the memory for the text of this command's reply is taken.
pub fn hash_text_plan(command: &HashCommand) -> TextPlan
    ensures { (m : Map) → IsPlanFor (hash_command_case command.now) m result }
{
    match command {
        HashCommand::Hget { .. } => TextPlan::After,
        HashCommand::Hmget { .. } => TextPlan::After,
        HashCommand::Hkeys { .. } => TextPlan::After,
        HashCommand::Hvals { .. } => TextPlan::After,
        HashCommand::Hgetall { .. } => TextPlan::After,
        _ => TextPlan::Never,
    }
}
