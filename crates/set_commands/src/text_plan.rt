//! When the memory for the text of a long reply is taken.

ghost use Rattle.command_cases.specs.TextPlan.{IsPlanFor};
ghost use Rattle.keyspace.specs.Map.{Map};
ghost use Rattle.set_commands.specs.SetCommand.{set_command_case};

use command_cases::TextPlan;
use command_table::SetCommand;

/// When the memory for the text of this command's reply is taken.
pub fn set_text_plan(command: &SetCommand) -> TextPlan
    ensures { (m : Map) → IsPlanFor (set_command_case command.now) m result }
{
    match command {
        SetCommand::Smismember { .. } => TextPlan::After,
        SetCommand::Smembers { .. } => TextPlan::After,
        SetCommand::Sinter { .. } => TextPlan::After,
        SetCommand::Sunion { .. } => TextPlan::After,
        SetCommand::Sdiff { .. } => TextPlan::After,
        _ => TextPlan::Never,
    }
}
