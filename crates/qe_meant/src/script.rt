//! Commands and scripts that were read.

ghost use Rattle.std.specs.Prelude.{◌≡◌, true};
ghost use Rattle.std.specs.List.{AllByRecursion};
ghost use Rattle.qe_schema.specs.Fits.{fits};
ghost use Rattle.qe_schema.specs.Resolved.{IsResolved};
ghost use Rattle.qe_script.specs.Read.{IsScript};
ghost use Rattle.qe_encodes.specs.Fields.{IsUnder};
ghost use Rattle.qe_encodes.specs.Meant.{IsMeant};
ghost use Rattle.qe_meant.specs.Held.{AreHeldLines, under_of};

use crate::commands::command_held;
use crate::schema::keys_serve_their_schema;
use qe_plain::PlainCommand;
use qe_schema::{Schema, a_resolved_command_holds_what_is_allowed};
use qe_script::{Line, Script};

/// A command that was resolved under a schema, and fits, means something there: its ids and the values that are to be
/// encrypted are values that BSON has.
pub fn a_command_is_meant(schema: &Schema, command: &PlainCommand)
    requires resolved { IsResolved schema.now command.now }
    requires fitting { fits schema.now command.now ≡ true }
    ensures { IsMeant schema.now command.now }
{
    let _fields = schema.fields();
    command_held(command);
}

fn lines_held(lines: &[Line])
    ensures { AreHeldLines lines.now }
{
    for line in lines {
        command_held(&line.command);
    }
}

/// A script that was read has a schema and keys such as commands are encoded under, and each of its commands means
/// something under the schema.
pub fn a_script_is_meant(script: &Script)
    requires { IsScript script.now }
    ensures under { IsUnder (under_of script.now) }
    ensures meant { AllByRecursion (λ line. IsMeant script.now.schema line.command) script.now.lines }
{
    a_resolved_command_holds_what_is_allowed();
    keys_serve_their_schema(&script.schema, &script.keys);
    lines_held(script.lines.slice());
}
