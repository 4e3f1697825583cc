//! What a program says where its command did not finish.

use crate::end::End;
use dds_script::script_error::{ScriptFault, ScriptKind};
use std::io;

/// Says on standard error why the command did not finish.
pub fn tell(rt: &impl Eprint, end: End) -> io::Result<()> {
    let name = match end {
        End::Finished => return Ok(()),
        End::Script(ScriptFault { line, kind }) => {
            let kind = match kind {
                ScriptKind::NoEnd => "NoEnd",
                ScriptKind::Form => "Form",
                ScriptKind::Place => "Place",
                ScriptKind::Number => "Number",
                ScriptKind::Value => "Value",
                ScriptKind::Cover => "Cover",
            };
            return eprintln!(rt; "line {line}: {kind}");
        }
        End::Usage => "usage: dds step [PREFIX] | threads WORKERS | load CALLS SEED",
        End::TooLong => "script too long",
        End::ReadFault => "read failed",
        End::WriteFault => "write failed",
        End::Memory => "no memory",
    };
    eprintln!(rt; "{name}")
}
