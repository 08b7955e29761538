//! E31: a parameter without default after one with default. Language Reference 8.7 "Function definitions".
ghost use Rattle.std.specs.Prelude.{◌≡◌, ◌++◌, map, false, OnOk};
ghost use Rattle.pc_tree.specs.declared.code.Code.TheVariants.{E31};
ghost use Rattle.pc_tree.specs.Tree.{param_of};
ghost use Rattle.pc_tree.specs.Stopping.{late_plain};
ghost use Rattle.pc_tree.specs.Code.{at_code};

use pc_source::OutOfMemory;
use pc_tree::{Code, Findings, Param, find_if};

/// Adds E31 for each parameter without a default after one with a default.
pub fn find_late_plain(found: &mut Findings, params: &[Param]) -> Result<(), OutOfMemory>
    ensures { OnOk result (found.new.items
        ≡ found.old.items ++ at_code E31 (late_plain false (map param_of params.now))) }
{
    let mut defaulted = false;
    for param in params {
        if param.default.is_some() {
            defaulted = true;
        } else {
            find_if(found, defaulted, Code::E31, param.name.place)?;
        }
    }
    Ok(())
}
