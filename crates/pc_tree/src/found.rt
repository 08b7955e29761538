//! Adding findings.
ghost use Rattle.std.specs.Prelude.{◌≡◌, ◌++◌, ◌∷◌, [], OnOk};
ghost use Rattle.pc_tree.specs.Code.{at_code};
ghost use Rattle.pc_tree.specs.Stopping.{one_if};

use crate::code::{Code, Finding, Findings};
use pc_source::{OutOfMemory, Place};

/// Adds a finding with this code and place. Own rule of the profile.
pub fn find(found: &mut Findings, code: Code, place: Place) -> Result<(), OutOfMemory>
    ensures { OnOk result (found.new.items ≡ found.old.items ++ at_code code (place ∷ [])) }
{
    found.push(Finding { place, code })?;
    Ok(())
}

/// Adds a finding with this code and place if `condition` holds. Own rule of the profile.
pub fn find_if(
    found: &mut Findings,
    condition: bool,
    code: Code,
    place: Place,
) -> Result<(), OutOfMemory>
    ensures { OnOk result (found.new.items ≡ found.old.items ++ at_code code (one_if condition place)) }
{
    if condition {
        find(found, code, place)?;
    }
    Ok(())
}
