//! The check of bytes.

ghost use Rattle.std.specs.Prelude.{◌↔◌, length, Contains, List, IfOk, IfErr};
ghost use Rattle.pc_source.specs.Answers.{OnRefusal};
ghost use Rattle.pc_source.specs.Within.{IsWithin};
ghost use Rattle.pc_tree.specs.declared.code.Code.TheVariants.{A1};
ghost use Rattle.pc_tree.specs.declared.code.Finding.{Finding as FindingOf};
ghost use Rattle.pc_tree.specs.Tree.{module_of};
ghost use Rattle.pc_notes.specs.Notes.{Note};
ghost use Rattle.pc_notes.specs.Texts.{AreFlowTexts};
ghost use Rattle.pc_module_rules.specs.Modules.{IsFinding};
ghost use Rattle.pc_module_rules.specs.Laws.Flows.{TellsFlows};
ghost use Rattle.pc_front.specs.Bytes.{IsRefusalOf};
ghost use Rattle.pc_top.specs.Headline.{Headline};

use crate::checking::{ModuleFindings, findings};
use crate::teardown::Teardown;
use pc_front::parse_source;
use pc_report::Report;
use pc_source::{Fault, OutOfMemory, read_source};
use pc_tree::Module;
use std::alloc::Global;

/// Returns the findings of a module, and the texts of its dynamic flows; the other memory of the check is released
/// according to `memory`.
fn findings_alone(
    alloc: Global,
    module: Module,
    memory: Teardown,
) -> Result<ModuleFindings, OutOfMemory>
    ensures found { IfOk result
        (λ v. (f : FindingOf) → Contains v.findings.items f ↔ IsFinding (module_of «module») f) }
    ensures flows { IfOk result (λ v. (notes : List Note) × TellsFlows (module_of «module») notes
        × AreFlowTexts (module_of «module») A1 notes v.flows.items) }
{
    let checked = findings(alloc, &module)?;
    let found = checked.found(alloc, &module)?;
    memory.let_go((module, checked), found.findings.len());
    Ok(found)
}

/// Returns the report of the module that the bytes spell, like `check`; the other memory of the check is released
/// according to `memory`.
pub(crate) fn report_of(alloc: Global, bytes: &[u8], memory: Teardown) -> Result<Report, Fault>
    ensures headline { IfOk result (Headline bytes.now) }
    ensures refused { IfErr result (OnRefusal (IsRefusalOf bytes.now)) }
    ensures within { IfErr result (IsWithin (length bytes.now)) }
{
    let source = read_source(alloc, bytes)?;
    let module = parse_source(alloc, &source)?;
    let found = findings_alone(alloc, module, memory)?;
    let report = Report::of(alloc, &source, &found.findings, &found.flows)?;
    Ok(report)
}

/// Checks the module that the bytes spell and returns its report.
///
/// If there is a report, the bytes spell exactly one module and the report lists exactly the findings of its typing,
/// each dynamic flow with its two types. If it lists no error, each run of that module that raises `TypeError`,
/// `AttributeError`, `NameError` or `UnboundLocalError`, or leaves the profile, has evaluated a listed dynamic place by
/// then. If it lists errors, but no silent one, each such run has evaluated the place of a row by then.
///
/// # Errors
///
/// `Refused` exactly if the bytes spell no module, with their refusal; `OutOfMemory` only if an allocation failed.
pub fn check(alloc: Global, bytes: &[u8]) -> Result<Report, Fault>
    ensures headline { IfOk result (Headline bytes.now) }
    ensures refused { IfErr result (OnRefusal (IsRefusalOf bytes.now)) }
    ensures within { IfErr result (IsWithin (length bytes.now)) }
{
    // The report is made in the memory that the module and its notes occupied.
    report_of(alloc, bytes, Teardown::Free)
}
