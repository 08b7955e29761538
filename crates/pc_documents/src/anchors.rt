//! The entry of each code on the page that explains the codes.

ghost use Rattle.std.specs.Prelude.{◌≡◌, IfOk, option_map, string_bytes};
ghost use Rattle.pc_documents.specs.Anchors.{anchor_of, refusal_anchor_of, entry_at};

use pc_source::RefusalCode;
use pc_tree::Code;
use std::alloc::{AllocError, Global};

/// Returns the anchor of a finding's code: `e12-flow`.
pub(crate) fn anchor(alloc: Global, code: Code) -> Result<String, AllocError>
    ensures { IfOk result (λ s. string_bytes s ≡ anchor_of code) }
{
    let small = code.text().to_ascii_lowercase(alloc)?;
    let small = small.as_str();
    let label = code.label();
    format!(in alloc; "{small}-{label}")
}

/// Returns the anchor of a refusal's code: `l2-bad-string`.
pub(crate) fn refusal_anchor(code: RefusalCode) -> &'static str
    ensures { result.now ≡ refusal_anchor_of code }
{
    match code {
        RefusalCode::S1 => "s1-too-long",
        RefusalCode::S2 => "s2-not-utf-8",
        RefusalCode::S3 => "s3-byte-order-mark",
        RefusalCode::S4 => "s4-control-character",
        RefusalCode::S5 => "s5-other-coding",
        RefusalCode::L1 => "l1-stray-character",
        RefusalCode::L2 => "l2-bad-string",
        RefusalCode::L3 => "l3-bad-number",
        RefusalCode::L4 => "l4-bad-name",
        RefusalCode::L5 => "l5-unmatched-bracket",
        RefusalCode::L6 => "l6-too-many-brackets",
        RefusalCode::L7 => "l7-tab-in-the-indentation",
        RefusalCode::L8 => "l8-number-too-long",
        RefusalCode::I1 => "i1-unmatched-indentation",
        RefusalCode::I2 => "i2-unexpected-indentation",
        RefusalCode::I3 => "i3-too-many-suites",
        RefusalCode::N1 => "n1-excluded-keyword",
        RefusalCode::N2 => "n2-excluded-operator",
        RefusalCode::N3 => "n3-nested-function",
        RefusalCode::N4 => "n4-nested-class",
        RefusalCode::N5 => "n5-other-decorator",
        RefusalCode::G1 => "g1-no-module",
        RefusalCode::G2 => "g2-too-deep",
    }
}

/// Returns the address of an anchor on the page; `None` without a page.
pub(crate) fn entry(
    alloc: Global,
    page: &Option<String>,
    anchor: &str,
) -> Result<Option<String>, AllocError>
    ensures { IfOk result (λ o. option_map string_bytes o ≡ entry_at (option_map string_bytes page.now) anchor.now) }
{
    match page {
        None => Ok(None),
        Some(page) => {
            let page = page.as_str();
            Ok(Some(format!(in alloc; "{page}#{anchor}")?))
        }
    }
}
