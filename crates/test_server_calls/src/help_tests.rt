//! The texts of the codes.
use pc_code_texts::{meaning, mending, refusal_meaning, refusal_mending, refusal_title};
use pc_source::RefusalCode;
use pc_tree::Code;

/// Advice on mending a value that does not fit.
const MEND_E12: &str =
    "Give a value of the expected type, or change the type of the place; of a union, test first for the members that do not fit.";

#[test]
fn tells_what_a_finding_means_and_how_it_is_mended(rt: HostRuntime) {
    assert_eq!(rt; meaning(Code::E12), "A value does not fit where it goes.");
    assert_eq!(rt; mending(Code::E12), MEND_E12);
    assert_eq!(rt;
        meaning(Code::A2),
        "An operator is used on a value of type `Any`."
    );
    assert_eq!(rt; mending(Code::E29), "Choose another name.");
}

#[test]
fn tells_what_a_refusal_means_and_how_it_is_mended(rt: HostRuntime) {
    assert_eq!(rt; refusal_title(RefusalCode::L7), "Tab in the indentation");
    assert_eq!(rt;
        refusal_meaning(RefusalCode::L7),
        "There is a tab in the indentation of a line."
    );
    assert_eq!(rt; refusal_mending(RefusalCode::L7), "Indent with spaces.");
    assert_eq!(rt; refusal_title(RefusalCode::L8), "Number too long");
    assert_eq!(rt;
        refusal_meaning(RefusalCode::L8),
        "A number has more than 1,000 digits."
    );
    assert_eq!(rt;
        refusal_mending(RefusalCode::L8),
        "Compute it from smaller numbers."
    );
}
