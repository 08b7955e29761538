//! Modules, and texts that differ from one by a token.
use crate::texts::tables::fault_text;
use pc_front::read_module;
use std::alloc::{AllocError, Global};

/// The text before and after each row of a part of a table, which completes it to a module.
type Frame = (&'static str, &'static str);

/// A whole module.
const WHOLE: Frame = ("", "");

/// The lines before the last one.
const TEXT: Frame = ("", "\nmain()\n");

/// Items of a module.
const ITEM: Frame = ("from __future__ import annotations\n", "\nmain()\n");

/// The text after the items.
const LAST_LINE: Frame = (
    "from __future__ import annotations\ndef main():\n    pass\n",
    "",
);

/// The parameters of a function.
const PARAMETERS: Frame = (
    "from __future__ import annotations\ndef f(",
    "):\n    pass\nmain()\n",
);

/// The default of a parameter.
const DEFAULT: Frame = (
    "from __future__ import annotations\ndef f(x=",
    "):\n    pass\nmain()\n",
);

/// Items of a module that may have dataclasses.
const DECORATED: Frame = (
    "from __future__ import annotations\nfrom dataclasses import dataclass\n",
    "\nmain()\n",
);

/// A class after its decorator.
const CLASS: Frame = (
    "from __future__ import annotations\nfrom dataclasses import dataclass\n@dataclass\n",
    "\nmain()\n",
);

/// Members of a class.
const MEMBER: Frame = (
    "from __future__ import annotations\nfrom dataclasses import dataclass\n@dataclass\nclass A:\n    ",
    "\nmain()\n",
);

/// The annotation of a constant.
const ANNOTATION: Frame = ("from __future__ import annotations\nx: ", " = 1\nmain()\n");

/// Statements of `main`.
const STATEMENT: Frame = (
    "from __future__ import annotations\ndef main():\n    ",
    "\nmain()\n",
);

/// An expression that `main` returns.
const EXPRESSION: Frame = (
    "from __future__ import annotations\ndef main():\n    return ",
    "\nmain()\n",
);

/// Returns the text around the rows of a part of a table, by its name; none for any other name.
fn frame_of(name: &str) -> Frame {
    match name {
        "TEXT" => TEXT,
        "ITEM" => ITEM,
        "LAST_LINE" => LAST_LINE,
        "PARAMETERS" => PARAMETERS,
        "DEFAULT" => DEFAULT,
        "DECORATED" => DECORATED,
        "CLASS" => CLASS,
        "MEMBER" => MEMBER,
        "ANNOTATION" => ANNOTATION,
        "STATEMENT" => STATEMENT,
        "EXPRESSION" => EXPRESSION,
        _ => WHOLE,
    }
}

/// Returns the answer to a row of a part of this name: that it is a module, or the code of its refusal and the byte,
/// counted from the row's first one.
pub fn module_text(alloc: Global, name: &str, row: &str) -> Result<String, AllocError> {
    let (before, after) = frame_of(name);
    let text = format!(in alloc; "{before}{row}{after}")?;
    match read_module(alloc, text.as_bytes()) {
        Ok(_) => String::from_str(alloc, "module"),
        Err(fault) => fault_text(alloc, fault, before.len()),
    }
}
