//! Lines and their printed forms, by the rules of the printed form.

use lv_parser::{Stmt, parse, print};
use lv_values::Text;
use std::alloc::Global;

/// The longest line of a test.
const MOST: usize = 100;

/// The statement that a line is.
fn read(alloc: Global, line: &str) -> Option<Stmt> {
    let line = Text::from_str(alloc, line).ok()?;
    if line.as_bytes().len() > MOST {
        return None;
    }
    parse(alloc, &line).ok()
}

/// Whether this is printed of a line. The statement is let go of at one place alone, by a call: a way out of the function
/// that lets go of so large a type costs the prover most of a minute.
fn prints_as(alloc: Global, line: &str, wanted: &str) -> Option<bool> {
    let stmt = read(alloc, line)?;
    let printed = print(alloc, &stmt);
    drop(stmt);
    Some(printed.ok()?.as_str() == wanted)
}

#[test]
fn statements_are_printed(rt: HostRuntime) {
    for (line, wanted) in [
        (
            "delete from t where (a = 1 and b != 2) or not ((c = -03 or d = 'it''s'))",
            "delete from t where a=1and b<>2or not(c=-3or d='it''s')",
        ),
        (
            "select * from a, b join c on i = 1, d where j = 2",
            "select*from a join b on i=1,c,d where j=2",
        ),
    ] {
        assert_eq!(rt; prints_as(rt.alloc(), line, wanted), Some(true), "{line}");
    }
}
