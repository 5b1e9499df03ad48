//! The greatest number of open entries in a layout.

use super::texts::THOUSAND;
use sts_asm::assemble;
use sts_budget::lay_out;
use sts_types::typed_function;

/// One scope is open at most. A layout that names more meets its contract.
#[test]
fn a_layout_is_no_deeper_than_its_function(rt: HostRuntime) {
    let program = assemble(rt.alloc(), THOUSAND.as_bytes()).expect(&rt, "a program");
    assert!(rt; program.functions().len() == 2);
    let Ok(typing) = typed_function(rt.alloc(), &program, 1) else {
        panic!(rt; "the function isn't typed");
    };
    assert_eq!(rt; lay_out(&typing).deepest, 1);
}
