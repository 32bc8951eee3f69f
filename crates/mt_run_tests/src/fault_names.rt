//! The names of faults.

use mt_script::ScriptFault;
use std::alloc::Global;
use std::io::Write;
use std::test::Fail;

/// Whether a fault is printed so.
fn is_printed(alloc: Global, fault: ScriptFault, want: &str) -> Result<bool, Fail> {
    let mut text = Vec::new(alloc);
    write!(text, "{fault}")?;
    Ok(text.as_slice() == want.as_bytes())
}

#[test]
fn names_of_faults(rt: HostRuntime) -> Result<(), Fail> {
    assert!(rt; is_printed(rt.alloc(), ScriptFault::Memory, "Memory")?);
    assert!(rt; is_printed(rt.alloc(), ScriptFault::Read, "Read")?);
    assert!(rt; is_printed(rt.alloc(), ScriptFault::Write, "Write")?);
    assert!(rt; is_printed(rt.alloc(), ScriptFault::TooLong, "TooLong")?);
    Ok(())
}
