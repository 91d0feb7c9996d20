//! Tests a command line without even the program's name, which no shell gives.
use crate::program::run;
use std::test::Fail;

#[test]
fn no_words_are_no_command_line(rt: HostRuntime) -> Result<(), Fail> {
    let mut log = Vec::new(rt.alloc());
    let mut faults = Vec::new(rt.alloc());
    let status = run(&rt, &[], ".", &mut log, &mut faults);
    assert_eq!(rt; status, 4);
    assert_eq!(rt; log.len(), 0);
    let text = str::from_utf8(faults.as_slice())?;
    assert!(rt; text.contains("requires a subcommand"));
    Ok(())
}
