// What no clause says: that a sequence takes commands where there is memory.
use crate::{Command, Commands, Spot};
use bts_names::{Blob, Name16};
use std::test::Fail;

#[test]
fn commands_carry_the_bytes_that_they_put(rt: HostRuntime) -> Result<(), Fail> {
    let alloc = rt.alloc();
    let from = Blob::copy_of(alloc, b"abc".as_slice())?;
    let mut commands = Commands::new(alloc);
    commands.push(Command::PutContainer {
        container: Name16::root(),
        spot: Spot::Own,
        from,
    })?;
    commands.push(Command::GetContainer {
        container: Name16::root(),
        spot: Spot::Own,
    })?;
    commands.push(Command::Return { end_activity: true })?;
    for (command, bytes) in commands.as_slice().iter().zip([3, 0, 0]) {
        assert_eq!(rt; command.data_bytes(), bytes);
    }
    assert_eq!(rt; commands.len(), 3);
    Ok(())
}
