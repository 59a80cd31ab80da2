// What no clause says: that the calls succeed where there is memory, and so in the tables' order.
use crate::{
    Clock, FixedClock, MemorySink, MemorySource, ReadFault, Sink, SinkFail, Source, SourceFail,
    SureSource, read_all, write_all,
};
use bts_names::Blob;
use std::test::Fail;

#[test]
fn sources_give_their_bytes(rt: HostRuntime) -> Result<(), Fail> {
    let alloc = rt.alloc();
    let bytes = Blob::copy_of(alloc, b"abcdefg".as_slice())?;
    let mut source = MemorySource::new(bytes, vec![in alloc; 2, 4]?);
    let reads = [
        (Ok(3), *b"abc"),
        (Err(SourceFail), *b"..."),
        (Ok(3), *b"def"),
        (Err(SourceFail), *b"..."),
        (Ok(1), *b"g.."),
        (Ok(0), *b"..."),
    ];
    for (answer, held) in reads {
        let mut buffer = *b"...";
        assert_eq!(rt; source.read(buffer.as_mut_slice()), answer);
        assert_eq!(rt; buffer, held);
    }

    let long = vec![in alloc; b'x'; 9000]?;
    let mut sure = SureSource::new(Blob::from_vec(long));
    for (most, len) in [(0, 0), (5000, 5000), (4000, 4000), (1, 0)] {
        let bytes = read_all(alloc, &mut sure, most)?;
        assert_eq!(rt; bytes.len(), len, "at most {most}");
    }

    let short = Blob::copy_of(alloc, b"abc".as_slice())?;
    let mut failing = MemorySource::new(short, vec![in alloc; 2]?);
    let cut = read_all(alloc, &mut failing, 9);
    assert!(rt; matches!(cut, Err(ReadFault::Source)));
    Ok(())
}

#[test]
fn sinks_keep_bytes_and_clocks_tell_the_time(rt: HostRuntime) -> Result<(), Fail> {
    let alloc = rt.alloc();
    let mut sink = MemorySink::new(alloc, vec![in alloc; 2]?);
    let writes = [
        (Ok(()), "ab", "ab"),
        (Err(SinkFail), "cd", "ab"),
        (Ok(()), "ef", "abef"),
    ];
    for (answer, bytes, held) in writes {
        assert_eq!(rt; write_all(&mut sink, bytes.as_bytes()), answer);
        assert_eq!(rt; sink.bytes(), held.as_bytes());
    }
    assert_eq!(rt; sink.write(b"g".as_slice()), Ok(1));

    let mut clock = FixedClock::new(86_399);
    assert_eq!(rt; clock.now(), 86_399);
    Ok(())
}
