//! Each adapter once, and a sink that fails in mid-stream.
ghost use Rattle.std.specs.Prelude.{None};

use npp_outside::{
    FileShelf, Shelf, ShelfAnswer, Sink, SinkAnswer, StdSink, SureShelf, SureSink, write_whole,
};
use std::test::Fail;

// Takes one byte a call, and fails from the call after `most` bytes on.
#[derive(Drop)]
struct Narrow {
    taken: u64,
    most: u64,
    faults: u64,
}

impl Sink for Narrow {
    ghost written = { λ _. None };

    ghost faults = { λ sink. sink.faults };

    fn write(&mut self, bytes: &[u8]) -> Result<usize, SinkAnswer> {
        if self.taken >= self.most {
            self.faults = self.faults.saturating_add(1);
            return Err(SinkAnswer::Failed);
        }
        self.taken = self.taken.saturating_add(1);
        Ok(bytes.len().min(1))
    }
}

#[test]
fn pieces_of_a_file_in_memory(rt: HostRuntime) -> Result<(), Fail> {
    let alloc = rt.alloc();
    let name = String::from_str(alloc, "roads")?;
    let bytes = Vec::from_slice(alloc, b"abcde")?;
    let mut shelf = SureShelf::new(Vec::from_array(alloc, [(name, bytes)])?);
    let mut into = [0u8; 3];
    assert_eq!(rt; shelf.piece("roads", 0, &mut into), Ok(3));
    assert_eq!(rt; into.as_slice(), b"abc".as_slice());
    assert_eq!(rt; shelf.piece("roads", 3, &mut into), Ok(2));
    assert_eq!(rt; into.as_slice(), b"dec".as_slice());
    assert_eq!(rt; shelf.piece("roads", 5, &mut into), Ok(0));
    assert_eq!(rt;
        shelf.piece("road", 0, &mut into),
        Err(ShelfAnswer::Missing)
    );
    Ok(())
}

#[test]
fn a_whole_text_in_memory(rt: HostRuntime) -> Result<(), Fail> {
    let mut sink = SureSink::new(rt.alloc());
    assert_eq!(rt; write_whole(&mut sink, b"toll "), Ok(()));
    assert_eq!(rt; write_whole(&mut sink, b"arc"), Ok(()));
    assert_eq!(rt; sink.written(), b"toll arc".as_slice());
    Ok(())
}

#[test]
fn a_sink_that_fails_in_mid_stream(rt: HostRuntime) {
    let mut sink = Narrow {
        taken: 0,
        most: 3,
        faults: 0,
    };
    assert_eq!(rt; write_whole(&mut sink, b"abc"), Ok(()));
    assert_eq!(rt; write_whole(&mut sink, b"d"), Err(SinkAnswer::Failed));
}

#[test]
fn the_system(rt: HostRuntime) {
    let mut shelf = FileShelf::new(&rt);
    let mut into = [0u8; 3];
    assert_eq!(rt;
        shelf.piece("no such file", 0, &mut into),
        Err(ShelfAnswer::Missing)
    );
    let mut out = StdSink::new(&rt);
    assert_eq!(rt; write_whole(&mut out, b"written\n"), Ok(()));
}
