//! Where text is written.
ghost use Rattle.std.specs.Prelude.{◌≡◌, ◌≤◌, ℕ, List, Option, IfOk, length};
ghost use Rattle.npp_outside.specs.Sink.{Writes, WritesWhole, IsWriteCount, HasSinkCause};

/// Why a sink took no bytes.
#[derive(Clone, Copy, Debug, PartialEq, Eq)]
pub enum SinkAnswer {
    /// Writing failed.
    Failed,
    /// A sink that keeps its bytes found no memory for more.
    Memory,
}

/// A place to which text is written.
pub trait Sink {
    /// All bytes that were written so far, where the sink tells them.
    ghost written: { Self → Option (List ℕ) };

    /// How many calls have failed. It never falls, and stops at `u64::MAX`.
    ghost faults: { Self → ℕ };

    /// Writes the first bytes of `bytes`, and answers how many: at least one, where there is one.
    ///
    /// On an error nothing was written. `Failed` comes only where `faults` was counted up in this call.
    fn write(&mut self, bytes: &[u8]) -> Result<usize, SinkAnswer>
        ensures count { IfOk result (IsWriteCount bytes.now) }
        ensures written { Writes (written self.old) (written self.new) bytes.now result }
        ensures cause { HasSinkCause (faults self.old) (faults self.new) result };
}

/// Writes all of the bytes, by as many writes as it takes.
///
/// On an error, which is that of the last write, a part of the bytes was written that is not the whole.
pub fn write_whole<O: Sink>(out: &mut O, bytes: &[u8]) -> Result<(), SinkAnswer>
    ensures written { WritesWhole (O.written out.old) (O.written out.new) bytes.now result }
    ensures cause { HasSinkCause (O.faults out.old) (O.faults out.new) result }
{
    let mut done = 0;
    while done < bytes.len() {
        done += out.write(&bytes[done..])?;
    }
    Ok(())
}
