//! A counter of the platform that never goes back.

use crate::record_trouble::RecordTrouble;
use osc_context::KeeperError;

/// A counter that never goes back, whatever is done to the files: of a secure element, say, or a fuse. It may begin at any count, and is
/// used for one record alone.
pub trait MonotonicCounter {
    /// Returns the count.
    fn count(&mut self) -> Result<u64, KeeperError>;

    /// Counts one more, and returns the new count once no power cut can undo it.
    fn advance(&mut self) -> Result<u64, KeeperError>;
}

/// No counter: it is always ahead of each record, so nothing waits for it.
#[derive(Clone, Copy)]
pub(crate) struct NoCounter;

impl MonotonicCounter for NoCounter {
    fn count(&mut self) -> Result<u64, KeeperError> {
        Ok(u64::MAX)
    }

    fn advance(&mut self) -> Result<u64, KeeperError> {
        Ok(u64::MAX)
    }
}

/// Returns the count.
pub(crate) fn count_of<C: MonotonicCounter>(counter: &mut C) -> Result<u64, RecordTrouble> {
    counter.count().map_err(|_| RecordTrouble::Counter)
}

/// Advances the counter up to a generation.
pub(crate) fn catch_up<C: MonotonicCounter>(
    counter: &mut C,
    generation: u64,
) -> Result<(), RecordTrouble> {
    for _ in count_of(counter)?..generation {
        if counter.advance().is_err() {
            return Err(RecordTrouble::Counter);
        }
    }
    Ok(())
}
