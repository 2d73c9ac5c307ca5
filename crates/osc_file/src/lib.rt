//! A keeper over a file, so that a Sender Sequence Number outlives the program (RFC 8613, B.1.1).
//!
//! This returns the next Sender Sequence Number, over all runs of a program that calls it:
//!
//!     fn next_number<R: Files + Alloc>(rt: &R) -> Result<Piv, NumbersError>
//!     where
//!         R::File: TryLock,
//!     {
//!         let mut keeper = FileKeeper::new(rt, "numbers");
//!         let mut numbers = Numbers::start(&mut keeper)?;
//!         numbers.next(&mut keeper) // 0, and the file holds 64; in the next run 64
//!     }
#![tactic(auto)]

mod counted_record;
mod counter;
mod file_keeper;
mod file_trouble;
mod held;
mod lock;
mod number_text;
mod places;
mod record;
mod record_file;
mod record_text;
mod record_trouble;
mod replacing;
mod storing;
mod telling_keeper;
mod telling_record;

pub use counted_record::CountedRecord;
pub use counter::MonotonicCounter;
pub use file_keeper::FileKeeper;
pub use file_trouble::FileTrouble;
pub use lock::TryLock;
pub use places::Place;
pub use record_file::RecordFile;
pub use record_trouble::RecordTrouble;
pub use telling_keeper::TellingKeeper;
pub use telling_record::TellingRecord;
