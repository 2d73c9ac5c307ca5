//! The server whose numbers a file keeps, on the page for library users.

use osc_context::{Context, Keeper, KeeperError};
use osc_endpoint::{Decided, Fresh};
use osc_file::{FileKeeper, TryLock};
use osc_kept::{KeptError, KeptServer};
use osc_window::WindowSize;
use std::rt::Files;

/// Starts a server over the file `numbers`. A refusal hands the keeper back.
pub fn server_over_a_file<'a, R: Files + Alloc>(
    rt: &'a R,
    context: Context,
) -> Result<KeptServer<FileKeeper<'a, R>>, (KeptError, FileKeeper<'a, R>)>
where
    R::File: TryLock,
{
    // `rt` is the runtime. If there is no file of this name, or it holds 0, the server is fresh. Otherwise it begins as after a
    // restart, above every number that an earlier life may have used.
    let keeper = FileKeeper::new(rt, "numbers");
    KeptServer::start(context, keeper, WindowSize::default())
}

/// Decides about a datagram, as a server does.
pub fn decide_kept<K: Keeper>(
    server: &mut KeptServer<K>,
    now: u64,
    echo: [u8; 8],
    mid: u16,
    datagram: &mut [u8],
    out: &mut [u8; 64],
) -> Result<Decided, KeeperError> {
    let decided = server.decide(now, Fresh { echo, mid }, datagram, out)?;
    Ok(decided)
}
