//! Laws about the definitions alone. Each is the contract of a function that does nothing.

ghost use Rattle.osc_blocks.specs.Laws.{CutsIntoBlocks, GivesBackBodies, HandsOverBodies, JoinedIsCut, OneRequestTag, TakesCutBlocks};

/// States that a body which is whole, whatever it was asked to take, has the bytes of the newest pieces that it took, and that
/// these are the blocks of one body, all of them and in order (RFC 7959, 2.3 to 2.5).
pub fn hands_over_bodies()
    ensures { HandsOverBodies }
{}

/// States that the blocks that a body is cut into, one after the other, by requests with increasing numbers, are that body in
/// blocks (RFC 7959, 2.3).
pub fn cuts_into_blocks()
    ensures { CutsIntoBlocks }
{}

/// States that a body with room for it takes the blocks that a body is cut into, one after the other, by requests with
/// increasing numbers, and then is whole, and is that body (RFC 7959, 2.3).
pub fn gives_back_bodies()
    ensures { TakesCutBlocks × GivesBackBodies }
{}

/// States that blocks of two bodies are never joined, whatever a network does with the datagrams. A server has only blocks that
/// its client sent: `osc_kept::both_ends` says that the client sealed each request that is delivered, under the number with which
/// it is delivered, and that none is delivered twice. If a body is whole, and all that the client sent for the operation from the
/// block on that begins it are blocks of one body, then it is that body. A client sends so if each operation has the Request-Tag
/// of its body in it, by `one_request_tag` (RFC 9175, 3.5.1).
pub fn joined_is_cut()
    ensures { JoinedIsCut }
{}

/// States that bodies which begin with requests of different numbers have different tags (RFC 9175, 3.4).
pub fn one_request_tag()
    ensures { OneRequestTag }
{}
