//! A request that is opened in stages, on the page for library users.

use osc_protect::{
    KeyedContext, Opened, UnprotectError, decrypt_request, head_of_request, inspect_request,
};

/// Opens a request under one of several contexts.
pub fn open_in_stages<'b>(
    context: &KeyedContext,
    datagram: &'b mut [u8],
) -> Result<Opened<'b>, UnprotectError> {
    let head = head_of_request(datagram)?;
    // Ask this of each context.
    if !head.names(context.context()) {
        return Err(UnprotectError::WrongContext);
    }
    let sealed = head.sealed();
    let Ok(decrypted) = decrypt_request(context, datagram, sealed) else {
        return Err(UnprotectError::Tag);
    };
    match inspect_request(datagram, decrypted) {
        Ok(read) => Ok(read.opened(datagram)),
        Err(_) => Err(UnprotectError::Inner),
    }
}
