// A filter's options, written again by the one writer.
use model::fault::{Cause, Fault, Layer};
use netlink::default_nla::DefaultNla;
use netlink::traits::Emitable;
use netlink::walker::NlasIterator;
use std::alloc::{AllocError, Global};
use thiserror::Error;

/// Why a filter was not written again.
#[derive(Debug, Drop, Error)]
pub(crate) enum Unwritten {
    #[error("no memory")]
    NoMemory(#[from(alloc)] AllocError),
    #[error("{}", .0.cause)]
    Fault(#[from] Fault),
    #[error("{0}")]
    Refused(#[from] Cause),
}

/// Each option as a default attribute, one after another: head, payload and zero padding.
pub(crate) fn rewritten(heap: Global, filter: &[u8]) -> Result<Vec<u8>, Unwritten> {
    let mut written = Vec::new(heap);
    for found in NlasIterator::new(filter, Layer::FilterOption) {
        let nla = found?;
        let option = DefaultNla::from(nla);
        let mut bytes = vec![in heap; 0u8; option.buffer_len()?]?;
        option.emit(bytes.as_mut_slice())?;
        written.extend_from_slice(bytes.as_slice())?;
    }
    Ok(written)
}
