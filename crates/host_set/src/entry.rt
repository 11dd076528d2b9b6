//! What a host side keeps of a call that it served.

use wasm_syntax::HostCall;

/// A call that was served, with the place of its reply, so that no reply is stored twice.
#[derive(Drop)]
pub(crate) enum Entry {
    /// The device at a place of the set, and the place in its log.
    OfDevice { place: usize, at: usize },
    /// The call, and the number of the script's reply.
    OfScript { call: HostCall, reply: usize },
}
