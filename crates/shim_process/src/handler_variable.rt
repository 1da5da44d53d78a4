// The variable of a handler.
use shim_base::Chan;

/// Its slot, and the channel that its `try` made for it.
#[derive(Drop)]
pub struct HandlerVariable {
    pub slot: u32,
    pub channel: Chan,
}
