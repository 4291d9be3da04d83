//! What is held of a reply that is read payload by payload.

use crate::awaited::Awaited;
use crate::standing::StandingColumns;

/// What is awaited of a reply, and the columns that stand.
#[derive(Drop)]
pub struct ReplyState {
    pub awaited: Awaited,
    pub standing: StandingColumns,
}
