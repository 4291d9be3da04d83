//! OK and EOF packets of a server's reply, read and written, and the session states that they tell.
//!
//! `OkPacketDeserializer` reads one by its kind (`CommonOkPacket`, `ResultSetTerminator` and others);
//! `OkPacket` is what it says. `SessionStateInfo` is a part of it, and `SessionStateChange` one state:
//! a system variable, the schema, the transaction, GTIDs. Readers and writers of replies call these.
#![tactic(auto)]

pub mod body;
pub mod deserializer;
pub mod kind;
pub mod laws;
pub mod ok_packet;
mod writing;

pub use body::OkPacketBody;
pub use deserializer::{InvalidOkPacketHeader, OkPacketDeserializer};
pub use kind::{
    CommonOkPacket, NetworkStreamTerminator, OkPacketKind, OldEofPacket, ResultSetTerminator,
};
pub use ok_packet::{OkPacket, has_more_results, has_mysql_status, has_named_status};

pub mod change;
pub mod info;
pub mod members;
pub mod session_state_laws;
mod to_end;
pub mod variable;

pub use change::SessionStateChange;
pub use info::{SessionStateInfo, put_states, states_of};
pub use members::{
    Gtids, Schema, StateText, TransactionCharacteristics, TransactionState, Unsupported,
};
pub use mysql_const::{SessionStateType, UnknownSessionStateType};
pub use variable::SystemVariable;
