//! What is held of a reply that is read payload by payload.

ghost use Rattle.std.specs.Prelude.{◌≡◌, ◌<◌, ◌+◌, ◌≤◌, ◌++◌, ◌∷◌, [], true, false, None, Some, vec_len, vec_capacity};
ghost use Rattle.mysql_replies.specs.Reply.{context_by, fresh, is_over};
ghost use Rattle.mysql_replies.specs.Together as together;
ghost use Rattle.mysql_replies.specs.States.{IsAwaiting, IsOver, IsReading, reply_so_far};
ghost use Rattle.mysql_replies.specs.Views.{part_view};

use crate::fault::ReplyFault;
use crate::part::Part;
use crate::results::ReplyResult;
use bitflags::Flags;
use mysql_const::{Capabilities, CapabilityFlags, MariadbCapabilities};
use mysql_reply_events::{EventReader, ReplyKind, Turn};
use mysql_server_packets::ProgressReport;
use std::alloc::Global;

/// What was read of a reply.
#[derive(Drop)]
pub struct ReplyState {
    pub events: EventReader,
    pub results: Vec<ReplyResult>,
    // An empty list, which takes the place of the results that are handed out while rows are awaited.
    pub spare: Vec<ReplyResult>,
    pub progress: Vec<ProgressReport<'static>>,
    pub count: u64,
    pub part: Part,
    pub fault: Option<ReplyFault>,
}

/// Appends a result where there is room for it.
pub fn push_in_room(results: &mut Vec<ReplyResult>, another: ReplyResult)
    requires { vec_len results.old < vec_capacity results.old }
    ensures items { results.new.items ≡ results.old.items ++ another ∷ [] }
    ensures len { vec_len results.new ≡ vec_len results.old + 1 }
    ensures capacity { vec_capacity results.old ≤ vec_capacity results.new }
{
    let Ok(()) = results.push(another) else {
        unreachable!()
    };
}

/// What there is of the first result before its first payload.
fn first_part(alloc: Global, kind: ReplyKind) -> Part
    ensures { part_view result ≡ together.first_part kind None }
{
    match kind {
        ReplyKind::Fetch => Part::RawRows(Vec::new(alloc)),
        ReplyKind::FieldList => Part::Fields(Vec::new(alloc)),
        _ => Part::Nothing,
    }
}

impl ReplyState {
    /// The state before any payload has come.
    pub fn new(alloc: Global, kind: ReplyKind, capabilities: CapabilityFlags) -> ReplyState
        ensures fresh { reply_so_far result ≡ fresh (context_by kind capabilities) }
        ensures going { result.fault ≡ None }
        ensures reading { IsReading result }
    {
        let capabilities = Capabilities {
            protocol: capabilities,
            mariadb: MariadbCapabilities::empty(),
        };
        ReplyState {
            events: EventReader::new(alloc, kind, capabilities, None),
            results: Vec::new(alloc),
            spare: Vec::new(alloc),
            progress: Vec::new(alloc),
            count: 0,
            part: first_part(alloc, kind),
            fault: None,
        }
    }

    /// The fault of the payload that comes.
    pub fn fail(&mut self, fault: ReplyFault) -> ReplyFault
        ensures state { self.new ≡ record self.old { fault = Some fault } }
        ensures same { result ≡ fault }
    {
        self.fault = Some(fault);
        fault
    }

    /// Nothing more of the server is awaited.
    pub fn is_over(&self) -> bool
        ensures over { result ≡ true → IsOver self.now }
        ensures awaiting { result ≡ false → IsAwaiting self.now }
        ensures is { result ≡ is_over self.now.events.so_far.awaited }
    {
        match self.events.turn() {
            Turn::Server => false,
            Turn::Client | Turn::Nobody => true,
        }
    }
}
