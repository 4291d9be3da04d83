//! Streams cut into payloads, and payloads framed.

ghost use Rattle.std.specs.Prelude.{◌≡◌, ◌≢◌, ◌-◌};
ghost use Rattle.mysql_wire.specs.Incoming.{incoming_at};
ghost use Rattle.mysql_c_handles.specs.Bytes.{OfBytes};
ghost use Rattle.mysql_c_handles.specs.Codes.{code_number};
ghost use Rattle.mysql_c_commands.specs.Packets.{Frames, FramesIn, IsPackets, IsReadOn, IsReadOnIn, OfPackets};
ghost use Rattle.mysql_c_commands.specs.Packets.{Restarts, RestartsIn, ShowsPayload, wire_code};

use mysql_c_handles::{Code, Handle, Object, start_of};
use mysql_receive::StreamFault;
use mysql_wire::{PacketCodecError, PacketReader, packet_to_chunks};
use std::alloc::Global;

/// The answer that an error of a reader has. No call of the library reads a file, so that `Io` is none of its errors.
fn code_of(error: PacketCodecError) -> Code
    ensures { result ≡ wire_code error }
{
    match error {
        PacketCodecError::PacketTooLarge => Code::Stream(StreamFault::TooLarge),
        PacketCodecError::PacketsOutOfSync => Code::Stream(StreamFault::OutOfSync),
        _ => Code::Memory,
    }
}

/// Reads on to the end of the next packet.
fn read_on(reader: &mut PacketReader, piece: &[u8], used: &mut usize, whole: &mut bool) -> Code
    ensures { IsReadOn piece.now used.new whole.new (code_number result) reader.old reader.new }
{
    let mut rest = piece;
    match reader.advance(&mut rest) {
        Ok(stands) => {
            *used = piece.len() - rest.len();
            *whole = stands;
            Code::Done
        }
        Err(error) => code_of(error),
    }
}

/// The next packet begins at the number 0.
fn restart(reader: &mut PacketReader) -> Code
    ensures { Restarts (code_number result) reader.old reader.new }
{
    if reader.is_begun() {
        return Code::Unfinished;
    }
    reader.reset_seq_id();
    Code::Done
}

/// Reads on to the end of the next packet of the stream that an object reads.
fn feed(object: &mut Object, piece: &[u8], used: &mut usize, whole: &mut bool) -> Code
    ensures { OfPackets object.old (code_number result) object.new
        (IsReadOnIn piece.now used.new whole.new (code_number result) object.new) }
{
    match object {
        Object::Packets(reader) => read_on(reader, piece, used, whole),
        Object::Empty => Code::EmptyHandle,
        _ => Code::OtherKind,
    }
}

/// Shows the payload that is whole.
fn show_payload(object: &Object, data: &mut *const u8, len: &mut usize) -> Code
    ensures { OfPackets object.now (code_number result) object.now
        (ShowsPayload (code_number result) len.new object.now) }
{
    match object {
        Object::Packets(reader) => {
            let payload = reader.payload();
            *data = start_of(payload);
            *len = payload.len();
            Code::Done
        }
        Object::Empty => Code::EmptyHandle,
        _ => Code::OtherKind,
    }
}

/// The next packet of the stream that an object reads begins at the number 0.
fn restart_numbers(object: &mut Object) -> Code
    ensures { OfPackets object.old (code_number result) object.new (RestartsIn (code_number result) object.new) }
{
    match object {
        Object::Packets(reader) => restart(reader),
        Object::Empty => Code::EmptyHandle,
        _ => Code::OtherKind,
    }
}

/// Appends the framing of a payload to bytes.
fn frame(bytes: &mut Vec<u8>, payload: &[u8], number: &mut u8, limit: usize) -> Code
    ensures { Frames payload.now limit number.old number.new (code_number result) bytes.old.items bytes.new.items }
{
    if payload.len() > limit {
        return Code::Stream(StreamFault::TooLarge);
    }
    match packet_to_chunks(*number, payload, bytes) {
        Ok(next) => {
            *number = next;
            Code::Done
        }
        Err(_) => Code::Memory,
    }
}

/// Appends the framing of a payload to the bytes that an object is.
fn frame_in(object: &mut Object, payload: &[u8], number: &mut u8, limit: usize) -> Code
    ensures framed { OfBytes object.old (code_number result) object.new
        (FramesIn payload.now limit number.old number.new (code_number result) object.new) }
    ensures kept { code_number result ≢ 0 → number.new ≡ number.old }
{
    match object {
        Object::Bytes(bytes) => frame(bytes, payload, number, limit),
        Object::Empty => Code::EmptyHandle,
        _ => Code::OtherKind,
    }
}

/// Makes the handle refer to a reader of packets, of which the first chunk has this number.
pub fn packets_new(alloc: Global, handle: &mut Handle, first: u8, limit: usize) -> u32
    ensures made { result ≡ 0 → IsPackets handle.new.object (λ r. r ≡ incoming_at first limit) }
    ensures kept { result ≢ 0 → (result ≡ 1) × (handle.new.object ≡ handle.old.object) }
{
    let reader = Object::Packets(PacketReader::new(alloc, first, limit));
    match handle.set(alloc, reader) {
        Ok(()) => Code::Done.number(),
        Err(_) => Code::Memory.number(),
    }
}

/// Reads on to the end of the next packet. Tells how many bytes of the piece were used, and whether
/// a payload is whole then.
///
/// Promise: a piece is read on as `PacketReader` reads it (`IsReadOnIn`).
pub fn packets_feed(
    alloc: Global,
    handle: &mut Handle,
    piece: &[u8],
    used: &mut usize,
    whole: &mut bool,
) -> u32
    ensures { OfPackets handle.old.object result handle.new.object
        (IsReadOnIn piece.now used.new whole.new result handle.new.object) }
{
    let Some(mut object) = handle.take(alloc) else {
        return Code::EmptyHandle.number();
    };
    let code = feed(&mut object, piece, used, whole);
    handle.put(object);
    code.number()
}

/// Shows the payload that is whole. It stays where it is until the next call on the handle.
pub fn packets_payload(
    alloc: Global,
    handle: &mut Handle,
    data: &mut *const u8,
    len: &mut usize,
) -> u32
    ensures { OfPackets handle.old.object result handle.new.object (ShowsPayload result len.new handle.new.object) }
{
    let Some(object) = handle.take(alloc) else {
        return Code::EmptyHandle.number();
    };
    let code = show_payload(&object, data, len);
    handle.put(object);
    code.number()
}

/// The next packet begins at the number 0. Where bytes of one came nothing changes.
pub fn packets_restart(alloc: Global, handle: &mut Handle) -> u32
    ensures { OfPackets handle.old.object result handle.new.object (RestartsIn result handle.new.object) }
{
    let Some(mut object) = handle.take(alloc) else {
        return Code::EmptyHandle.number();
    };
    let code = restart_numbers(&mut object);
    handle.put(object);
    code.number()
}

/// Appends a payload to the bytes that a handle refers to, framed in chunks.
///
/// The first has this number, which goes on behind the last one.
///
/// Promise: exactly the payload's framing is appended, or the bytes stay (`FramesIn`).
pub fn packet_put(
    alloc: Global,
    out: &mut Handle,
    payload: &[u8],
    number: &mut u8,
    limit: usize,
) -> u32
    ensures framed { OfBytes out.old.object result out.new.object
        (FramesIn payload.now limit number.old number.new result out.new.object) }
    ensures kept { result ≢ 0 → number.new ≡ number.old }
{
    let Some(mut object) = out.take(alloc) else {
        return Code::EmptyHandle.number();
    };
    let code = frame_in(&mut object, payload, number, limit);
    out.put(object);
    code.number()
}
