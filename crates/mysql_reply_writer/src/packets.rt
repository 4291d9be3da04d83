//! Payloads, numbered and framed.

ghost use Rattle.std.specs.Prelude.{◌≡◌, ◌+◌, ◌++◌, ◌≤◌, ◌∷◌, [], IfErr, None, OnErr, OnOk, drop, length, map, take};
ghost use Rattle.mysql_reply_writer.specs.Refusals.{or_cause, too_large};
ghost use Rattle.mysql_rows.specs.Views.{row_view};
ghost use Rattle.mysql_server_packets.specs.Packets.{prepare_ok};
ghost use Rattle.mysql_server_packets.specs.Views.{prepare_ok_view};
ghost use Rattle.mysql_columns.specs.Columns.{column};
ghost use Rattle.mysql_replies.specs.Views.{column_views};
ghost use Rattle.mysql_reply_writer.specs.Fits.{CellsFit, ColumnsFit};
ghost use Rattle.mysql_reply_writer.specs.Written.{columns_follow, count_payload, eof_due, group_payloads};
ghost use Rattle.mysql_reply_writer.specs.Written.{prepared_payloads};
ghost use Rattle.mysql_reply_writer.specs.Puts.{IsCause, Puts, RefusesPayloads};
ghost use Rattle.mysql_reply_writer.specs.Views.{PutsPayloads, RefusesPayload, place_view, row_cause, row_payload};
ghost use Rattle.mysql_reply_writer.specs.Views.{with_counts};

use crate::facts::{cells_fit, column_fits};
use crate::made::{make_empty_eof, put_follow, put_row_payload};
use crate::refusal::ReplyRefusal;
use crate::writer::OpenRows;
use mysql_buf::BufMutExt;
use mysql_columns::Column;
use mysql_fields::MySerialize;
use mysql_replies::Context;
use mysql_rows::Row;
use mysql_server_packets::StmtPacket;
use mysql_wire::{frame_in_place, packet_to_chunks};
use std::alloc::Global;

/// The packets that are written.
///
/// Each payload is made in a buffer first, but for rows, which are made and framed where they are
/// put.
#[derive(Drop)]
pub(crate) struct Packets {
    /// The most bytes of a payload.
    pub(crate) limit: usize,
    /// The number of the next chunk.
    pub(crate) number: u8,
    /// How many payloads were written.
    pub(crate) payloads: u64,
    /// The payload that is made.
    pub(crate) payload: Vec<u8>,
}

impl Packets {
    /// No packet, with the number of the first chunk.
    pub(crate) fn new(alloc: Global, first_id: u8, limit: usize) -> Packets
        ensures place { place_view result ≡ record { number = first_id; payloads = 0 } }
        ensures limit { result.limit ≡ limit }
    {
        Packets {
            limit,
            number: first_id,
            payloads: 0,
            payload: Vec::new(alloc),
        }
    }

    /// Appends the payload that was made, which has at most so many bytes.
    pub(crate) fn put_made(&mut self, room: usize, out: &mut Vec<u8>) -> Result<(), ReplyRefusal>
        ensures ok { OnOk result (Puts room (place_view self.old) (self.old.payload.items ∷ [])
            (place_view self.new) out.old.items out.new.items) }
        ensures err { IfErr result (RefusesPayloads room (place_view self.old) (self.old.payload.items ∷ [])) }
        ensures kept { OnErr result (out.new.items ≡ out.old.items) }
        ensures place { OnErr result (place_view self.new ≡ place_view self.old) }
        ensures limit { self.new.limit ≡ self.old.limit }
    {
        if self.payload.len() > room || self.payloads == u64::MAX {
            return Err(ReplyRefusal::PacketTooLarge(self.payloads));
        }
        self.number = packet_to_chunks(self.number, self.payload.as_slice(), out)?;
        self.payloads += 1;
        Ok(())
    }

    /// Appends a payload.
    pub(crate) fn put<P: MySerialize>(
        &mut self,
        payload: &P,
        out: &mut Vec<u8>,
    ) -> Result<(), ReplyRefusal>
        ensures ok { OnOk result
            (PutsPayloads self.old (P.written payload.now ∷ []) self.new out.old.items out.new.items) }
        ensures err { IfErr result (RefusesPayload self.old (P.written payload.now ∷ [])) }
        ensures kept { OnErr result (out.new.items ≡ out.old.items) }
        ensures place { OnErr result (place_view self.new ≡ place_view self.old) }
        ensures limit { self.new.limit ≡ self.old.limit }
    {
        self.payload.clear();
        payload.serialize(&mut self.payload)?;
        self.put_made(self.limit, out)
    }

    /// Frames the payload behind room for a header, which begins at this place.
    #[inline(always)]
    fn frame(&mut self, start: usize, out: &mut Vec<u8>) -> Result<(), ReplyRefusal>
        requires { start + 4 ≤ length out.old.items }
        ensures ok { OnOk result
            (PutsPayloads self.old (drop (start + 4) out.old.items ∷ []) self.new
            (take start out.old.items) out.new.items) }
        ensures err { IfErr result (RefusesPayload self.old (drop (start + 4) out.old.items ∷ [])) }
        ensures kept { OnErr result (take start out.new.items ≡ take start out.old.items) }
        ensures place { OnErr result (place_view self.new ≡ place_view self.old) }
        ensures limit { self.new.limit ≡ self.old.limit }
    {
        let size = out.len() - start - 4;
        if size > self.limit || self.payloads == u64::MAX {
            return Err(ReplyRefusal::PacketTooLarge(self.payloads));
        }
        match frame_in_place(self.number, start, &mut self.payload, out) {
            Ok(next) => {
                self.number = next;
                self.payloads += 1;
                Ok(())
            }
            Err(_) => Err(ReplyRefusal::Memory),
        }
    }

    /// Appends a row, framed. After a refusal `out` still begins with what it held.
    #[inline(always)]
    fn put_framed_row(
        &mut self,
        binary: bool,
        result_number: usize,
        rows: &OpenRows,
        row: &Row,
        out: &mut Vec<u8>,
    ) -> Result<(), ReplyRefusal>
        ensures ok { OnOk result
            (PutsPayloads self.old (row_payload binary rows.now row.now ∷ [])
            self.new out.old.items out.new.items) }
        ensures form { OnOk result (row_cause binary result_number rows.now row.now ≡ None) }
        ensures err { IfErr result
            (IsCause (or_cause (row_cause binary result_number rows.now row.now)
            (too_large self.old.limit self.old.payloads (row_payload binary rows.now row.now ∷ [])))) }
        ensures kept { take (length out.old.items) out.new.items ≡ out.old.items }
        ensures place { OnErr result (place_view self.new ≡ place_view self.old) }
        ensures limit { self.new.limit ≡ self.old.limit }
    {
        let start = out.len();
        out.extend_from_slice(&[0, 0, 0, 0])?;
        put_row_payload(out, binary, result_number, rows, row)?;
        self.frame(start, out)
    }

    /// Appends a row under the columns of the rows that go on.
    pub(crate) fn put_row(
        &mut self,
        binary: bool,
        result_number: usize,
        rows: &OpenRows,
        row: &Row,
        out: &mut Vec<u8>,
    ) -> Result<(), ReplyRefusal>
        ensures ok { OnOk result
            (PutsPayloads self.old (row_payload binary rows.now row.now ∷ [])
            self.new out.old.items out.new.items) }
        ensures form { OnOk result (row_cause binary result_number rows.now row.now ≡ None) }
        ensures fit { OnOk result (CellsFit (row_view row.now).cells) }
        ensures err { IfErr result
            (IsCause (or_cause (row_cause binary result_number rows.now row.now)
            (too_large self.old.limit self.old.payloads (row_payload binary rows.now row.now ∷ [])))) }
        ensures kept { OnErr result (out.new.items ≡ out.old.items) }
        ensures place { OnErr result (place_view self.new ≡ place_view self.old) }
        ensures limit { self.new.limit ≡ self.old.limit }
    {
        cells_fit(row);
        let start = out.len();
        let answer = self.put_framed_row(binary, result_number, rows, row, out);
        if answer.is_err() {
            out.truncate(start);
        }
        answer
    }

    /// Appends a packet for each column.
    fn put_columns(&mut self, columns: &[Column], out: &mut Vec<u8>) -> Result<(), ReplyRefusal>
        ensures ok { OnOk result
            (PutsPayloads self.old (map column (column_views columns.now))
            self.new out.old.items out.new.items) }
        ensures fit { OnOk result (ColumnsFit (column_views columns.now)) }
        ensures err { IfErr result
            (RefusesPayload self.old (map column (column_views columns.now))) }
        ensures kept { take (length out.old.items) out.new.items ≡ out.old.items }
        ensures limit { self.new.limit ≡ self.old.limit }
    {
        'columns: for column in columns {
            column_fits(column);
            self.put(column, out)?;
        }
        Ok(())
    }

    /// Appends the EOF that is due behind columns.
    fn put_eof_due(
        &mut self,
        context: Context,
        columns: &[Column],
        out: &mut Vec<u8>,
    ) -> Result<(), ReplyRefusal>
        ensures ok { OnOk result
            (PutsPayloads self.old (eof_due context (column_views columns.now))
            self.new out.old.items out.new.items) }
        ensures err { IfErr result
            (RefusesPayload self.old (eof_due context (column_views columns.now))) }
        ensures kept { take (length out.old.items) out.new.items ≡ out.old.items }
        ensures limit { self.new.limit ≡ self.old.limit }
    {
        if columns.is_empty() || context.deprecates_eof() {
            return Ok(());
        }
        make_empty_eof(&mut self.payload)?;
        self.put_made(self.limit, out)
    }

    /// Appends columns, and the EOF that is due.
    pub(crate) fn put_group(
        &mut self,
        context: Context,
        columns: &[Column],
        out: &mut Vec<u8>,
    ) -> Result<(), ReplyRefusal>
        ensures ok { OnOk result
            (PutsPayloads self.old (group_payloads context (column_views columns.now))
            self.new out.old.items out.new.items) }
        ensures fit { OnOk result (ColumnsFit (column_views columns.now)) }
        ensures err { IfErr result
            (RefusesPayload self.old (group_payloads context (column_views columns.now))) }
        ensures kept { take (length out.old.items) out.new.items ≡ out.old.items }
        ensures limit { self.new.limit ≡ self.old.limit }
    {
        self.put_columns(columns, out)?;
        self.put_eof_due(context, columns, out)
    }

    /// Appends a count of columns, the columns, and the EOF that is due. After a refusal
    /// `out` still begins with what it held.
    fn put_head_packets(
        &mut self,
        context: Context,
        columns: &[Column],
        out: &mut Vec<u8>,
    ) -> Result<(), ReplyRefusal>
        ensures ok { OnOk result (PutsPayloads self.old (count_payload context (length columns.now) ∷
            group_payloads context (column_views columns.now)) self.new out.old.items out.new.items) }
        ensures fit { OnOk result (ColumnsFit (column_views columns.now)) }
        ensures err { IfErr result
            (RefusesPayload self.old (count_payload context (length columns.now) ∷
            group_payloads context (column_views columns.now))) }
        ensures kept { take (length out.old.items) out.new.items ≡ out.old.items }
        ensures limit { self.new.limit ≡ self.old.limit }
    {
        self.payload.clear();
        put_follow(&mut self.payload, context)?;
        self.payload.put_lenenc_int(columns.len() as u64)?;
        self.put_made(self.limit, out)?;
        self.put_group(context, columns, out)
    }

    /// Appends a count of columns, the columns, and the EOF that is due. After a refusal nothing has
    /// changed.
    pub(crate) fn put_head(
        &mut self,
        context: Context,
        columns: &[Column],
        out: &mut Vec<u8>,
    ) -> Result<(), ReplyRefusal>
        ensures ok { OnOk result (PutsPayloads self.old (count_payload context (length columns.now) ∷
            group_payloads context (column_views columns.now)) self.new out.old.items out.new.items) }
        ensures fit { OnOk result (ColumnsFit (column_views columns.now)) }
        ensures err { IfErr result
            (RefusesPayload self.old (count_payload context (length columns.now) ∷
            group_payloads context (column_views columns.now))) }
        ensures kept { OnErr result (out.new.items ≡ out.old.items) }
        ensures place { OnErr result (place_view self.new ≡ place_view self.old) }
        ensures limit { self.new.limit ≡ self.old.limit }
    {
        let start = out.len();
        let number = self.number;
        let payloads = self.payloads;
        let answer = self.put_head_packets(context, columns, out);
        if answer.is_err() {
            out.truncate(start);
            self.number = number;
            self.payloads = payloads;
        }
        answer
    }

    /// Appends a statement packet with these counts.
    fn put_statement(
        &mut self,
        context: Context,
        statement: &StmtPacket,
        parameters: usize,
        columns: usize,
        out: &mut Vec<u8>,
    ) -> Result<(), ReplyRefusal>
        requires parameters { parameters ≤ 65535 }
        requires columns { columns ≤ 65535 }
        ensures ok { OnOk result
            (PutsPayloads self.old ((prepare_ok (with_counts statement.now parameters columns) ++
            columns_follow context) ∷ [])
            self.new out.old.items out.new.items) }
        ensures err { IfErr result
            (RefusesPayload self.old ((prepare_ok (with_counts statement.now parameters columns) ++
            columns_follow context) ∷ [])) }
        ensures kept { OnErr result (out.new.items ≡ out.old.items) }
        ensures limit { self.new.limit ≡ self.old.limit }
    {
        let packet = StmtPacket::new(
            statement.statement_id(),
            columns as u16,
            parameters as u16,
            statement.warning_count(),
        );
        self.payload.clear();
        packet.serialize(&mut self.payload)?;
        put_follow(&mut self.payload, context)?;
        self.put_made(self.limit, out)
    }

    /// Appends a statement packet with the counts of these lists, and each list as a group. After a
    /// refusal `out` still begins with what it held.
    fn put_prepared_packets(
        &mut self,
        context: Context,
        statement: &StmtPacket,
        parameters: &[Column],
        columns: &[Column],
        out: &mut Vec<u8>,
    ) -> Result<(), ReplyRefusal>
        requires parameters { length parameters.now ≤ 65535 }
        requires columns { length columns.now ≤ 65535 }
        ensures ok { OnOk result
            (PutsPayloads self.old (prepared_payloads context (prepare_ok_view statement.now)
            (column_views parameters.now) (column_views columns.now)) self.new out.old.items out.new.items) }
        ensures fit { OnOk result (ColumnsFit (column_views parameters.now) × ColumnsFit (column_views columns.now)) }
        ensures err { IfErr result
            (RefusesPayload self.old (prepared_payloads context (prepare_ok_view statement.now)
            (column_views parameters.now) (column_views columns.now))) }
        ensures kept { take (length out.old.items) out.new.items ≡ out.old.items }
        ensures limit { self.new.limit ≡ self.old.limit }
    {
        self.put_statement(context, statement, parameters.len(), columns.len(), out)?;
        self.put_group(context, parameters, out)?;
        self.put_group(context, columns, out)
    }

    /// Appends a statement packet with the counts of these lists, and each list as a group. After a
    /// refusal nothing has changed.
    pub(crate) fn put_prepared(
        &mut self,
        context: Context,
        statement: &StmtPacket,
        parameters: &[Column],
        columns: &[Column],
        out: &mut Vec<u8>,
    ) -> Result<(), ReplyRefusal>
        requires parameters { length parameters.now ≤ 65535 }
        requires columns { length columns.now ≤ 65535 }
        ensures ok { OnOk result
            (PutsPayloads self.old (prepared_payloads context (prepare_ok_view statement.now)
            (column_views parameters.now) (column_views columns.now)) self.new out.old.items out.new.items) }
        ensures fit { OnOk result (ColumnsFit (column_views parameters.now) × ColumnsFit (column_views columns.now)) }
        ensures err { IfErr result
            (RefusesPayload self.old (prepared_payloads context (prepare_ok_view statement.now)
            (column_views parameters.now) (column_views columns.now))) }
        ensures kept { OnErr result (out.new.items ≡ out.old.items) }
        ensures place { OnErr result (place_view self.new ≡ place_view self.old) }
        ensures limit { self.new.limit ≡ self.old.limit }
    {
        let start = out.len();
        let number = self.number;
        let payloads = self.payloads;
        let answer = self.put_prepared_packets(context, statement, parameters, columns, out);
        if answer.is_err() {
            out.truncate(start);
            self.number = number;
            self.payloads = payloads;
        }
        answer
    }
}
