//! A reply, written result by result.

ghost use Rattle.std.specs.Prelude.{◌≡◌, ◌==◌, ◌∷◌, [], IfErr, OnErr, OnOk, is_some};
ghost use Rattle.mysql_ok_packets.specs.Views.{ok_packet_view};
ghost use Rattle.mysql_server_packets.specs.Views.{local_infile_view, prepare_ok_view, progress_report_view};
ghost use Rattle.mysql_server_packets.specs.Views.{server_error_view};
ghost use Rattle.mysql_reply_events.specs.Table as table;
ghost use Rattle.mysql_replies.specs.Manual.{is_prepare};
ghost use Rattle.mysql_replies.specs.Reply.{context_by};
ghost use Rattle.mysql_replies.specs.Views.{column_views};
ghost use Rattle.mysql_rows.specs.Views.{row_view, shared_columns};
ghost use Rattle.mysql_reply_writer.specs.Refusals.{count_cause, end_cause, error_number, first_cause, kind_cause};
ghost use Rattle.mysql_reply_writer.specs.Refusals.{over_cause, place_cause, rows_cause, status_cause, step_checks};
ghost use Rattle.mysql_reply_writer.specs.Written.{ColumnsStep, EndStep, ErrorStep, FileStep, OkStep, PreparedStep};
ghost use Rattle.mysql_reply_writer.specs.Written.{ReportStep, RowStep, UnwrittenStep};
ghost use Rattle.mysql_reply_writer.specs.Views.{cause_in};
ghost use Rattle.mysql_reply_writer.specs.Writer.{Refuses, Wrote, columns_of, fresh_writer};

use crate::facts::{error_fits, ok_fits, report_fits, statement_fits};
use crate::made::{
    end_room, error_packet, make_ok, make_terminator, report_packet, tells_progress,
};
use crate::packets::Packets;
use crate::refusal::ReplyRefusal;
use bitflags::Flags;
use mysql_columns::Column;
use mysql_const::{Capabilities, CapabilityFlags, MariadbCapabilities};
use mysql_ok_packets::{OkPacket, has_named_status};
use mysql_replies::{Context, ReplyKind};
use mysql_rows::Row;
use mysql_server_packets::{LocalInfilePacket, ProgressReport, ServerError, StmtPacket};
use std::alloc::Global;
use std::marker::Model;
use std::rc::RcSlice;

/// Rows that go on.
#[derive(Drop)]
pub(crate) struct OpenRows {
    pub(crate) columns: RcSlice<Column>,
    pub(crate) count: usize,
}

/// Writes a reply result by result, as they come.
///
/// It is for a reply that doesn't fit in memory, or whose rows are still being found. Each call
/// appends the packets of what it is given, or refuses it, and then neither the writer nor the
/// output has changed. What it holds is one packet. A reply that was written whole is one at whose
/// end [`ReplyWriter::finish`] has nothing to refuse.
///
///     let mut writer = ReplyWriter::new(alloc, ReplyKind::Text, capabilities, 1, limit);
///     writer.columns(&columns, &mut out)?;
///     while let Some(row) = next_row()? {
///         writer.row(&row, &mut out)?;
///     }
///     writer.end_rows(&ok, false, &mut out)?;
///     writer.finish()?;
///
/// MySQL: Client/Server Protocol, "COM_QUERY Response", "Text Resultset", "Binary Protocol Resultset" and
/// "COM_STMT_PREPARE Response".
#[derive(Drop)]
pub struct ReplyWriter {
    context: Context,
    packets: Packets,
    results: usize,
    rows: Option<OpenRows>,
    over: bool,
}

impl Model for ReplyWriter {
    ghost use Rattle.mysql_reply_writer.specs.Writer.{Writer};

    ghost Value = { Writer };

    ghost use Rattle.std.specs.Prelude.{◌≤◌, ◌+◌};
    ghost use Rattle.mysql_reply_writer.specs.Views.{payloads_in, rows_view};

    ghost view = { λ w. record {
      so_far = record {
        context = w.context;
        limit = w.packets.limit;
        payloads = w.packets.payloads;
        results = w.results;
        rows = rows_view w.rows;
        over = w.over;
      };
      number = w.packets.number;
    } };

    // Each result and each row has a payload.
    ghost invariant = { λ w. w.results + payloads_in w.rows ≤ w.packets.payloads };
}

impl ReplyWriter {
    /// A writer of the reply to a command of this kind, of which nothing is written yet.
    ///
    /// The reply's first chunk has the number `first_id`. A payload has at most `limit` bytes, as
    /// calls that read count them: without the headers of its chunks.
    pub fn new(
        alloc: Global,
        kind: ReplyKind,
        capabilities: CapabilityFlags,
        first_id: u8,
        limit: usize,
    ) -> ReplyWriter
        ensures { result ≡ fresh_writer (context_by kind capabilities) first_id limit }
    {
        let capabilities = Capabilities {
            protocol: capabilities,
            mariadb: MariadbCapabilities::empty(),
        };
        ReplyWriter {
            context: Context { kind, capabilities },
            packets: Packets::new(alloc, first_id, limit),
            results: 0,
            rows: None,
            over: false,
        }
    }

    // Refused where the last result is written.
    fn check_over(&self) -> Result<(), ReplyRefusal>
        ensures { cause_in result ≡ over_cause self.now.so_far }
    {
        if self.over {
            return Err(ReplyRefusal::AfterEnd(self.results));
        }
        Ok(())
    }

    // Refused where no result may begin.
    fn check_place(&self) -> Result<(), ReplyRefusal>
        ensures { cause_in result ≡ place_cause self.now.so_far }
    {
        self.check_over()?;
        if self.rows.is_some() {
            return Err(ReplyRefusal::NotEnded(self.results));
        }
        Ok(())
    }

    // Refused where no rows go on.
    fn check_rows(&self) -> Result<(), ReplyRefusal>
        ensures { cause_in result ≡ rows_cause self.now.so_far }
    {
        self.check_over()?;
        if self.rows.is_none() {
            return Err(ReplyRefusal::NotBegun(self.results));
        }
        Ok(())
    }

    // Whether the command is a prepare.
    fn is_prepare(&self) -> bool
        ensures { result ≡ is_prepare self.now.so_far.context.kind }
    {
        match self.context.kind {
            ReplyKind::Prepare => true,
            _ => false,
        }
    }

    // Whether the command has results one after another.
    fn has_results(&self) -> bool
        ensures { result ≡ table.has_results self.now.so_far.context.kind }
    {
        match self.context.kind {
            ReplyKind::Text | ReplyKind::Binary => true,
            _ => false,
        }
    }

    // Refused where the command has no such result.
    fn check_kind(&self, wrong: bool) -> Result<(), ReplyRefusal>
        ensures { cause_in result ≡ kind_cause self.now.so_far wrong }
    {
        if wrong {
            return Err(ReplyRefusal::WrongKind(self.results));
        }
        Ok(())
    }

    // Refused where a bit of the status has no name.
    fn check_status(&self, ok: &OkPacket<'_>) -> Result<(), ReplyRefusal>
        ensures { cause_in result ≡ status_cause self.now.so_far (ok_packet_view ok.now) }
    {
        if !has_named_status(ok.status_flags()) {
            return Err(ReplyRefusal::Status(self.results));
        }
        Ok(())
    }

    // Refused where a result has more than 65535 columns.
    fn check_count(&self, columns: &[Column]) -> Result<(), ReplyRefusal>
        ensures { cause_in result ≡ count_cause self.now.so_far (column_views columns.now) }
    {
        if columns.len() > 65535 {
            return Err(ReplyRefusal::TooManyColumns(self.results));
        }
        Ok(())
    }

    // Refused where no OK packet may be written.
    fn check_ok(&self, more: bool, ok: &OkPacket<'_>) -> Result<(), ReplyRefusal>
        ensures { cause_in result ≡ first_cause (step_checks self.now.so_far (OkStep more (ok_packet_view ok.now))) }
    {
        // For the proof alone: which step it is.
        let _more = more;
        self.check_place()?;
        self.check_kind(!self.has_results())?;
        self.check_status(ok)
    }

    // Refused where these columns may not begin rows.
    fn check_columns(&self, columns: &[Column]) -> Result<(), ReplyRefusal>
        ensures { cause_in result ≡
            first_cause (step_checks self.now.so_far (ColumnsStep (column_views columns.now))) }
    {
        self.check_place()?;
        self.check_kind(!self.has_results())?;
        if columns.is_empty() {
            return Err(ReplyRefusal::NoColumns(self.results));
        }
        self.check_count(columns)
    }

    // Refused where what ends rows may not be written.
    fn check_end(&self, more: bool, ok: &OkPacket<'_>) -> Result<(), ReplyRefusal>
        ensures { cause_in result ≡ first_cause (step_checks self.now.so_far (EndStep more (ok_packet_view ok.now))) }
    {
        // For the proof alone: which step it is.
        let _more = more;
        self.check_rows()?;
        self.check_status(ok)
    }

    // The number of the result that an error is.
    fn error_number(&self) -> usize
        ensures { result ≡ error_number self.now.so_far }
    {
        // For the proof alone: there are at least as many payloads.
        let _payloads = self.packets.payloads;
        match &self.rows {
            Some(_) => self.results + 1,
            None => self.results,
        }
    }

    // Refused where no error may be written.
    fn check_error(&self, error: &ServerError<'_>) -> Result<(), ReplyRefusal>
        ensures { cause_in result ≡
            first_cause (step_checks self.now.so_far (ErrorStep (server_error_view error.now))) }
    {
        self.check_over()?;
        if error.error_code() == 0xffff && tells_progress(self.context) {
            return Err(ReplyRefusal::ReadsAsReport(self.error_number()));
        }
        Ok(())
    }

    // Refused where no request for a file may be written.
    fn check_file(&self, file: &LocalInfilePacket<'_>) -> Result<(), ReplyRefusal>
        ensures { cause_in result ≡
            first_cause (step_checks self.now.so_far (FileStep (local_infile_view file.now))) }
    {
        // For the proof alone: which step it is.
        let _file = file;
        self.check_place()?;
        self.check_kind(!self.has_results())
    }

    // Refused where no prepared statement may be written.
    fn check_prepared(
        &self,
        statement: &StmtPacket,
        parameters: &[Column],
        columns: &[Column],
    ) -> Result<(), ReplyRefusal>
        ensures { cause_in result ≡
            first_cause (step_checks self.now.so_far
            (PreparedStep (prepare_ok_view statement.now) (column_views parameters.now)
            (column_views columns.now))) }
    {
        // For the proof alone: which step it is.
        let _statement = statement;
        self.check_place()?;
        self.check_kind(!self.is_prepare())?;
        self.check_count(parameters)?;
        self.check_count(columns)
    }

    // Refuses a result that is read alone.
    pub(crate) fn check_unwritten(&self) -> Result<(), ReplyRefusal>
        ensures { cause_in result ≡ first_cause (step_checks self.now.so_far UnwrittenStep) }
    {
        self.check_place()?;
        self.check_kind(true)
    }

    /// Writes an OK packet as a result, and whether another result follows it.
    ///
    /// Without one the reply ends here. Of the packet's status the writer sets or clears
    /// SERVER_MORE_RESULTS_EXISTS itself.
    ///
    /// # Errors
    /// - In this order `AfterEnd`, `NotEnded`, `WrongKind`, `Status`, `PacketTooLarge`, `Memory`.
    ///
    /// MySQL: Client/Server Protocol, "OK_Packet".
    pub fn ok(
        &mut self,
        ok: &OkPacket<'_>,
        more: bool,
        out: &mut Vec<u8>,
    ) -> Result<(), ReplyRefusal>
        ensures ok { OnOk result (Wrote self.old (OkStep more (ok_packet_view ok.now) ∷
            []) self.new out.old.items out.new.items) }
        ensures err { IfErr result (Refuses self.old (OkStep more (ok_packet_view ok.now) ∷ [])) }
        ensures kept { OnErr result (out.new.items ≡ out.old.items) }
        ensures stays { OnErr result (self.new ≡ self.old) }
    {
        self.check_ok(more, ok)?;
        ok_fits(ok);
        let capabilities = self.context.capabilities.protocol;
        make_ok(&mut self.packets.payload, capabilities, more, ok)?;
        let room = self.packets.limit;
        self.packets.put_made(room, out)?;
        self.results += 1;
        self.rows = None;
        self.over = !more;
        Ok(())
    }

    /// Writes what ends rows, and whether another result follows them.
    ///
    /// Without one the reply ends here. Of the packet's status the writer sets or clears
    /// SERVER_MORE_RESULTS_EXISTS itself. Where EOF packets are not deprecated only status and
    /// warnings are written.
    ///
    /// # Errors
    /// - In this order `AfterEnd`, `NotBegun`, `Status`, `PacketTooLarge`, `Memory`.
    ///
    /// MySQL: Client/Server Protocol, "Text Resultset", "OK_Packet" and "EOF_Packet".
    pub fn end_rows(
        &mut self,
        ok: &OkPacket<'_>,
        more: bool,
        out: &mut Vec<u8>,
    ) -> Result<(), ReplyRefusal>
        ensures ok { OnOk result (Wrote self.old (EndStep more (ok_packet_view ok.now) ∷
            []) self.new out.old.items out.new.items) }
        ensures err { IfErr result (Refuses self.old (EndStep more (ok_packet_view ok.now) ∷ [])) }
        ensures kept { OnErr result (out.new.items ≡ out.old.items) }
        ensures stays { OnErr result (self.new ≡ self.old) }
    {
        self.check_end(more, ok)?;
        ok_fits(ok);
        make_terminator(&mut self.packets.payload, self.context, more, ok)?;
        let room = end_room(self.context, self.packets.limit);
        self.packets.put_made(room, out)?;
        self.results += 1;
        self.rows = None;
        self.over = !more;
        Ok(())
    }

    /// Writes an error, as a result or as the end of rows. The reply ends here.
    ///
    /// # Errors
    /// - In this order `AfterEnd`, `ReadsAsReport`, `PacketTooLarge`, `Memory`.
    ///
    /// MySQL: Client/Server Protocol, "ERR_Packet".
    pub fn error(&mut self, error: &ServerError<'_>, out: &mut Vec<u8>) -> Result<(), ReplyRefusal>
        ensures ok { OnOk result (Wrote self.old (ErrorStep (server_error_view error.now) ∷
            []) self.new out.old.items out.new.items) }
        ensures err { IfErr result (Refuses self.old (ErrorStep (server_error_view error.now) ∷ [])) }
        ensures kept { OnErr result (out.new.items ≡ out.old.items) }
        ensures stays { OnErr result (self.new ≡ self.old) }
    {
        self.check_error(error)?;
        error_fits(error);
        let packet = error_packet(self.context.capabilities.protocol, error);
        let results = self.error_number();
        self.packets.put(&packet, out)?;
        self.results = results + 1;
        self.rows = None;
        self.over = true;
        Ok(())
    }

    /// Writes the request of a file. The reply ends here.
    ///
    /// # Errors
    /// - In this order `AfterEnd`, `NotEnded`, `WrongKind`, `PacketTooLarge`, `Memory`.
    ///
    /// MySQL: Client/Server Protocol, "LOCAL INFILE Request".
    pub fn file(
        &mut self,
        file: &LocalInfilePacket<'_>,
        out: &mut Vec<u8>,
    ) -> Result<(), ReplyRefusal>
        ensures ok { OnOk result (Wrote self.old (FileStep (local_infile_view file.now) ∷
            []) self.new out.old.items out.new.items) }
        ensures err { IfErr result (Refuses self.old (FileStep (local_infile_view file.now) ∷ [])) }
        ensures kept { OnErr result (out.new.items ≡ out.old.items) }
        ensures stays { OnErr result (self.new ≡ self.old) }
    {
        self.check_file(file)?;
        self.packets.put(file, out)?;
        self.results += 1;
        self.rows = None;
        self.over = true;
        Ok(())
    }

    /// Writes a progress report, which may come before any payload of a result.
    ///
    /// To a client that doesn't know progress reports, by the capability PROGRESS_OBSOLETE, nothing
    /// is written, nor in a reply of the kind `Line`.
    ///
    /// # Errors
    /// - In this order `AfterEnd`, `PacketTooLarge`, `Memory`.
    ///
    /// MariaDB: 'Progress report' of "ERR_Packet".
    pub fn report(
        &mut self,
        report: &ProgressReport<'_>,
        out: &mut Vec<u8>,
    ) -> Result<(), ReplyRefusal>
        ensures ok { OnOk result (Wrote self.old (ReportStep (progress_report_view report.now) ∷
            []) self.new out.old.items out.new.items) }
        ensures err { IfErr result (Refuses self.old (ReportStep (progress_report_view report.now) ∷ [])) }
        ensures kept { OnErr result (out.new.items ≡ out.old.items) }
        ensures stays { OnErr result (self.new ≡ self.old) }
    {
        self.check_over()?;
        report_fits(report);
        if !tells_progress(self.context) {
            return Ok(());
        }
        let packet = report_packet(report);
        self.packets.put(&packet, out)
    }

    /// Begins rows under these columns, which the writer shares until the rows end.
    ///
    /// # Errors
    /// - In this order `AfterEnd`, `NotEnded`, `WrongKind`, `NoColumns`, `TooManyColumns`, `PacketTooLarge`, `Memory`.
    ///
    /// MySQL: Client/Server Protocol, "Text Resultset", "Column Definition".
    pub fn columns(
        &mut self,
        columns: &RcSlice<Column>,
        out: &mut Vec<u8>,
    ) -> Result<(), ReplyRefusal>
        ensures ok { OnOk result (Wrote self.old (ColumnsStep (shared_columns columns.now) ∷
            []) self.new out.old.items out.new.items) }
        ensures err { IfErr result (Refuses self.old (ColumnsStep (shared_columns columns.now) ∷ [])) }
        ensures kept { OnErr result (out.new.items ≡ out.old.items) }
        ensures stays { OnErr result (self.new ≡ self.old) }
    {
        self.check_columns(columns.as_slice())?;
        let share = columns.clone()?;
        self.packets
            .put_head(self.context, columns.as_slice(), out)?;
        self.rows = Some(OpenRows {
            columns: share,
            count: 0,
        });
        Ok(())
    }

    /// Writes a row under the columns that the rows began with, also where it has others itself.
    ///
    /// # Errors
    /// - In this order `AfterEnd`, `NotBegun`, `CellCount`, `NoForm`, `PacketTooLarge`, `Memory`.
    ///
    /// MySQL: Client/Server Protocol, "Text Resultset Row" and "Binary Protocol Resultset Row".
    pub fn row(&mut self, row: &Row, out: &mut Vec<u8>) -> Result<(), ReplyRefusal>
        ensures ok { OnOk result (Wrote self.old
            (RowStep (columns_of self.old.so_far.rows) (row_view row.now) ∷
            []) self.new out.old.items out.new.items) }
        ensures err { IfErr result
            (Refuses self.old (RowStep (columns_of self.old.so_far.rows) (row_view row.now) ∷ [])) }
        ensures kept { OnErr result (out.new.items ≡ out.old.items) }
        ensures stays { OnErr result (self.new ≡ self.old) }
    {
        self.check_rows()?;
        let binary = self.context.kind.has_binary_rows();
        let results = self.results;
        let Some(rows) = &mut self.rows else {
            unreachable!()
        };
        self.packets.put_row(binary, results, rows, row, out)?;
        rows.count += 1;
        Ok(())
    }

    /// Writes a prepared statement with its parameters and its columns. The reply ends here.
    ///
    /// The counts of these lists are written in place of those that the packet has.
    ///
    /// # Errors
    /// - In this order `AfterEnd`, `NotEnded`, `WrongKind`, `TooManyColumns`, `PacketTooLarge`, `Memory`.
    ///
    /// MySQL: Client/Server Protocol, "COM_STMT_PREPARE Response".
    pub fn prepared(
        &mut self,
        statement: &StmtPacket,
        parameters: &[Column],
        columns: &[Column],
        out: &mut Vec<u8>,
    ) -> Result<(), ReplyRefusal>
        ensures ok { OnOk result (Wrote self.old
            (PreparedStep (prepare_ok_view statement.now) (column_views parameters.now)
            (column_views columns.now) ∷ []) self.new out.old.items out.new.items) }
        ensures err { IfErr result
            (Refuses self.old (PreparedStep (prepare_ok_view statement.now)
            (column_views parameters.now) (column_views columns.now) ∷ [])) }
        ensures kept { OnErr result (out.new.items ≡ out.old.items) }
        ensures stays { OnErr result (self.new ≡ self.old) }
    {
        self.check_prepared(statement, parameters, columns)?;
        statement_fits(statement);
        self.packets
            .put_prepared(self.context, statement, parameters, columns, out)?;
        self.results += 1;
        self.rows = None;
        self.over = true;
        Ok(())
    }

    /// Whether the last result is written: nothing follows it.
    pub fn is_over(&self) -> bool
        ensures { result ≡ self.now.so_far.over }
    {
        self.over
    }

    /// Ends the writing.
    ///
    /// # Errors
    /// - `NoResults` where nothing but progress reports was written;
    /// - `NotEnded` with the number of a result whose rows go on, or that was said to follow.
    pub fn finish(&self) -> Result<(), ReplyRefusal>
        ensures { cause_in result ≡ end_cause self.now.so_far }
    {
        if self.over {
            return Ok(());
        }
        if self.results == 0 && self.rows.is_none() {
            return Err(ReplyRefusal::NoResults);
        }
        Err(ReplyRefusal::NotEnded(self.results))
    }
}
