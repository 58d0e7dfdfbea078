//! A report, read from its lines.
ghost use Rattle.std.specs.Prelude.{◌≡◌, ◌≢◌, ◌+◌, ◌-◌, ◌^◌, ◌<◌, ◌≤◌, [], All, drop, length, map, slice_get, IfOk, IfErr, OnOk, Ok, Err, None, Some};
ghost use Rattle.text_terms.specs.Lines.{lines_of};
ghost use Rattle.edt_text.specs.LineCursor.{lines_left, lines_passed};
ghost use Rattle.cover_certificate.specs.Blocks.{IsValidBlock, block_value};
ghost use Rattle.check_top.specs.ReportLines as report_lines;
ghost use Rattle.check_top.specs.Reports.{cause_of_block, certificate_of, passed_over, report_of, section_of};
ghost use Rattle.check_top.specs.Inside.Cursors.{section_at};

use crate::report::fault::{ReportCause, ReportFault};
use crate::report::line_causes::{begins_certificate, event_cause, head_cause};
use cover_certificate::{Block, BlockCause, BlockFault, read_block};
use edt_text::Lines;
use std::alloc::Global;

// The blocks of a report on so many events, one for each in order, or its first faulty line with its first cause.
pub fn read_report(alloc: Global, bytes: &[u8], events: u32) -> Result<Vec<Block>, ReportFault>
    requires { length bytes.now < 2 ^ 32 - 1 }
    ensures value { IfOk result (λ blocks. report_of events (lines_of bytes.now) ≡ Ok (map block_value blocks.items)) }
    ensures one_each { IfOk result (λ blocks. length blocks.items ≡ events) }
    ensures valid { IfOk result (λ blocks. All (λ block. IsValidBlock (block_value block)) blocks.items) }
    ensures fault { IfErr result (λ fault. fault.cause ≢ ReportCause.Memory
        → report_of events (lines_of bytes.now) ≡ Err fault) }
{
    let mut lines = Lines::new(bytes);
    pass_head(&mut lines, events)?;
    let mut blocks = Vec::with_capacity(alloc, events as usize)?;
    for number in 0..events {
        let block = read_section(alloc, &mut lines, number + 1)?;
        blocks.push(block)?;
    }
    pass_end(&mut lines)?;
    Ok(blocks)
}

// Passes the first line of a report.
fn pass_head(lines: &mut Lines, events: u32) -> Result<(), ReportFault>
    ensures left { OnOk result (lines_left lines.new ≡ drop 1 (lines_left lines.old)) }
    ensures passed { OnOk result (lines_passed lines.new ≡ lines_passed lines.old + 1) }
    ensures good { OnOk result (report_lines.head_cause events (slice_get (lines_left lines.old) 0) ≡ None) }
    ensures line { IfErr result (λ fault. fault.line ≡ lines_passed lines.old + 1) }
    ensures fault { IfErr result (λ fault.
        report_lines.head_cause events (slice_get (lines_left lines.old) 0) ≡ Some fault.cause) }
{
    let number = lines.passed() + 1;
    let cause = match lines.next() {
        Some(line) => head_cause(events, &line),
        None => Some(ReportCause::Form),
    };
    passes(number, cause)
}

// Passes the first line of the event of a number.
fn pass_event(lines: &mut Lines, event: u32) -> Result<(), ReportFault>
    ensures left { OnOk result (lines_left lines.new ≡ drop 1 (lines_left lines.old)) }
    ensures passed { OnOk result (lines_passed lines.new ≡ lines_passed lines.old + 1) }
    ensures good { OnOk result (report_lines.event_cause event (slice_get (lines_left lines.old) 0) ≡ None) }
    ensures line { IfErr result (λ fault. fault.line ≡ lines_passed lines.old + 1) }
    ensures fault { IfErr result (λ fault.
        report_lines.event_cause event (slice_get (lines_left lines.old) 0) ≡ Some fault.cause) }
{
    let number = lines.passed() + 1;
    let cause = match lines.next() {
        Some(line) => event_cause(event, &line),
        None => Some(ReportCause::Form),
    };
    passes(number, cause)
}

// Nothing, where the line of a number has no cause.
fn passes(line: u32, cause: Option<ReportCause>) -> Result<(), ReportFault>
    ensures good { OnOk result (cause ≡ None) }
    ensures line { IfErr result (λ fault. fault.line ≡ line) }
    ensures fault { IfErr result (λ fault. cause ≡ Some fault.cause) }
{
    match cause {
        None => Ok(()),
        Some(cause) => Err(ReportFault { line, cause }),
    }
}

// Passes the lines before the first that begins a certificate.
fn pass_to_certificate(lines: &mut Lines)
    ensures left { lines_left lines.new ≡ drop (passed_over (lines_left lines.old)) (lines_left lines.old) }
    ensures passed { lines_passed lines.new ≡ lines_passed lines.old + passed_over (lines_left lines.old) }
{
    let mut ahead = *lines;
    while let Some(line) = ahead.next() {
        if begins_certificate(&line) {
            return;
        }
        *lines = ahead;
    }
}

// Reads the section of the event of a number: its first line, the lines up to its certificate, and the certificate.
fn read_section(alloc: Global, lines: &mut Lines, event: u32) -> Result<Block, ReportFault>
    ensures value { IfOk result (λ block. section_of (lines_passed lines.old) event (lines_left lines.old)
        ≡ Ok (section_at (block_value block) lines.new)) }
    ensures valid { IfOk result (λ block. IsValidBlock (block_value block)) }
    ensures fault { IfErr result (λ fault. fault.cause ≢ ReportCause.Memory
        → section_of (lines_passed lines.old) event (lines_left lines.old) ≡ Err fault) }
{
    pass_event(lines, event)?;
    pass_to_certificate(lines);
    read_certificate(alloc, lines)
}

// Reads the certificate that is next.
fn read_certificate(alloc: Global, lines: &mut Lines) -> Result<Block, ReportFault>
    ensures value { IfOk result (λ block. certificate_of (lines_passed lines.old) (lines_left lines.old)
        ≡ Ok (section_at (block_value block) lines.new)) }
    ensures valid { IfOk result (λ block. IsValidBlock (block_value block)) }
    ensures fault { IfErr result (λ fault. fault.cause ≢ ReportCause.Memory
        → certificate_of (lines_passed lines.old) (lines_left lines.old) ≡ Err fault) }
{
    match read_block(alloc, lines) {
        Ok(block) => Ok(block),
        Err(fault) => Err(fault_of_block(fault)),
    }
}

// A fault of a certificate as one of the report.
fn fault_of_block(fault: BlockFault) -> ReportFault
    ensures line { result.line ≡ fault.line }
    ensures cause { result.cause ≡ cause_of_block fault.cause }
{
    let cause = match fault.cause {
        BlockCause::Form => ReportCause::Form,
        BlockCause::Number => ReportCause::Number,
        BlockCause::Limit => ReportCause::Limit,
        BlockCause::Memory => ReportCause::Memory,
    };
    ReportFault {
        line: fault.line,
        cause,
    }
}

// Passes the end of a report, after which no line follows.
fn pass_end(lines: &mut Lines) -> Result<(), ReportFault>
    ensures none { OnOk result (lines_left lines.old ≡ []) }
    ensures fault { IfErr result (λ fault. (fault.line ≡ lines_passed lines.old + 1)
        × (fault.cause ≡ ReportCause.Form) × (lines_left lines.old ≢ [])) }
{
    match lines.next() {
        None => Ok(()),
        Some(line) => Err(ReportFault {
            line: line.number,
            cause: ReportCause::Form,
        }),
    }
}
