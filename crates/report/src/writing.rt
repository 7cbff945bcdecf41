// The text of a report, measured, and put at the front of what is lent.
ghost use Rattle.std.specs.Prelude.{◌≡◌, ◌≤◌, length};
ghost use Rattle.common.specs.Answer.{Leaves};
ghost use Rattle.common.specs.Buffer.{Put};
ghost use Rattle.ledger.specs.Ledgers.{most_rows, held};
ghost use Rattle.text.specs.Lines.{line_of, put_text, told_putting};
ghost use Rattle.replay.specs.Progressing.{finish_of};
ghost use Rattle.report.specs.Report.{rows_text, ledger_text, text_of, report_of};

use crate::lines::{columns_line, row_line, session_line};
use ledger::Ledger;
use replay::{Progress, Stage};
use row::Row;
use text::Line;

// The rows in use: no more than there are places.
fn rows(l: &Ledger) -> &[Row]
    ensures value { result.now ≡ held l.now }
    ensures few { length result.now ≤ most_rows }
{
    let rows: &[Row] = &l.rows;
    &rows[..l.used.min(rows.len())]
}

// ---- measuring

// How many bytes the lines of rows take.
fn measure_rows(rows: &[Row]) -> usize
    requires { length rows.now ≤ most_rows }
    ensures { result ≡ length (rows_text rows.now) }
{
    let mut sum = 0;
    for row in rows {
        sum += text::measure(&row_line(row));
    }
    sum
}

// The session, the columns, the rows.
fn measure_ledger(l: &Ledger) -> usize
    ensures { result ≡ length (ledger_text l.now) }
{
    let front = text::measure(&session_line(l.session, l.used as u64));
    front + text::measure(&columns_line()) + measure_rows(rows(l))
}

// ---- putting

// A line that fits.
fn put_line(out: &mut [u8], line: &Line) -> usize
    requires { length (line_of line.now) ≤ length out.old }
    ensures { Put (line_of line.now) out.old result out.new }
{
    text::put(out, line).unwrap_or(0)
}

// A line for each row.
fn put_rows(out: &mut [u8], rows: &[Row]) -> usize
    requires { length (rows_text rows.now) ≤ length out.old }
    ensures { Put (rows_text rows.now) out.old result out.new }
{
    let mut at = 0;
    for row in rows {
        at += put_line(&mut out[at..], &row_line(row));
    }
    at
}

// The session, the columns, the rows.
fn put_ledger(out: &mut [u8], l: &Ledger) -> usize
    requires { length (ledger_text l.now) ≤ length out.old }
    ensures { Put (ledger_text l.now) out.old result out.new }
{
    let front = put_line(out, &session_line(l.session, l.used as u64));
    let at = front + put_line(&mut out[front..], &columns_line());
    at + put_rows(&mut out[at..], rows(l))
}

// It is measured first, and only then put.
fn write_ledger(out: &mut [u8], l: &Ledger) -> Option<usize>
    ensures { Leaves (put_text (ledger_text l.now) out.old) (told_putting result) out.new }
{
    if out.len() < measure_ledger(l) {
        return None;
    }
    Some(put_ledger(out, l))
}

// The report of a trace that was fed, with left bytes after its last whole field; 7 where out is too short, and then
// nothing is written.
pub fn of_progress(p: Progress, left: usize, out: &mut [u8]) -> Option<usize>
    ensures { Leaves (put_text (text_of (finish_of p left)) out.old) (told_putting result)
        out.new }
{
    let ended = p.finish(left);
    match ended.stage {
        Stage::Empty => text::put(out, &text::fault_line(0)),
        Stage::Running => write_ledger(out, &ended.ledger),
        Stage::Faulty(at) => text::put(out, &text::fault_line(at)),
    }
}

// The report of a whole trace.
pub fn of_trace(s: &[u8], out: &mut [u8]) -> Option<usize>
    ensures { Leaves (put_text (report_of s.now) out.old) (told_putting result)
        out.new }
{
    let fed = replay::begin().feed(s);
    of_progress(fed.progress, s.len() - fed.used, out)
}
