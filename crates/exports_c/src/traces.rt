// Traces: the text of a whole trace at the front of `out`, and into `info` its length.
ghost use Rattle.rewrite.specs.Rewriting.{Does};
ghost use Rattle.report.specs.Report.{report_of};
ghost use Rattle.answers.specs.Answers.{answers_of};
ghost use Rattle.exports.specs.Texts.{text_put};

// The report.
#[unsafe(no_mangle)]
pub extern "C" fn moq_report(trace: &[u8], out: &mut [u8], info: &mut [u64]) -> u64
    ensures { Does (text_put (report_of trace.now) out.old info.old) result
        out.new info.new }
{
    exports::traces::moq_report(trace, out, info)
}

// What each field was answered.
#[unsafe(no_mangle)]
pub extern "C" fn moq_answers(trace: &[u8], out: &mut [u8], info: &mut [u64]) -> u64
    ensures { Does (text_put (answers_of trace.now) out.old info.old) result
        out.new info.new }
{
    exports::traces::moq_answers(trace, out, info)
}
