// Lines go to a page of text.
ghost use Rattle.std.specs.Prelude.{◌+◌, ◌≤◌, OnOk};
ghost use Rattle.explanation.specs.Telling.{longest_lines};

use console::{Failed, Page};
use explanation::Explaining;

// Room on the page for the next lines.
fn make_room(rt: &impl Print, page: &mut Page) -> Result<(), Failed>
    ensures { OnOk result (page.new.used + longest_lines ≤ 65536) }
{
    page.make_room(rt, explanation::LONGEST_LINES)
}

// All lines of a field, or of a message of a control stream. The turns are counted as those of a trace.
pub fn print(
    rt: &impl Print,
    page: &mut Page,
    field: &[u8],
    mut e: Explaining,
) -> Result<(), Failed> {
    for _ in 0..u64::MAX {
        if e.is_over() {
            break;
        }
        make_room(rt, page)?;
        let told = e.next(&mut page.bytes, page.used, field);
        page.used = told.at;
        e = told.next;
    }
    Ok(())
}
