// The bytes of a line of the report.
ghost use Rattle.std.specs.Prelude.{◌≡◌, ◌++◌, OnOk, codes, decimal};
ghost use Rattle.serve_reports.specs.Texts.{report_line};

use hmr_hub::ReportLine;
use play_text::put_line;
use std::alloc::AllocError;

/// Puts the bytes of a line of the report, with its LF, behind others: `steps N` for the length of the
/// transcript, `client C` before the page of a client, and else the line as `play` writes it. Where memory
/// runs out, a part of the bytes may stand there.
pub fn put_report_line(out: &mut Vec<u8>, line: &ReportLine) -> Result<(), AllocError>
    ensures { OnOk result (out.new.items ≡ out.old.items ++ report_line line.now) }
{
    match line {
        ReportLine::Steps(count) => put_counted(out, "steps ", *count as u64),
        ReportLine::Client(client) => put_counted(out, "client ", u64::from(*client)),
        ReportLine::Line(line) => put_line(out, line),
    }
}

// Puts a line of a word and a number.
fn put_counted(out: &mut Vec<u8>, word: &str, number: u64) -> Result<(), AllocError>
    ensures { OnOk result (out.new.items ≡ out.old.items ++ (word.now ++ decimal number ++ codes "\n")) }
{
    let mut buffer = itoa::Buffer::new();
    out.extend_from_slice(word.as_bytes())?;
    out.extend_from_slice(buffer.format(number).as_bytes())?;
    out.push(b'\n')?;
    Ok(())
}
