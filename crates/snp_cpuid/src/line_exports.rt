// Refusals as lines, for C and Rust: numbers and byte slices in, plain numbers out. include/snp_cpuid.h documents each call.
ghost use Rattle.std.specs.Prelude.{◌≡◌};
ghost use Rattle.lines.specs.WriteLine.{write_line};
ghost use Rattle.lines.specs.ReadLine.{read_line};
ghost use Rattle.answers.specs.LineAnswers.{details_given, line_written_numbers, line_read_numbers};

use answers::line::{SnpCpuidLineRead, SnpCpuidLineWritten};
use lines::bytes::LineDetails;
use table::subleaf_of;

// Writes the line of a refusal at the front of `out`.
pub fn snp_cpuid_write_line(
    number: u32,
    leaf: u32,
    has_subleaf: bool,
    subleaf: u32,
    s: u32,
    out: &mut [u8],
) -> SnpCpuidLineWritten
    ensures value { result ≡ line_written_numbers (write_line (details_given number leaf has_subleaf subleaf s) out.old).answer }
    ensures out_after { out.new ≡ (write_line (details_given number leaf has_subleaf subleaf s) out.old).buffer }
{
    let named = subleaf_of(has_subleaf, subleaf);
    let d = LineDetails {
        number,
        leaf,
        subleaf: named,
        s,
    };
    SnpCpuidLineWritten::from(lines::write_line(d, out))
}

// The refusal whose line the bytes are, the whole of them.
pub fn snp_cpuid_read_line(line: &[u8]) -> SnpCpuidLineRead
    ensures { result ≡ line_read_numbers (read_line line.now) }
{
    SnpCpuidLineRead::from(lines::read_line(line))
}
