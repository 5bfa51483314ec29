// Every topology that building accepts up to size seven, for C and Rust: document 02, P14.
ghost use Rattle.std.specs.Prelude.{◌≡◌};
ghost use Rattle.topologies.specs.Topologies.{write_topologies};
ghost use Rattle.answers.specs.Answers.{written_numbers};

use answers::SnpCpuidWritten;

// Writes all accepted inputs at the front of `out`, five bytes each.
pub fn snp_cpuid_write_topologies(out: &mut [u8]) -> SnpCpuidWritten
    ensures value { result ≡ written_numbers (write_topologies out.old).answer }
    ensures out_after { out.new ≡ (write_topologies out.old).buffer }
{
    SnpCpuidWritten::from(topologies::write_topologies(out))
}
