// The nearest bit that matters, for C and Rust.
ghost use Rattle.std.specs.Prelude.{◌≡◌};
ghost use Rattle.nearest.specs.Nearest.{nearest};
ghost use Rattle.answers.specs.Answers.{choices_of};
ghost use Rattle.answers.specs.NearestAnswers.{nearest_numbers};

use answers::nearest_bit::SnpCpuidNearest;

// The first result bit whose flip changes the answer of building.
#[unsafe(no_mangle)]
pub extern "C" fn snp_cpuid_nearest(
    pages: &[u8],
    secure_avic: bool,
    edition: u32,
) -> SnpCpuidNearest
    ensures { result ≡ nearest_numbers (nearest (choices_of secure_avic edition) pages.now) }
{
    snp_cpuid::nearest_exports::snp_cpuid_nearest(pages, secure_avic, edition)
}
