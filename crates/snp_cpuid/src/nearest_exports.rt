// The nearest bit that matters, for C and Rust: document 02, P13.
ghost use Rattle.std.specs.Prelude.{◌≡◌};
ghost use Rattle.nearest.specs.Nearest.{nearest};
ghost use Rattle.answers.specs.Answers.{choices_of};
ghost use Rattle.answers.specs.NearestAnswers.{nearest_numbers};

use answers::nearest_bit::SnpCpuidNearest;
use table::Choices;

// The first result bit whose flip changes the answer of building.
pub fn snp_cpuid_nearest(pages: &[u8], secure_avic: bool, edition: u32) -> SnpCpuidNearest
    ensures { result ≡ nearest_numbers (nearest (choices_of secure_avic edition) pages.now) }
{
    let choices = Choices {
        secure_avic,
        edition,
    };
    SnpCpuidNearest::from(nearest::nearest_bit(pages, choices))
}
