// A running table carried from one edition of the AVX rule to another, for C and Rust: document 02, P8.
ghost use Rattle.std.specs.Prelude.{◌≡◌};
ghost use Rattle.carry.specs.CarryImage.{carry_image};
ghost use Rattle.answers.specs.CarriedAnswers.{carried_numbers};

use answers::carried_image::SnpCpuidCarried;

// Carries the table whose image the bytes are, in place.
pub fn snp_cpuid_carry(image: &mut [u8], from: u32, to: u32, xcr0: u64, xss: u64) -> SnpCpuidCarried
    ensures value { result ≡ carried_numbers (carry_image image.old from to xcr0 xss).answer }
    ensures image_after { image.new ≡ (carry_image image.old from to xcr0 xss).buffer }
{
    SnpCpuidCarried::from(carry::in_image::carry_image(image, from, to, xcr0, xss))
}
