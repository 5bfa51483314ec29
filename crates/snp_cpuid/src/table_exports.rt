// Functions over a table that the caller keeps, for C and Rust: the table's memory, numbers and byte slices in, plain numbers out. The memory may
// hold anything.
ghost use Rattle.std.specs.Prelude.{◌≡◌, false};
ghost use Rattle.x86defs.specs.Functions.{function};
ghost use Rattle.memory.specs.Held.{held_in};
ghost use Rattle.build.specs.Build.{answer, TableIn};
ghost use Rattle.buffer.specs.Front.{write_front};
ghost use Rattle.lookup.specs.Lookup.{found};
ghost use Rattle.image.specs.Image.{image};
ghost use Rattle.image_read.specs.ReadImage.{read_image};
ghost use Rattle.image_read.specs.ReadIn.{ReadIn};
ghost use Rattle.kvm_export.specs.Export.{list_of};
ghost use Rattle.guest_state.specs.InUse.{read_rows, in_use};
ghost use Rattle.guest.specs.Guest.{guest_answer};
ghost use Rattle.guest.specs.Seen.{table_with, guest_found_in};
ghost use Rattle.carry.specs.Carry.{carry};
ghost use Rattle.carry.specs.CarriedInPlace.{CarriedIn};
ghost use Rattle.compare.specs.RowsCompared.{compared_tables};
ghost use Rattle.table.specs.Numbers.{numbers_of, subleaf_of};
ghost use Rattle.answers.specs.Answers.{choices_of, processor_of, counts_of, read_with, built_numbers, found_numbers, found_at, guest_found_numbers, state_numbers, written_numbers};
ghost use Rattle.answers.specs.ComparedAnswers.{tables_compared_numbers};
ghost use Rattle.snp_cpuid.specs.GuestExports.{guest_numbers, GuestIn};

use answers::comparison::SnpCpuidTablesCompared;
use answers::{
    SnpCpuidBuilt, SnpCpuidCounts, SnpCpuidFound, SnpCpuidGuestFound, SnpCpuidRead, SnpCpuidState,
    SnpCpuidWritten, built_table_numbers, found_at, processor, read_numbers, table_counts,
    table_numbers,
};
use build::build_into;
use compare::tables::compare_tables;
use guest::{find_kept, guest_find, guest_table};
use guest_state::state_in_use;
use masking::PLACES;
use memory::{REGISTERS, clear};
use table::numbers::AnswerNumbers;
use table::{Choices, subleaf_of};
use x86defs::CpuidFunction;

// Builds the table of the given pages into the caller's memory; a refusal leaves a table without rows.
pub fn snp_cpuid_table_build(
    pages: &[u8],
    secure_avic: bool,
    edition: u32,
    registers: &mut [u32; REGISTERS],
    origins: &mut [u64; PLACES],
) -> SnpCpuidBuilt
    ensures value { result ≡ built_numbers (answer (choices_of secure_avic edition) pages.now) }
    ensures table_in { TableIn (answer (choices_of secure_avic edition) pages.now) registers.new origins.new }
{
    let choices = Choices {
        secure_avic,
        edition,
    };
    clear(registers, origins);
    let verdict = build_into(pages, choices, registers, origins);
    built_table_numbers(verdict, registers)
}

// Reads a table's image into the caller's memory; bytes that are no image leave a table without rows.
pub fn snp_cpuid_table_read_image(
    image: &[u8],
    registers: &mut [u32; REGISTERS],
    origins: &mut [u64; PLACES],
) -> SnpCpuidRead
    ensures value { result ≡ read_with (read_image image.now).is_image (read_image image.now).table }
    ensures read_in { ReadIn image.now (read_image image.now).is_image registers.new origins.new }
{
    let is_image = image_read::read_image(image, registers, origins);
    read_numbers(is_image, registers, origins)
}

// Looks a row up as leaf_result_ref does, in a table of any content.
pub fn snp_cpuid_table_find(
    registers: &[u32; REGISTERS],
    origins: &[u64; PLACES],
    leaf: u32,
    has_subleaf: bool,
    subleaf: u32,
    enforce_subleaf: bool,
) -> SnpCpuidFound
    ensures { result ≡ found_at (held_in registers.now origins.now) origins.now leaf (subleaf_of has_subleaf subleaf) enforce_subleaf }
{
    let named = subleaf_of(has_subleaf, subleaf);
    found_at(registers, origins, leaf, named, enforce_subleaf)
}

// What the guest of a processor reads at a CPUID exit: the verdict on its state, then one row as it sees it.
pub fn snp_cpuid_table_guest_find(
    registers: &[u32; REGISTERS],
    origins: &[u64; PLACES],
    x2apic: u32,
    xcr0: u64,
    xss: u64,
    osxsave: bool,
    leaf: u32,
    has_subleaf: bool,
    subleaf: u32,
    enforce_subleaf: bool,
) -> SnpCpuidGuestFound
    ensures { result ≡ guest_found_numbers (guest_found_in (guest_answer (held_in registers.now origins.now) (processor_of x2apic xcr0 xss osxsave)) origins.now (function leaf) (subleaf_of has_subleaf subleaf) enforce_subleaf) }
{
    let v = processor(x2apic, xcr0, xss, osxsave);
    let named = subleaf_of(has_subleaf, subleaf);
    SnpCpuidGuestFound::from(guest_find(
        registers,
        origins,
        v,
        CpuidFunction(leaf),
        named,
        enforce_subleaf,
    ))
}

// Whether a table gives XCR0 and XSS, and the compacted size of the save area over them: what a caller keeps until either changes.
pub fn snp_cpuid_table_state(
    registers: &[u32; REGISTERS],
    origins: &[u64; PLACES],
    xcr0: u64,
    xss: u64,
) -> SnpCpuidState
    ensures { result ≡ state_numbers (in_use (read_rows false registers.now origins.now) xcr0 xss) }
{
    SnpCpuidState::from(state_in_use(registers, origins, false, xcr0, xss))
}

// What the guest of a processor reads where its state was accepted before: one row, with the compacted size that the caller kept.
pub fn snp_cpuid_table_guest_find_kept(
    registers: &[u32; REGISTERS],
    origins: &[u64; PLACES],
    x2apic: u32,
    xcr0: u64,
    xss: u64,
    osxsave: bool,
    size: u32,
    leaf: u32,
    has_subleaf: bool,
    subleaf: u32,
    enforce_subleaf: bool,
) -> SnpCpuidFound
    ensures { result ≡ found_numbers (found (table_with (held_in registers.now origins.now) (processor_of x2apic xcr0 xss osxsave) size) origins.now (function leaf) (subleaf_of has_subleaf subleaf) enforce_subleaf) }
{
    let v = processor(x2apic, xcr0, xss, osxsave);
    let named = subleaf_of(has_subleaf, subleaf);
    SnpCpuidFound::from(find_kept(
        registers,
        origins,
        v,
        size,
        CpuidFunction(leaf),
        named,
        enforce_subleaf,
    ))
}

// Makes a table what the guest of a processor sees; a refusal by 13 or 14 leaves a table without rows.
pub fn snp_cpuid_table_guest(
    registers: &mut [u32; REGISTERS],
    origins: &mut [u64; PLACES],
    x2apic: u32,
    xcr0: u64,
    xss: u64,
    osxsave: bool,
) -> SnpCpuidBuilt
    ensures value { result ≡ guest_numbers (guest_answer (held_in registers.old origins.old) (processor_of x2apic xcr0 xss osxsave)) }
    ensures guest_in { GuestIn (guest_answer (held_in registers.old origins.old) (processor_of x2apic xcr0 xss osxsave)) origins.old registers.new origins.new }
{
    let v = processor(x2apic, xcr0, xss, osxsave);
    let verdict = guest_table(registers, origins, v);
    table_numbers(verdict, registers, origins)
}

// Writes a table's image at the front of `out`.
pub fn snp_cpuid_table_write_image(
    registers: &[u32; REGISTERS],
    origins: &[u64; PLACES],
    out: &mut [u8],
) -> SnpCpuidWritten
    ensures value { result ≡ written_numbers (write_front (image (held_in registers.now origins.now)) out.old).answer }
    ensures out_after { out.new ≡ (write_front (image (held_in registers.now origins.now)) out.old).buffer }
{
    SnpCpuidWritten::from(image::write::write_table(registers, origins, out))
}

// Writes a table's struct kvm_cpuid2 at the front of `out`.
pub fn snp_cpuid_table_write_kvm(
    registers: &[u32; REGISTERS],
    origins: &[u64; PLACES],
    out: &mut [u8],
) -> SnpCpuidWritten
    ensures value { result ≡ written_numbers (write_front (list_of (held_in registers.now origins.now)) out.old).answer }
    ensures out_after { out.new ≡ (write_front (list_of (held_in registers.now origins.now)) out.old).buffer }
{
    SnpCpuidWritten::from(kvm_export::write_table(registers, origins, out))
}

// Takes a table from one edition of the AVX rule to another, in place: 0, or 13 to 16 and the table as it was. Origins are only read.
pub fn snp_cpuid_table_carry(
    registers: &mut [u32; REGISTERS],
    origins: &[u64; PLACES],
    from: u32,
    to: u32,
    xcr0: u64,
    xss: u64,
) -> u32
    ensures value { result ≡ (numbers_of (carry (held_in registers.old origins.now) from to xcr0 xss).verdict).number }
    ensures carried_in { CarriedIn (carry (held_in registers.old origins.now) from to xcr0 xss) (carry (held_in registers.old origins.now) from to xcr0 xss).verdict registers.old origins.now registers.new }
{
    let verdict = carry::carry(registers, origins, from, to, xcr0, xss);
    let numbers = AnswerNumbers::from(verdict);
    numbers.number as u32
}

// Whether the second table has at least the first: every row, its features, its save area, all else equal; or the first thing in the way.
pub fn snp_cpuid_table_compare(
    a_registers: &[u32; REGISTERS],
    a_origins: &[u64; PLACES],
    b_registers: &[u32; REGISTERS],
    b_origins: &[u64; PLACES],
) -> SnpCpuidTablesCompared
    ensures { result ≡ tables_compared_numbers (compared_tables (held_in a_registers.now a_origins.now) (held_in b_registers.now b_origins.now)) }
{
    SnpCpuidTablesCompared::from(compare_tables(a_registers, a_origins, b_registers, b_origins))
}

// How many rows a table has, and its combined mask.
pub fn snp_cpuid_table_counts(
    registers: &[u32; REGISTERS],
    origins: &[u64; PLACES],
) -> SnpCpuidCounts
    ensures { result ≡ counts_of (held_in registers.now origins.now) }
{
    table_counts(registers, origins)
}
