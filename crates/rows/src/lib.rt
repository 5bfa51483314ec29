// Turns the 88 rows in lent memory into the table, where they stand: checks them first, and leaves them as they were on a refusal.
#![tactic(auto)]

ghost use Rattle.std.specs.Prelude.{◌≡◌, ◌*◌, ◌-◌, ◌≤◌, length};
ghost use Rattle.masking.specs.Kept.{places};
ghost use Rattle.x86defs.specs.Functions.{cpuid_result, vendor_ebx, vendor_ecx, vendor_edx};
ghost use Rattle.memory.specs.Memory.{rows_in};
ghost use Rattle.table.specs.Table.{table_of};
ghost use Rattle.checks.specs.ExtendedState.{combined_mask};
ghost use Rattle.finish.specs.Finish.{finished};
ghost use Rattle.finish.specs.Stores.{Ready};
ghost use Rattle.finish.specs.RowsBuilt.{built_from};
ghost use Rattle.rows.specs.Finished.{Holds, empty_rows, empty_origins, Dropped, Tried};

use crate::checked::{Checked, check_rows};
use checks::FROM_2;
use finish::features::{
    Enabled, YmmClears, extended_features, extended_state_1, extended_version_and_features,
    update_extended_address_space_sizes, version_and_features,
};
use masking::{PLACES, place};
use memory::origins::{MADE_HERE, NONE};
use memory::{REGISTERS, is_there, put_row, row_at};
use table::Verdict;
use topology::{core_level, thread_level};
use x86defs::{CpuidResult, threads_per_compute_unit};

pub mod checked;

// Leaves 0 and 80000000h: the highest leaf of each range, and "AuthenticAMD".
const AMD_MAXIMUM: u32 = 0xD;

const EXTENDED_AMD_MAXIMUM: u32 = 0x8000001F;

const VENDOR_EBX: u32 = 0x68747541;

const VENDOR_ECX: u32 = 0x444D4163;

const VENDOR_EDX: u32 = 0x69746E65;

// The registers of a place without a row.
fn no_registers() -> CpuidResult
    ensures { result ≡ cpuid_result 0 0 0 0 }
{
    CpuidResult {
        eax: 0,
        ebx: 0,
        ecx: 0,
        edx: 0,
    }
}

// Leaves 0 and 80000000h.
fn vendor_and_max_function(max: u32) -> CpuidResult
    ensures { result ≡ cpuid_result max vendor_ebx vendor_ecx vendor_edx }
{
    CpuidResult {
        eax: max,
        ebx: VENDOR_EBX,
        ecx: VENDOR_ECX,
        edx: VENDOR_EDX,
    }
}

// D subleaves from 2 up stay where the mask has them; any other place becomes zeros. A row that stays is not stored again: what stands between two of
// them is dropped at once.
fn drop_subleaves(registers: &mut [u32; REGISTERS], origins: &mut [u64; PLACES], mask: u64)
    requires { (length registers.old ≡ 352) × (length origins.old ≡ 88) }
    ensures { Dropped registers.old origins.old mask registers.new origins.new }
{
    let mut k: usize = 2;
    let mut rest = mask & FROM_2;
    // kept as a while: the step is not one but the place of the next set bit
    while rest != 0 {
        let subleaf = u64::trailing_zeros(rest) as usize;
        let origin = origins[place::EXTENDED_STATE_0 + subleaf];
        if is_there(origin) {
            drop_run(registers, origins, k, subleaf);
            k = subleaf + 1;
        }
        rest = rest & (rest - 1);
    }
    drop_run(registers, origins, k, 64);
}

// The subleaves from one up to another become zeros, in one loop for each array: so the compiler makes each a call that fills memory.
fn drop_run(registers: &mut [u32; REGISTERS], origins: &mut [u64; PLACES], from: usize, to: usize)
    requires { (from ≤ to) × (to ≤ 64) × (length origins.old ≡ 88) }
    ensures { (registers.new ≡ empty_rows (to - from) from registers.old)
        × (origins.new ≡ empty_origins (to - from) from origins.old) }
{
    drop_origins(origins, from, to);
    drop_rows(registers, from, to);
}

fn drop_origins(origins: &mut [u64; PLACES], from: usize, to: usize)
    requires { (from ≤ to) × (to ≤ 64) × (length origins.old ≡ 88) }
    ensures { origins.new ≡ empty_origins (to - from) from origins.old }
{
    for k in from..to {
        origins[place::EXTENDED_STATE_0 + k] = NONE;
    }
}

fn drop_rows(registers: &mut [u32; REGISTERS], from: usize, to: usize)
    requires { (from ≤ to) × (to ≤ 64) }
    ensures { registers.new ≡ empty_rows (to - from) from registers.old }
{
    for k in from..to {
        put_row(registers, place::EXTENDED_STATE_0 + k, no_registers());
    }
}

// The table of rows that passed every check, from the edition of the AVX rule and what the checks worked out: the combined mask, the size of the save
// area and the number of processors. Subleaves are dropped first: rows that are read before would be put aside over the calls that fill memory.
pub fn finish(
    registers: &mut [u32; REGISTERS],
    origins: &mut [u64; PLACES],
    edition: u32,
    checked: Checked,
)
    requires { (checked.mask ≡ combined_mask (rows_in registers.old origins.old)) × Ready (rows_in registers.old origins.old) checked.size checked.processors }
    ensures { Holds (table_of (finished edition (rows_in registers.old origins.old))
        (combined_mask (rows_in registers.old origins.old))) origins.old registers.new origins.new }
{
    drop_subleaves(registers, origins, checked.mask);
    let y = YmmClears::of(edition);
    let subleaf0 = row_at(registers, place::EXTENDED_STATE_0);
    let subleaf1 = row_at(registers, place::EXTENDED_STATE_1);
    let sev = row_at(registers, place::EXTENDED_SEV_FEATURES);
    let e = Enabled::new(subleaf0, subleaf1, sev);
    let version = row_at(registers, place::VERSION_AND_FEATURES);
    let features = row_at(registers, place::EXTENDED_FEATURES);
    let extended_version = row_at(registers, place::EXTENDED_VERSION_AND_FEATURES);
    let sizes = row_at(registers, place::EXTENDED_ADDRESS_SPACE_SIZES);
    let topology = row_at(registers, place::PROCESSOR_TOPOLOGY_DEFINITION);
    origins[place::CORE_LEVEL] = MADE_HERE;
    origins[place::THREAD_LEVEL] = MADE_HERE;
    origins[place::EXTENDED_MAX_FUNCTION] = MADE_HERE;
    origins[place::VENDOR_AND_MAX_FUNCTION] = MADE_HERE;
    put_row(
        registers,
        place::VENDOR_AND_MAX_FUNCTION,
        vendor_and_max_function(AMD_MAXIMUM),
    );
    put_row(
        registers,
        place::VERSION_AND_FEATURES,
        version_and_features(y, e, version),
    );
    put_row(
        registers,
        place::EXTENDED_FEATURES,
        extended_features(y, e, features),
    );
    put_row(
        registers,
        place::THREAD_LEVEL,
        thread_level(threads_per_compute_unit(topology.ebx)),
    );
    put_row(registers, place::CORE_LEVEL, core_level(checked.processors));
    put_row(
        registers,
        place::EXTENDED_STATE_0,
        CpuidResult {
            ecx: checked.size,
            ..subleaf0
        },
    );
    put_row(
        registers,
        place::EXTENDED_STATE_1,
        extended_state_1(e, subleaf1),
    );
    put_row(
        registers,
        place::EXTENDED_MAX_FUNCTION,
        vendor_and_max_function(EXTENDED_AMD_MAXIMUM),
    );
    put_row(
        registers,
        place::EXTENDED_VERSION_AND_FEATURES,
        extended_version_and_features(y, e, extended_version),
    );
    put_row(
        registers,
        place::EXTENDED_ADDRESS_SPACE_SIZES,
        update_extended_address_space_sizes(sizes),
    );
}

// The checks, then the table: accepted with the table in memory, or refused with the memory as it was.
#[tactic(auto, using(crate::specs::AnsweredLaws::checked_stays, std::proofs::lemmas::Result::err_from_is_err_and))]
pub fn finish_rows(
    registers: &mut [u32; REGISTERS],
    origins: &mut [u64; PLACES],
    edition: u32,
) -> Verdict
    ensures { Tried (built_from edition (rows_in registers.old origins.old)) registers.old origins.old result
        registers.new origins.new }
{
    let checked = check_rows(registers, origins)?;
    finish(registers, origins, edition, checked);
    Ok(())
}
