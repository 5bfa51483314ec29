// The checks over the 88 rows in lent memory, which stay as they are: the first refusal, or what finishing needs.
ghost use Rattle.std.specs.Prelude.{◌≡◌};
ghost use Rattle.memory.specs.Memory.{rows_in};
ghost use Rattle.checks.specs.ExtendedState.{xfem, combined_mask, save_area};
ghost use Rattle.checks.specs.Checks.{topology_verdict};
ghost use Rattle.finish.specs.Stages.{from_invlpgb, from_components, from_area};
ghost use Rattle.rows.specs.Checked.{checked_by, checked_rows};

use checks::validate_invlpgb;
use masking::{PLACES, place};
use memory::{REGISTERS, combined_mask, row_at};
use table::{Refusal, Verdict};
use topology::extended_topology;
use x86defs::{apic_core_id_size, lps_per_package, mt_per_socket, nc, threads_per_compute_unit};

mod extended_state;
mod required;

pub use extended_state::{process_extended_state_subleaves, xsave_size};
pub use required::validate_required;

// What the checks work out of rows that pass them, for finishing: the combined mask, the size of the save area and the number of processors.
#[derive(Clone, Copy)]
pub struct Checked {
    pub mask: u64,
    pub size: u32,
    pub processors: u32,
}

// The checks in order, one function a check: the required leaves first.
pub fn check_rows(registers: &[u32; REGISTERS], origins: &[u64; PLACES]) -> Result<Checked, Refusal>
    ensures { result ≡ checked_rows (rows_in registers.now origins.now) }
{
    validate_required(origins)?;
    checks_from_invlpgb(registers, origins)
}

// From the check of INVLPGB on.
pub fn checks_from_invlpgb(
    registers: &[u32; REGISTERS],
    origins: &[u64; PLACES],
) -> Result<Checked, Refusal>
    ensures { result ≡ checked_by (from_invlpgb (rows_in registers.now origins.now)) (rows_in registers.now origins.now) }
{
    let sizes = row_at(registers, place::EXTENDED_ADDRESS_SPACE_SIZES);
    validate_invlpgb(sizes)?;
    checks_from_components(registers, origins)
}

// From the check of D subleaves on.
fn checks_from_components(
    registers: &[u32; REGISTERS],
    origins: &[u64; PLACES],
) -> Result<Checked, Refusal>
    ensures { result ≡ checked_by (from_components (rows_in registers.now origins.now)) (rows_in registers.now origins.now) }
{
    let mask = combined_mask(registers);
    process_extended_state_subleaves(origins, mask)?;
    checks_from_area(registers, origins, mask)
}

// From the size of the save area on, which is over XFEM alone.
fn checks_from_area(
    registers: &[u32; REGISTERS],
    origins: &[u64; PLACES],
    mask: u64,
) -> Result<Checked, Refusal>
    requires { mask ≡ combined_mask (rows_in registers.now origins.now) }
    ensures { result ≡ checked_by (from_area (rows_in registers.now origins.now)) (rows_in registers.now origins.now) }
{
    let subleaf0 = row_at(registers, place::EXTENDED_STATE_0);
    let size = xsave_size(registers, subleaf0.eax as u64).ok_or(Refusal::SaveAreaOverflow)?;
    check_topology(registers, origins, mask, size)
}

// The topology.
fn check_topology(
    registers: &[u32; REGISTERS],
    origins: &[u64; PLACES],
    mask: u64,
    size: u32,
) -> Result<Checked, Refusal>
    requires { (mask ≡ combined_mask (rows_in registers.now origins.now))
        × (size ≡ save_area (rows_in registers.now origins.now) (xfem (rows_in registers.now origins.now))) }
    ensures { result ≡ checked_by (topology_verdict (rows_in registers.now origins.now)) (rows_in registers.now origins.now) }
{
    let version = row_at(registers, place::VERSION_AND_FEATURES);
    let sizes = row_at(registers, place::EXTENDED_ADDRESS_SPACE_SIZES);
    let definition = row_at(registers, place::PROCESSOR_TOPOLOGY_DEFINITION);
    let processors = extended_topology(
        apic_core_id_size(sizes.ecx),
        nc(sizes.ecx),
        lps_per_package(version.ebx),
        mt_per_socket(version.edx),
        threads_per_compute_unit(definition.ebx),
    )?;
    Ok(Checked {
        mask,
        size,
        processors,
    })
}
