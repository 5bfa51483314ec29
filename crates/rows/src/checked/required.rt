// The required leaves: the first one without a row, or nothing.
ghost use Rattle.std.specs.Prelude.{◌≡◌, ◌<◌};
ghost use Rattle.masking.specs.Kept.{places};
ghost use Rattle.checks.specs.Checks.{required_verdict};
ghost use Rattle.checks.specs.ScanLaws.{missing_at};
ghost use Rattle.rows.specs.Checked.{present_in};

use masking::{PLACES, place};
use memory::is_there;
use table::{Refusal, Verdict, subleaf_of};

// The places of COMMON_REQUIRED_LEAVES of mod.rs, then of SNP_REQUIRED_LEAVES of snp.rs. As bytes, because the table is written out anew
// by each call.
const REQUIRED_PLACES: [u8; 24] = [
    place::VERSION_AND_FEATURES as u8,
    place::MONITOR_MWAIT as u8,
    place::EXTENDED_FEATURES as u8,
    place::THREAD_LEVEL as u8,
    place::CORE_LEVEL as u8,
    place::EXTENDED_VERSION_AND_FEATURES as u8,
    place::EXTENDED_L1_CACHE_PARAMETERS as u8,
    place::EXTENDED_L2_CACHE_PARAMETERS as u8,
    place::EXTENDED_POWER_MANAGEMENT as u8,
    place::EXTENDED_ADDRESS_SPACE_SIZES as u8,
    place::EXTENDED_BRANDING_STRING_1 as u8,
    place::EXTENDED_BRANDING_STRING_2 as u8,
    place::EXTENDED_BRANDING_STRING_3 as u8,
    place::EXTENDED_STATE_0 as u8,
    place::EXTENDED_STATE_1 as u8,
    place::EXTENDED_SEV_FEATURES as u8,
    place::EXTENDED_SVM_VERSION_AND_FEATURES as u8,
    place::EXTENDED_TLB1GB_IDENTIFIERS as u8,
    place::EXTENDED_OPTIMIZATION_IDENTIFIERS as u8,
    place::CACHE_TOPOLOGY_0 as u8,
    place::CACHE_TOPOLOGY_0 as u8 + 1,
    place::CACHE_TOPOLOGY_0 as u8 + 2,
    place::CACHE_TOPOLOGY_0 as u8 + 3,
    place::PROCESSOR_TOPOLOGY_DEFINITION as u8,
];

// The refusal of a table without a row at a place.
fn missing_at(place: usize) -> Verdict
    requires { place < places }
    ensures { result ≡ Err (missing_at place) }
{
    let subleaf = subleaf_of(masking::indexed_at(place), masking::subleaf_at(place));
    Err(Refusal::MissingRequiredResult(masking::leaf_at(place), subleaf))
}

// The first required leaf, in list order, that has no row.
pub fn validate_required(origins: &[u64; PLACES]) -> Verdict
    ensures { result ≡ required_verdict (present_in origins.now) }
{
    for required in REQUIRED_PLACES {
        let place = required as usize;
        if !is_there(origins[place]) {
            return missing_at(place);
        }
    }
    Ok(())
}
