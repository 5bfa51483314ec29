// The join of servers' masked first entries: joins one server more into the rows so far, where they stand, and tells at which places the two are
// alike except for features.
ghost use Rattle.std.specs.Prelude.{◌≡◌, true, length, replicate};
ghost use Rattle.bits.specs.Choice.{pick};
ghost use Rattle.masking.specs.Kept.{places};
ghost use Rattle.finish.specs.Kinds.{Kinds};
ghost use Rattle.register_masks.specs.RegisterMasks.{masks_of};
ghost use Rattle.register_masks.specs.Join.{pooled_results};
ghost use Rattle.register_masks.specs.Alike.{registers_alike};
ghost use Rattle.pool.specs.Joins.{Joins, alike_where};

use masking::PLACES;
use memory::{REGISTERS, is_there, put_row, row_at};
use register_masks::{RowMasks, masks_at};
use x86defs::CpuidResult;

// The feature bits of two entries by and, all else as the first has it.
fn join_row(masks: RowMasks, a: CpuidResult, b: CpuidResult) -> CpuidResult
    ensures { (k : Kinds) → masks ≡ masks_of k → result ≡ pooled_results k a b }
{
    let features = masks.features;
    CpuidResult {
        eax: a.eax & (b.eax | !features.eax),
        ebx: a.ebx & (b.ebx | !features.ebx),
        ecx: a.ecx & (b.ecx | !features.ecx),
        edx: a.edx & (b.edx | !features.edx),
    }
}

// Whether two entries agree in the bits in which they must.
fn same_row(masks: RowMasks, a: CpuidResult, b: CpuidResult) -> bool
    ensures { (k : Kinds) → masks ≡ masks_of k → result ≡ registers_alike k a b }
{
    let agreed = masks.agreed;
    (a.eax & agreed.eax == b.eax & agreed.eax)
        & ((a.ebx & agreed.ebx == b.ebx & agreed.ebx)
            & ((a.ecx & agreed.ecx == b.ecx & agreed.ecx)
                & (a.edx & agreed.edx == b.edx & agreed.edx)))
}

// One server more, place by place: its registers are joined into those of the servers before it. `alike` has at which places these are like the
// first; gives where the further one is too.
pub fn with_server(
    registers: &mut [u32; REGISTERS],
    other: &[u32; REGISTERS],
    alike: [bool; PLACES],
) -> [bool; PLACES]
    requires { length registers.old ≡ 352 }
    ensures { Joins registers.old other.now alike registers.new result }
{
    let mut out = alike;
    for place in 0..PLACES {
        let masks = masks_at(place);
        let a = row_at(registers, place);
        let b = row_at(other, place);
        let before = alike[place];
        out[place] = before & same_row(masks, a, b);
        put_row(registers, place, join_row(masks, a, b));
    }
    out
}

// The flags of the first server, which is like itself at every place.
pub fn all_places() -> [bool; PLACES]
    ensures { result ≡ replicate places true }
{
    [true; PLACES]
}

// Whether a place is alike, where it is asked.
fn alike_where(asked: bool, alike: bool) -> bool
    ensures { result ≡ pick asked alike true }
{
    if asked {
        return alike;
    }
    true
}

// Whether every place that has a row is alike.
pub fn all_alike(origins: &[u64; PLACES], alike: [bool; PLACES]) -> bool
    ensures { result ≡ alike_where origins.now alike }
{
    origins
        .iter()
        .zip(alike.iter())
        .all(|(origin, alike)| alike_where(is_there(*origin), *alike))
}
