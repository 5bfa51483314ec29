// Leaf numbers under the names of x86defs. They are numbers, so that a `match` can name them; a leaf is `CpuidFunction(leaf::NAME)`.
// specs/Functions.antt has each; `masking::masks::kept_leaves` and `masking::place_of` are proved over both.
pub const VENDOR_AND_MAX_FUNCTION: u32 = 0x0;

pub const VERSION_AND_FEATURES: u32 = 0x1;

pub const MONITOR_MWAIT: u32 = 0x5;

pub const EXTENDED_FEATURES: u32 = 0x7;

pub const EXTENDED_TOPOLOGY_ENUMERATION: u32 = 0xB;

pub const EXTENDED_STATE_ENUMERATION: u32 = 0xD;

pub const EXTENDED_MAX_FUNCTION: u32 = 0x8000_0000;

pub const EXTENDED_VERSION_AND_FEATURES: u32 = 0x8000_0001;

pub const EXTENDED_BRANDING_STRING_1: u32 = 0x8000_0002;

pub const EXTENDED_BRANDING_STRING_2: u32 = 0x8000_0003;

pub const EXTENDED_BRANDING_STRING_3: u32 = 0x8000_0004;

pub const EXTENDED_L1_CACHE_PARAMETERS: u32 = 0x8000_0005;

pub const EXTENDED_L2_CACHE_PARAMETERS: u32 = 0x8000_0006;

pub const EXTENDED_POWER_MANAGEMENT: u32 = 0x8000_0007;

pub const EXTENDED_ADDRESS_SPACE_SIZES: u32 = 0x8000_0008;

pub const EXTENDED_SVM_VERSION_AND_FEATURES: u32 = 0x8000_000A;

pub const EXTENDED_TLB1GB_IDENTIFIERS: u32 = 0x8000_0019;

pub const EXTENDED_OPTIMIZATION_IDENTIFIERS: u32 = 0x8000_001A;

pub const CACHE_TOPOLOGY_DEFINITION: u32 = 0x8000_001D;

pub const PROCESSOR_TOPOLOGY_DEFINITION: u32 = 0x8000_001E;

pub const EXTENDED_SEV_FEATURES: u32 = 0x8000_001F;
