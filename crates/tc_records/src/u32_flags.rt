// The named bits of the flags of a u32 filter.

/// Selector flag: a packet that matches ends the search.
pub const TC_U32_TERMINAL: u8 = 0x01;
/// Selector flag: the fixed offset is added.
pub const TC_U32_OFFSET: u8 = 0x02;
/// Selector flag: the variable offset is added.
pub const TC_U32_VAROFFSET: u8 = 0x04;
/// Selector flag: the header is skipped for the filters that follow.
pub const TC_U32_EAT: u8 = 0x08;

/// Option flag: not to be put into hardware.
pub const TCA_CLS_FLAGS_SKIP_HW: u32 = 0x01;
/// Option flag: not to be used in software.
pub const TCA_CLS_FLAGS_SKIP_SW: u32 = 0x02;
/// Option flag: it is in hardware.
pub const TCA_CLS_FLAGS_IN_HW: u32 = 0x04;
/// Option flag: it is not in hardware.
pub const TCA_CLS_FLAGS_NOT_IN_HW: u32 = 0x08;
/// Option flag: errors are reported at length.
pub const TCA_CLS_FLAGS_VERBOSE: u32 = 0x10;
