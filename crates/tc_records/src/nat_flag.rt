// The named bits of the flags of an address translation.

/// Translates the source address on the way out.
pub const TCA_NAT_FLAG_EGRESS: u32 = 0x000001;
/// The action polices.
pub const TCA_ACT_FLAGS_POLICE: u32 = 0x010000;
/// The action is bound to a filter.
pub const TCA_ACT_FLAGS_BIND: u32 = 0x020000;
/// The action replaces one that is there.
pub const TCA_ACT_FLAGS_REPLACE: u32 = 0x040000;
/// The action works without the routing lock.
pub const TCA_ACT_FLAGS_NO_RTNL: u32 = 0x080000;
/// The action stands at ingress.
pub const TCA_ACT_FLAGS_AT_INGRESS: u32 = 0x100000;
