// How deep an object can be owned (document 01, "The table"). The type and the limit change together.
pub type Depth = u16;

// An enter at this depth is 19.
pub const DEPTH_LIMIT: Depth = 65535;
