// The fields of a double's bit pattern: the sign on top, 11 bits of the exponent, and 52 digits below them.

// The lowest bit of the exponent's field, and the leading digit of a normal number, which its pattern leaves out.
pub const FIELD_ONE: u64 = 1 << 52;

// The sign.
pub const SIGN_BIT: u64 = 1 << 63;
