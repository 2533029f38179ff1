// Result codes (document 01, "Codes a desk clerk sees"): a refusal is a negative number.
pub const E_OK: i32 = 0;

pub const E_SYS: i32 = -5;

pub const E_RSATR: i32 = -11;

pub const E_PAR: i32 = -17;

pub const E_ID: i32 = -18;

pub const E_CTX: i32 = -25;

pub const E_MACV: i32 = -26;

pub const E_OACV: i32 = -27;

pub const E_ILUSE: i32 = -28;

pub const E_NOMEM: i32 = -33;

pub const E_NOID: i32 = -34;

pub const E_OBJ: i32 = -41;

pub const E_NOEXS: i32 = -42;

pub const E_QOVR: i32 = -43;

pub const E_TMOUT: i32 = -50;
