//! Clients as texts.

/// Two clients of the buffer: one puts, and the other gets.
pub const TWO: &[u8] = b"client A { put(); put(); } client B { get(); get(); }";

/// Two clients of the lock.
pub const TWO_LOCKS: &[u8] =
    b"client A { acquire(); release(); } client B { acquire(); release(); }";

/// Three clients of the gate: two wait at it, and the third opens it.
pub const TWO_TAKE: &[u8] = b"client A { take(); } client B { take(); } client C { fire(); }";

/// Two clients that pair.
pub const TWO_PAIRS: &[u8] = b"client A { pair(); } client B { pair(); }";
