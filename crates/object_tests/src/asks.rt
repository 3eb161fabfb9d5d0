//! What tests ask. An assertion, a `?` and an early return are dear to prove in a body that owns something, and calls of these functions are
//! not. So what owns something answers a plain value, and a test ends where there is no memory.
use std::process::Abort;

/// A row of a table.
pub trait Case {
    /// Whether what the row tells comes true.
    fn holds(&self, rt: &(impl Abort + AllocGlobal)) -> bool;
}

/// What each row tells has to come true.
pub fn all_hold<C: Case>(rt: &(impl Abort + AllocGlobal), cases: &[C]) {
    for (number, case) in cases.iter().enumerate() {
        assert!(rt; case.holds(rt), "row {number}");
    }
}

/// Something has to be so.
pub fn holds(rt: &impl Abort, is_so: bool, what: &str) {
    assert!(rt; is_so, "{what}");
}
