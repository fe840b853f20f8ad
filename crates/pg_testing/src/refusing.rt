//! An allocator that refuses requests for memory by a rule.

use crate::ledger::{Ledger, Rule};
use std::alloc::{AllocError, Allocator};
use std::cell::Cell;

/// An allocator over another one that refuses requests for memory by a rule.
///
/// A request is one call of `allocate`. A `Vec` or a `String` makes one each time that it grows,
/// and none while it has room; a `Box` makes one. Freeing memory is no request. Requests are
/// numbered from 0.
///
/// It is lent: a `&Refusing` is itself an allocator and `Copy`, as in `String::new(&memory)`. The
/// requests of all that is made with one `&memory` are counted together.
///
/// To refuse each request in turn, run the same work with `k` = 0, 1, 2 and so on, until
/// [`has_refused`](Refusing::has_refused) returns `false` afterwards: then there was no request of
/// this number, and each was refused once. Work that changes nothing when it is refused can be
/// repeated with one allocator ([`refuse_only`](Refusing::refuse_only)).
pub struct Refusing<B: Allocator> {
    inner: B,
    ledger: Cell<Ledger>,
}

impl<B: Allocator> Refusing<B> {
    /// Refuses every request from the `k`-th on; 0 refuses all.
    pub fn from_on(inner: B, k: u64) -> Refusing<B> {
        Refusing::by_rule(inner, Rule::FromOn(k))
    }

    /// Refuses only the `k`-th request, and passes on those before and after it.
    pub fn only(inner: B, k: u64) -> Refusing<B> {
        Refusing::by_rule(inner, Rule::Only(k))
    }

    /// From now on refuses only the `k`-th of the requests to come; counts anew from 0.
    pub fn refuse_only(&self, k: u64) {
        self.ledger.set(Ledger::new(Rule::Only(k)));
    }

    /// Refuses the requests that fail by a rule.
    pub fn by_rule(inner: B, rule: Rule) -> Refusing<B> {
        Refusing {
            inner,
            ledger: Cell::new(Ledger::new(rule)),
        }
    }

    /// How many requests were made so far, refused ones included. The count stops at `u64::MAX`.
    pub fn requests(&self) -> u64 {
        self.ledger.get().calls
    }

    /// Whether a request was refused so far.
    pub fn has_refused(&self) -> bool {
        self.ledger.get().has_failed
    }
}

impl<B: Allocator> Drop for Refusing<B> {
    fn drop(self) {
        let Self {
            inner: _,
            ledger: _,
        } = self;
    }
}

// Counts a request, and returns whether it is granted. No contract can say what a cell holds, so
// `Ledger` says what the rule means.
fn granted(ledger: &Cell<Ledger>) -> bool {
    let before = ledger.get();
    ledger.set(before.after_call());
    !before.fails_next()
}

unsafe impl<B: Allocator> Allocator for Refusing<B> {
    ghost dealloc_token = { λ heap ty ptr. B.dealloc_token heap.inner ty ptr };

    fn allocate(&self, size: usize, align: usize) -> Result<*mut u8, AllocError> {
        if granted(&self.ledger) {
            return self.inner.allocate(size, align);
        }
        Err(AllocError)
    }

    unsafe fn deallocate(&self, ptr: *mut u8, size: usize, align: usize) {
        self.inner.deallocate(ptr, size, align);
    }
}
