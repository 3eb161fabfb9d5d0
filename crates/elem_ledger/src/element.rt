//! Shares and elements.
ghost use Rattle.std.specs.Prelude.{◌≡◌, ℕ};

use crate::balance::View;
use atomic_table::Badge;
use std::marker::Model;

/// One unit of one ledger's total. Contracts see of which ledger it is.
///
/// There is no way to make one but `Ledger::issue`, none to have one twice, and none to bring one to another ledger. It may be
/// dropped; it then stays counted for good.
pub struct Share {
    pub(crate) badge: Badge<View>,
    pub(crate) no: u32,
}

// A drop by hand is proved here, once. A derived one every crate above would prove anew that lets a share go. The same holds of elements.
impl Drop for Share {
    fn drop(self) {
        let Share { badge, no: _ } = self;
        drop(badge);
    }
}

impl Model for Share {
    ghost use Rattle.std.specs.Prelude.{◌≡◌, [], ◌∷◌};
    ghost use Rattle.elem_ledger.specs.Ledger.{LedgerId};
    ghost use Rattle.elem_ledger.specs.declared.balance.View.TheVariants.{Out};

    ghost Value = { LedgerId };

    ghost view = { λ s. record { table = s.badge.table_id; no = s.no } };

    ghost invariant = { λ s. s.badge.views ≡ Out ∷ [] };
}

impl Share {
    ghost use Rattle.std.specs.Prelude.{[], ◌∷◌};
    ghost use Rattle.elem_ledger.specs.declared.balance.View.TheVariants.{Out};

    // Its badge.
    pub(crate) fn into_badge(self) -> Badge<View>
        ensures table { result.table_id ≡ self.table }
        ensures views { result.views ≡ Out ∷ [] }
    {
        let Share { badge, no: _ } = self;
        badge
    }

    /// The number of the share's ledger.
    pub fn no(&self) -> u32
        ensures { result ≡ self.now.no }
    {
        self.no
    }
}

/// A body in memory of its own, with a share of the ledger of the pool that it is given back to. It may be dropped, and stays counted as out
/// then; no event drops one.
pub struct Element<P> {
    pub body: Box<P>,
    pub share: Share,
}

impl<P: Drop> Drop for Element<P> {
    fn drop(self) {
        let Element { body, share } = self;
        drop(body);
        drop(share);
    }
}

impl<P> Element<P> {
    /// The body and the share, each by itself.
    pub fn parts(self) -> (Box<P>, Share)
        ensures { result ≡ (self.body, self.share) }
    {
        let Element { body, share } = self;
        (body, share)
    }

    /// The number of the element's pool.
    pub fn no(&self) -> u32
        ensures { result ≡ self.now.share.no }
    {
        self.share.no()
    }
}
