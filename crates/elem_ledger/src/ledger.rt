//! Ledgers.
ghost use Rattle.std.specs.Prelude.{◌≡◌, ℕ, ◌+◌, ◌-◌, ◌^◌, ◌<◌, ◌≤◌, IfOk};
ghost use Rattle.elem_ledger.specs.Ledger.{Account};

use crate::balance::{Balance, Issue, Look, Merge, Redeem, View};
use crate::element::{Element, Share};
use atomic_table::{Seat, Table};
use std::alloc::{AllocError, Global};
use std::marker::Model;

/// Counts the shares that it issued and did not take back.
///
/// It has a number, and is itself besides: it is known by its table and its number together, so two ledgers with one number are two.
#[derive(Drop)]
pub struct Ledger {
    table: Table<(), View, (), Balance, Global>,
    keeper: Seat<(), View>,
    no: u32,
    total: u64,
}

impl Model for Ledger {
    ghost use Rattle.elem_ledger.specs.Ledger.{Account};
    ghost use Rattle.elem_ledger.specs.Balance.{IsLedgerTable};

    ghost Value = { Account };

    ghost view = { λ l. record { id = record { table = l.table.shared.table_id; no = l.no }; total = l.total } };

    ghost invariant = { λ l. IsLedgerTable l.table.shared.table_id l.keeper.table_id l.keeper.me l.total };
}

impl Ledger {
    /// A ledger with this number and no share out.
    ///
    /// # Errors
    ///
    /// Where there is no memory for its table, of one word.
    pub fn new(alloc: Global, no: u32) -> Result<Ledger, AllocError>
        ensures { IfOk result (λ ledger. (ledger.id.no ≡ no) × (ledger.total ≡ 0)) }
    {
        let (table, keeper) = Table::of_words(alloc, &[0], &())?;
        Ok(Ledger {
            table,
            keeper,
            no,
            total: 0,
        })
    }

    /// The ledger's number.
    pub fn no(&self) -> u32
        ensures { result ≡ self.now.id.no }
    {
        self.no
    }

    /// The number of shares that are out.
    pub fn total(&self) -> u64
        ensures { result ≡ self.now.total }
    {
        self.total
    }

    /// Makes an element of a body, with one more share. It takes no memory.
    pub fn issue<P>(&mut self, body: Box<P>) -> Element<P>
        requires { self.old.total < 2 ^ 64 - 1 }
        ensures element { result ≡ record { body = body; share = self.old.id } }
        ensures total { self.new ≡ record self.old { total = self.old.total + 1 } }
    {
        let table = &self.table;
        let seat = table.shared.split_seat::<Issue>(&mut self.keeper);
        self.total += 1;
        let share = Share {
            badge: seat.into_badge(),
            no: self.no,
        };
        Element { body, share }
    }

    /// Takes the share of an element back and answers its body. It takes no memory.
    ///
    /// That the share is of this ledger shows that the total was at least 1.
    pub fn redeem<P>(&mut self, element: Element<P>) -> Box<P>
        requires { element.share ≡ self.old.id }
        ensures body { result ≡ element.body }
        ensures total { self.old ≡ record self.new { total = self.new.total + 1 } }
        ensures fits { self.old.total < 2 ^ 64 }
    {
        let (body, share) = element.parts();
        let table = &self.table;
        let seat = share.into_badge().into_seat();
        table.shared.join_seat::<Redeem>(&mut self.keeper, seat);
        let _word = table.shared.load::<Look>(&mut self.keeper, 0);
        self.total -= 1;
        body
    }

    // That there are two ledgers with one table cannot be.
    pub(crate) fn clash(mut self, other: Ledger)
        requires { self.id.table ≡ other.id.table }
        ensures { ⊥ }
    {
        let Ledger { keeper: theirs, .. } = other;
        let table = &self.table;
        table.shared.join_seat::<Merge>(&mut self.keeper, theirs);
        let _word = table.shared.load::<Look>(&mut self.keeper, 0);
    }
}
