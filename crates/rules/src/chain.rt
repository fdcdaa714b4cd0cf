ghost use Rattle.std.specs.Prelude.{◌≡◌, ℕ, ◌≤◌};
ghost use Rattle.std.specs.Iterator.{YieldsFirst, item_count};
ghost use Rattle.rules.specs.declared.layout.Layout.{Layout};
ghost use Rattle.rules.specs.Chains.{chain, Later};
ghost use Rattle.rules.specs.Files.{held};
ghost use Rattle.rules.specs.Linked.{Linked};
ghost use Rattle.rules.specs.Tables.{Tables};

use crate::linked::LinkedFile;
use crate::places::Placed;
use crate::records::{Literal, Rule};
use crate::rows::Row;
use std::marker::PhantomData;

// A kind of record that links to a later one of its kind.
pub trait Chained: Placed {
    ghost next: { Tables → ℕ → ℕ };

    fn next(row: &Row<'_, Self>) -> u16
        ensures { result ≡ next (held row.now.file) row.now.number };

    ghost leads_later: { (y : Layout) (T : Tables) → Linked y T → Later (next T) (Self.count y) };
}

impl Chained for Rule {
    ghost next = { λ T. T.next_rule };

    ghost leads_later = { λ y T linked. linked.next_rules };

    fn next(row: &Row<'_, Rule>) -> u16 {
        row.word(0)
    }
}

impl Chained for Literal {
    ghost next = { λ T. T.next_literal };

    ghost leads_later = { λ y T linked. linked.next_literals };

    fn next(row: &Row<'_, Literal>) -> u16 {
        row.word(2)
    }
}

// The numbers of the records on a chain, from one on; 0 ends it.
#[derive(Drop)]
pub struct Chain<'a, R: Chained> {
    links: LinkedFile<'a>,
    at: u16,
    of: PhantomData<R>,
    ghost within: { at ≤ R.count links.file.layout },
}

impl<'a> LinkedFile<'a> {
    pub fn chain<R: Chained>(self, from: u16) -> Chain<'a, R>
        requires { from ≤ R.count self.file.layout }
        ensures links { result.links ≡ self.entry }
        ensures from { result.at ≡ from }
    {
        Chain {
            links: self,
            at: from,
            of: PhantomData,
        }
    }
}

impl<R: Chained> Iterator for Chain<'_, R> {
    type Item = u16;

    ghost next_gives = { YieldsFirst (λ s. chain (R.next (held s.links.file)) (R.count s.links.file.layout) s.at) };

    ghost remaining = { item_count (λ s. chain (R.next (held s.links.file)) (R.count s.links.file.layout) s.at) };

    fn next(&mut self) -> Option<u16> {
        if self.at == 0 {
            return None;
        }
        let number = self.at;
        self.at = R::next(&self.links.file.row(number));
        Some(number)
    }
}
