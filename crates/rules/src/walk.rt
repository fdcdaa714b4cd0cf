ghost use Rattle.std.specs.Prelude.{◌≡◌, ℕ, ◌≤◌, length};
ghost use Rattle.std.specs.Iterator.{YieldsFirstBy, item_count};
ghost use Rattle.rules.specs.Chains.{Later};
ghost use Rattle.rules.specs.Opens.{rules_of, literals_of};
ghost use Rattle.rules.specs.Typed.{no_rule, no_literal};
ghost use Rattle.rules.specs.Walks.{links, walk};

use crate::opened::Rules;
use crate::records::{Literal, Rule};

// A typed record that links to a later one of its list.
pub trait Linking: Copy {
    ghost next: { Self → ℕ };

    // What is read behind the last record.
    ghost none: { Self };

    fn next(&self) -> u16
        ensures { result ≡ next self.now };
}

impl Linking for Rule {
    ghost next = { λ r. r.next };

    ghost none = { no_rule };

    fn next(&self) -> u16 {
        self.next
    }
}

impl Linking for Literal {
    ghost next = { λ l. l.next };

    ghost none = { no_literal };

    fn next(&self) -> u16 {
        self.next
    }
}

// The records on a chain, each with its number, from one on; 0 ends it.
#[derive(Drop)]
pub struct Walk<'a, R: Linking> {
    pub records: &'a [R],
    pub at: u16,
    ghost later: { Later (links R.next R.none records.now) (length records.now) },
    ghost within: { at ≤ length records.now },
}

impl<'a, R: Linking> Walk<'a, R> {
    pub fn of(records: &'a [R], from: u16) -> Walk<'a, R>
        requires later { Later (links R.next R.none records.now) (length records.now) }
        requires from { from ≤ length records.now }
        ensures records { result.records.now ≡ records.now }
        ensures from { result.at ≡ from }
    {
        Walk { records, at: from }
    }
}

impl<'a, R: Linking> Iterator for Walk<'a, R> {
    type Item = (u16, &'a R);

    ghost next_gives = { YieldsFirstBy (λ item. (item.0, item.1.now)) (λ s. walk R.next R.none s.records.now s.at) };

    ghost remaining = { item_count (λ s. walk R.next R.none s.records.now s.at) };

    fn next(&mut self) -> Option<(u16, &'a R)> {
        if self.at == 0 {
            return None;
        }
        let number = self.at;
        let record = &self.records[usize::from(number) - 1];
        self.at = record.next();
        Some((number, record))
    }
}

impl Rules {
    // The rules on a chain.
    pub fn rules_from(&self, first: u16) -> Walk<'_, Rule>
        requires { first ≤ self.now.layout.rules }
        ensures records { result.records.now ≡ rules_of self.now }
        ensures from { result.at ≡ first }
    {
        Walk::of(self.rules(), first)
    }

    // The literals on a chain.
    pub fn literals_from(&self, first: u16) -> Walk<'_, Literal>
        requires { first ≤ self.now.layout.literals }
        ensures records { result.records.now ≡ literals_of self.now }
        ensures from { result.at ≡ first }
    {
        Walk::of(self.literals(), first)
    }
}
