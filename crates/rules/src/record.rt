ghost use Rattle.std.specs.Prelude.{◌≡◌, ℕ, ◌+◌, map, IfOk, Option};
ghost use Rattle.std.specs.List.{range_with_len};
ghost use Rattle.rules.specs.declared.faults.Fault.{Fault};
ghost use Rattle.rules.specs.declared.layout.Layout.{Layout};
ghost use Rattle.rules.specs.Files.{held};
ghost use Rattle.rules.specs.First.{verdict, first};
ghost use Rattle.rules.specs.Tables.{Tables};
ghost use Rattle.rules.specs.Words.{word as word_at};

use crate::faults::Fault;
use crate::file::File;
use crate::places::Placed;
use crate::rows::Row;
use crate::words::word;
use std::alloc::{AllocError, Global};

// A kind of record: what the words of one say, and what is wrong with them.
pub trait Record: Placed {
    ghost record_in: { Tables → ℕ → Self };

    ghost fault: { Layout → Tables → ℕ → Option Fault };

    fn read(row: &Row<'_, Self>) -> Self
        ensures { result ≡ record_in (held row.now.file) row.now.number };

    // The words of the record, in their order.
    fn check(row: &Row<'_, Self>) -> Result<(), Fault>
        ensures { result ≡ verdict (fault row.now.file.layout (held row.now.file) row.now.number) tt };
}

impl File<'_> {
    // The move counts, by role.
    pub fn moves(self, heap: Global) -> Result<Vec<u16>, AllocError>
        ensures { IfOk result (λ v. v.items ≡ map (λ role. word_at self.entry.bytes.now (6 + role)) (range_with_len 0 self.entry.layout.roles)) }
    {
        (0..self.layout.roles)
            .map(|role| word(self.bytes, 6 + usize::from(role)))
            .collect(heap)
    }

    // The records of a kind, by number.
    pub fn records<R: Record>(self, heap: Global) -> Result<Vec<R>, AllocError>
        ensures { IfOk result (λ v. v.items ≡ map (R.record_in (held self.entry)) (range_with_len 1 (R.count self.entry.layout))) }
    {
        // After `map` and `collect` over an inclusive range nothing is known of the items.
        let mut records = Vec::new(heap);
        for number in 1..=R::count(self.layout) {
            records.push(R::read(&self.row(number)))?;
        }
        Ok(records)
    }

    #[tactic(auto, using(crate::proofs::Firsts::range_next))]
    pub fn check_all<R: Record>(self) -> Result<(), Fault>
        ensures { result ≡ verdict (first (R.fault self.entry.layout (held self.entry)) (range_with_len 1 (R.count self.entry.layout))) tt }
    {
        for number in 1..=R::count(self.layout) {
            R::check(&self.row(number))?;
        }
        Ok(())
    }
}
