ghost use Rattle.std.specs.Prelude.{◌≡◌, ℕ, ◌<◌, map, length, slice_index};
ghost use Rattle.evaluate.specs.Program.{program_of};
ghost use Rattle.evaluate.specs.Evaluate.{look, head as head_of, put_stratum, round as round_of, cleared, stratum_done, evaluated};
ghost use Rattle.evaluate.specs.Index.{members as members_of};
ghost use Rattle.evaluate.specs.Meanings.{meanings};
ghost use Rattle.evaluate.specs.Indexing.{indexed_rules, size};

use crate::bodies::any_body;
use crate::indexed::Indexed;
use truth::form::TruthForm;

// Rounds of a stratum on a level's row, each on the last round's values, which stand in a row of their own. Each row has a value for
// each atom; only atoms of the stratum are read and written. Strata are plain numbers below 32, as in a rule file: a type of their own
// would be made from such a number at each place, under the same condition. A struct around both rows would need a clause in each
// contract that it holds the same slices still.
impl<'a> Indexed<'a> {
    // The atoms of a stratum, ascending.
    fn members(self, s: u16) -> &'a [u16]
        requires { s < 32 }
        ensures exact { result.now ≡ members_of (indexed_rules self.entry) s }
        ensures within { (i : ℕ) → i < length result.now → slice_index result.now i < size self.entry }
    {
        self.strata.members(s)
    }

    // What an atom's rules give on the last round's values.
    fn head<T: TruthForm>(self, last: &[T], atom: u16) -> T
        requires atom { atom < size self }
        requires last { length last.now ≡ size self }
        ensures { T.means result ≡ head_of (meanings T.neg T.conj T.disj) (program_of (indexed_rules self.entry)) (map T.means last.now) atom }
    {
        any_body(
            self.rules,
            self.rules.atoms()[usize::from(atom)].first,
            last,
        )
    }

    // Sets the stratum to no.
    fn clear<T: TruthForm>(self, s: u16, row: &mut [T])
        requires s { s < 32 }
        requires row { length row.old ≡ size self }
        ensures { map T.means row.new ≡ cleared (meanings T.neg T.conj T.disj) (program_of (indexed_rules self.entry)) s (map T.means row.old) }
    {
        for atom in self.members(s) {
            row[usize::from(*atom)] = T::no();
        }
    }

    // Gives each atom of the stratum what its rules give on the last round's values.
    fn renew<T: TruthForm>(self, s: u16, row: &mut [T], last: &[T])
        requires s { s < 32 }
        requires row { length row.old ≡ size self }
        requires last { length last.now ≡ size self }
        ensures { map T.means row.new ≡ put_stratum (meanings T.neg T.conj T.disj) (program_of (indexed_rules self.entry)) s (head_of (meanings T.neg T.conj T.disj) (program_of (indexed_rules self.entry)) (map T.means last.now)) (map T.means row.old) }
    {
        for atom in self.members(s) {
            row[usize::from(*atom)] = self.head(last, *atom);
        }
    }

    // Takes the stratum's values over as the last round's.
    fn keep<T: TruthForm>(self, s: u16, row: &[T], last: &mut [T])
        requires s { s < 32 }
        requires row { length row.now ≡ size self }
        requires last { length last.old ≡ size self }
        ensures { map T.means last.new ≡ put_stratum (meanings T.neg T.conj T.disj) (program_of (indexed_rules self.entry)) s (look (meanings T.neg T.conj T.disj) (map T.means row.now)) (map T.means last.old) }
    {
        for atom in self.members(s) {
            last[usize::from(*atom)] = row[usize::from(*atom)];
        }
    }

    // One round.
    fn again<T: TruthForm>(self, s: u16, row: &mut [T], last: &mut [T])
        requires s { s < 32 }
        requires row { length row.old ≡ size self }
        requires alike { map T.means last.old ≡ map T.means row.old }
        ensures values { map T.means row.new ≡ round_of (meanings T.neg T.conj T.disj) (program_of (indexed_rules self.entry)) s (map T.means row.old) }
        ensures alike { map T.means last.new ≡ map T.means row.new }
    {
        self.renew(s, row, last);
        self.keep(s, row, last);
    }

    // A stratum: from no, as many rounds as it has atoms. The last round's row holds the level's values before and after.
    fn stratum<T: TruthForm>(self, s: u16, row: &mut [T], last: &mut [T])
        requires s { s < 32 }
        requires row { length row.old ≡ size self }
        requires alike { map T.means last.old ≡ map T.means row.old }
        ensures values { map T.means row.new ≡ stratum_done (meanings T.neg T.conj T.disj) (program_of (indexed_rules self.entry)) s (map T.means row.old) }
        ensures alike { map T.means last.new ≡ map T.means row.new }
    {
        self.clear(s, row);
        self.clear(s, last);
        for _ in 0..self.members(s).len() {
            self.again(s, row, last);
        }
    }

    // All strata, from 1 up. Inlined into both calls of a play, it is a tenth slower.
    #[inline(never)]
    pub(crate) fn all_strata<T: TruthForm>(self, row: &mut [T], last: &mut [T])
        requires row { length row.old ≡ size self }
        requires last { length last.old ≡ size self }
        ensures { map T.means row.new ≡ evaluated (meanings T.neg T.conj T.disj) (program_of (indexed_rules self.entry)) (map T.means row.old) }
    {
        last.copy_from_slice(row);
        for s in 1..32u16 {
            self.stratum(s, row, last);
        }
    }
}
