ghost use Rattle.std.specs.Prelude.{◌≡◌};
ghost use Rattle.std.specs.Result.{result_map_both};
ghost use Rattle.rules.specs.First.{unless, verdict, next_fits};
ghost use Rattle.property.specs.First.{still, still_atom, kind_fits, value_fits, record_fault, wrong_word};
ghost use Rattle.property.specs.Typed.{formula_of, record_in, records_in};
ghost use Rattle.property.specs.Words.{words_in, count_in};

use crate::faults::Fault;
use crate::records::{Formula, Record};
use crate::text::{Entry, Text};
use arrayvec::ArrayVec;
use rules::links::leads_later;
use rules::opened::Rules;
use rules::records::Mark;

fn is_still(mark: Mark) -> bool
    ensures { result ≡ still mark }
{
    !matches!(mark, Mark::Dependent)
}

// Whether this is the number of an atom to which moves do not matter.
fn names_still_atom(rules: &Rules, atom: u16) -> bool
    ensures { result ≡ still_atom rules.now atom }
{
    atom >= 1 && atom <= rules.layout().atoms && is_still(rules.atoms()[usize::from(atom) - 1].mark)
}

// A word that is no kind of record.
#[derive(Clone, Copy)]
pub struct UnknownKind(pub u16);

// A formula, of the words that are its kind and its value.
impl TryFrom<(u16, u16)> for Formula {
    type Error = UnknownKind;

    ghost try_from_gives = { λ words r. r ≡ verdict (unless (kind_fits words.0) (record { 0 = words.0 })) (formula_of words.0 words.1) };

    fn try_from((kind, value): (u16, u16)) -> Result<Self, UnknownKind> {
        match kind {
            1 => Ok(Formula::Atom(value)),
            2 => Ok(Formula::Not(value)),
            3 => Ok(Formula::All(value)),
            4 => Ok(Formula::Following(value)),
            _ => Err(UnknownKind(kind)),
        }
    }
}

impl Entry<'_> {
    // Whether the link is 0 or leads to a later record.
    fn leads_later(self, link: u16) -> bool
        ensures { result ≡ next_fits self.entry.number (count_in self.entry.text.bytes.now) link }
    {
        leads_later(self.number, self.text.count(), link)
    }

    // Whether the record may have this formula.
    fn takes(self, rules: &Rules, formula: Formula) -> bool
        ensures { result ≡ value_fits rules.now (count_in self.entry.text.bytes.now) self.entry.number formula }
    {
        match formula {
            Formula::Atom(atom) => names_still_atom(rules, atom),
            Formula::All(link) => self.leads_later(link),
            Formula::Not(link) | Formula::Following(link) => link != 0 && self.leads_later(link),
        }
    }

    // The record; its words are checked in their order.
    fn record(self, rules: &Rules) -> Result<Record, Fault>
        ensures { result ≡ verdict (record_fault rules.now (count_in self.entry.text.bytes.now) (words_in self.entry.text.bytes.now) self.entry.number) (record_in (words_in self.entry.text.bytes.now) self.entry.number) }
    {
        let Ok(formula) = Formula::try_from((self.word(0), self.word(1))) else {
            return Err(self.fault(0));
        };
        if !self.takes(rules, formula) {
            return Err(self.fault(1));
        }
        let next = self.word(2);
        if !self.leads_later(next) {
            return Err(self.fault(2));
        }
        Ok(Record { formula, next })
    }
}

impl Text<'_> {
    // The records, or the first fault in their words.
    pub fn records(self, rules: &Rules) -> Result<ArrayVec<Record, 64>, Fault>
        ensures { result_map_both (λ v. v.items) (λ fault. fault) result ≡ verdict (wrong_word rules.now self.entry.bytes.now) (records_in self.entry.bytes.now) }
    {
        let mut records = ArrayVec::new();
        for number in 1..=self.count() {
            let entry = Entry { text: self, number };
            records.push(entry.record(rules)?);
        }
        Ok(records)
    }
}
