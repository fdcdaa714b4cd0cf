ghost use Rattle.std.specs.Prelude.{◌≡◌, not};
ghost use Rattle.rules.specs.First.{atom_fault, rule_fault, literal_fault, stratum_fits, mark_fits, first_rule_fits, name_fits, is_next};
ghost use Rattle.rules.specs.Typed.{mark_of, sign_of, atom_in, rule_in, literal_in};

use crate::faults::Fault;
use crate::kinds::Kind;
use crate::layout::Layout;
use crate::links::leads_later;
use crate::record::Record;
use crate::records::{Atom, Literal, Mark, Rule, Sign};
use crate::rows::Row;

// Any other word reads as the last case; a file that passed its checks has none.
impl From<u16> for Mark {
    ghost from_gives = { λ word mark. mark ≡ mark_of word };

    fn from(word: u16) -> Mark {
        match word {
            0 => Mark::Still,
            1 => Mark::Dependent,
            _ => Mark::Initial,
        }
    }
}

impl From<u16> for Sign {
    ghost from_gives = { λ word sign. sign ≡ sign_of word };

    fn from(word: u16) -> Sign {
        match word {
            0 => Sign::Plain,
            _ => Sign::Negated,
        }
    }
}

impl Kind {
    // Whether an atom of this kind may have this stratum.
    fn has_stratum(self, stratum: u16) -> bool
        ensures { result ≡ stratum_fits self stratum }
    {
        match self {
            Kind::Fluent | Kind::Does => stratum == 0,
            Kind::Next | Kind::Legal | Kind::Terminal | Kind::Further => stratum >= 1
                && stratum <= 31,
        }
    }

    fn has_mark(self, mark: u16) -> bool
        ensures { result ≡ mark_fits self mark }
    {
        match self {
            Kind::Fluent => mark == 0 || mark == 2,
            Kind::Next | Kind::Does => mark == 1,
            Kind::Legal | Kind::Terminal => mark == 0,
            Kind::Further => mark <= 1,
        }
    }

    fn has_first_rule(self, rules: u16, first: u16) -> bool
        ensures { result ≡ first_rule_fits self rules first }
    {
        match self {
            Kind::Fluent | Kind::Does => first == 0,
            Kind::Next | Kind::Legal | Kind::Terminal | Kind::Further => first <= rules,
        }
    }

    // A literal names no next atom.
    fn has_literals(self) -> bool
        ensures { result ≡ not (is_next self) }
    {
        !matches!(self, Kind::Next)
    }
}

impl Layout {
    fn has_named(self, atom: u16) -> bool
        ensures { result ≡ name_fits self atom }
    {
        atom >= 1 && atom <= self.atoms && self.kind(atom).has_literals()
    }
}

impl Record for Atom {
    ghost record_in = { atom_in };

    ghost fault = { atom_fault };

    fn read(row: &Row<'_, Atom>) -> Atom {
        Atom {
            stratum: row.word(0),
            mark: Mark::from(row.word(1)),
            first: row.word(2),
        }
    }

    fn check(row: &Row<'_, Atom>) -> Result<(), Fault> {
        let kind = row.file.layout.kind(row.number);
        if !kind.has_stratum(row.word(0)) {
            return Err(Fault::AtomWord(row.at(0)));
        }
        if !kind.has_mark(row.word(1)) {
            return Err(Fault::AtomWord(row.at(1)));
        }
        if !kind.has_first_rule(row.file.layout.rules, row.word(2)) {
            return Err(Fault::AtomWord(row.at(2)));
        }
        Ok(())
    }
}

impl Record for Rule {
    ghost record_in = { rule_in };

    ghost fault = { rule_fault };

    fn read(row: &Row<'_, Rule>) -> Rule {
        Rule {
            next: row.word(0),
            first: row.word(1),
        }
    }

    fn check(row: &Row<'_, Rule>) -> Result<(), Fault> {
        if !leads_later(row.number, row.file.layout.rules, row.word(0)) {
            return Err(Fault::RuleWord(row.at(0)));
        }
        if row.word(1) > row.file.layout.literals {
            return Err(Fault::RuleWord(row.at(1)));
        }
        Ok(())
    }
}

impl Record for Literal {
    ghost record_in = { literal_in };

    ghost fault = { literal_fault };

    fn read(row: &Row<'_, Literal>) -> Literal {
        Literal {
            atom: row.word(0),
            sign: Sign::from(row.word(1)),
            next: row.word(2),
        }
    }

    fn check(row: &Row<'_, Literal>) -> Result<(), Fault> {
        if !row.file.layout.has_named(row.word(0)) {
            return Err(Fault::LiteralWord(row.at(0)));
        }
        if row.word(1) > 1 {
            return Err(Fault::LiteralWord(row.at(1)));
        }
        if !leads_later(row.number, row.file.layout.literals, row.word(2)) {
            return Err(Fault::LiteralWord(row.at(2)));
        }
        Ok(())
    }
}
