ghost use Rattle.std.specs.Prelude.{◌≡◌, ◌<◌, ◌≤◌, slice_index_or};
ghost use Rattle.std.specs.List.{range_with_len};
ghost use Rattle.rules.specs.Chains.{chain};
ghost use Rattle.rules.specs.Files.{held};
ghost use Rattle.rules.specs.First.{verdict, first, literal_fits, literal_fault_under, body_fault, head_fault};
ghost use Rattle.rules.specs.Summaries.{empty, joined, literal_summary, fits_head, Bodies, Heads};

use crate::chain::Chained;
use crate::faults::Fault;
use crate::heads::Head;
use crate::linked::LinkedFile;
use crate::records::{Atom, Literal, Rule};
use crate::summaries::Summary;

impl Summary {
    fn join(self, other: Summary) -> Summary
        ensures { result ≡ joined self other }
    {
        Summary {
            stratum: self.stratum.max(other.stratum),
            dependent: self.dependent || other.dependent,
        }
    }
}

// Records are told by number here: a row would bring a file of its own, and each function would need that it is this one. Marks are
// words here, as in the statement of the condition.
impl LinkedFile<'_> {
    // What a literal asks of its head.
    fn literal_summary(self, literal: u16) -> Summary
        requires above { 0 < literal }
        requires within { literal ≤ self.file.layout.literals }
        ensures { result ≡ literal_summary (held self.entry.file) literal }
    {
        let literal = self.file.row::<Literal>(literal);
        let atom = self.file.row::<Atom>(literal.word(0));
        Summary {
            stratum: u32::from(atom.word(0)) + u32::from(literal.word(1)),
            dependent: atom.word(1) == 1,
        }
    }

    // bodies[l] sums up the chain from literal l on; 0 is the empty chain.
    fn sum_up_bodies(self, bodies: &mut [Summary; 8001])
        requires { slice_index_or bodies.old 0 empty ≡ empty }
        ensures { Bodies self.entry.file.layout (held self.entry.file) bodies.new }
    {
        for literal in (1..=self.file.layout.literals).rev() {
            let next = Literal::next(&self.file.row(literal));
            bodies[usize::from(literal)] = self
                .literal_summary(literal)
                .join(bodies[usize::from(next)]);
        }
    }

    // heads[r] sums up the bodies of the chain from rule r on.
    fn sum_up_rules(self, bodies: &[Summary; 8001], heads: &mut [Summary; 2049])
        requires summed { Bodies self.file.layout (held self.file) bodies.now }
        requires clear { slice_index_or heads.old 0 empty ≡ empty }
        ensures { Heads self.entry.file.layout (held self.entry.file) heads.new }
    {
        for number in (1..=self.file.layout.rules).rev() {
            let rule = self.file.row::<Rule>(number);
            let next = Rule::next(&rule);
            let body = rule.word(1);
            heads[usize::from(number)] = bodies[usize::from(body)].join(heads[usize::from(next)]);
        }
    }

    // The condition on marks and strata: heads ascending, then by their chains.
    #[tactic(auto, using(crate::proofs::Firsts::range_next))]
    pub fn check_conditions(self) -> Result<(), Fault>
        ensures { let f = self.entry.file in result ≡ verdict (first (head_fault f.layout (held f)) (range_with_len 1 f.layout.atoms)) tt }
    {
        // arrays of the largest size, since the check of a file allocates nothing
        let mut bodies = [Summary::default(); 8001];
        self.sum_up_bodies(&mut bodies);
        let mut heads = [Summary::default(); 2049];
        self.sum_up_rules(&bodies, &mut heads);
        for number in 1..=self.file.layout.atoms {
            let head = Head {
                links: self,
                number,
                bodies: &bodies,
                heads: &heads,
            };
            head.check()?;
        }
        Ok(())
    }
}

impl Head<'_> {
    // Whether all that was summed up fits the head.
    fn fits(self, summary: Summary) -> bool
        ensures { result ≡ fits_head (held self.entry.links.file) self.entry.number summary }
    {
        let atom = self.links.file.row::<Atom>(self.number);
        (atom.word(1) == 1 || !summary.dependent) && summary.stratum <= u32::from(atom.word(0))
    }

    fn fits_literal(self, literal: u16) -> bool
        requires above { 0 < literal }
        requires within { literal ≤ self.links.file.layout.literals }
        ensures { result ≡ literal_fits (held self.entry.links.file) self.entry.number literal }
    {
        self.fits(self.links.literal_summary(literal))
    }

    // The first literal of the chain from `from` on that does not fit the head.
    #[tactic(auto, using(crate::proofs::Walks::walk_inside))]
    fn check_body(self, from: u16) -> Result<(), Fault>
        requires { from ≤ self.links.file.layout.literals }
        ensures { let f = self.entry.links.file in result ≡ verdict (first (literal_fault_under f.layout (held f) self.entry.number) (chain (held f).next_literal f.layout.literals from)) tt }
    {
        for literal in self.links.chain::<Literal>(from) {
            if !self.fits_literal(literal) {
                let row = self.links.file.row::<Literal>(literal);
                return Err(Fault::Condition(self.number, row.at(0)));
            }
        }
        Ok(())
    }

    // The first such literal of a rule; a body that fits as a whole is passed over.
    fn check_rule(self, rule: u16) -> Result<(), Fault>
        requires above { 0 < rule }
        requires within { rule ≤ self.links.file.layout.rules }
        ensures { let f = self.entry.links.file in result ≡ verdict (body_fault f.layout (held f) self.entry.number rule) tt }
    {
        let body = self.links.file.row::<Rule>(rule).word(1);
        if self.fits(self.bodies[usize::from(body)]) {
            return Ok(());
        }
        self.check_body(body)
    }

    // The first such literal along the head's rules.
    #[tactic(auto, using(crate::proofs::Walks::walk_inside))]
    fn check_rules(self, from: u16) -> Result<(), Fault>
        requires { from ≤ self.links.file.layout.rules }
        ensures { let f = self.entry.links.file in result ≡ verdict (first (body_fault f.layout (held f) self.entry.number) (chain (held f).next_rule f.layout.rules from)) tt }
    {
        for rule in self.links.chain::<Rule>(from) {
            self.check_rule(rule)?;
        }
        Ok(())
    }

    // The first such literal of the head; a head whose rules fit as a whole is passed over.
    fn check(self) -> Result<(), Fault>
        ensures { let f = self.entry.links.file in result ≡ verdict (head_fault f.layout (held f) self.entry.number) tt }
    {
        let first = self.links.file.row::<Atom>(self.number).word(2);
        if self.fits(self.heads[usize::from(first)]) {
            return Ok(());
        }
        self.check_rules(first)
    }
}
