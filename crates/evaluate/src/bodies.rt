ghost use Rattle.std.specs.Prelude.{◌≡◌, ◌<◌, ◌≤◌, map, length};
ghost use Rattle.truth.specs.Forms.{only_yes, only_no};
ghost use Rattle.rules.specs.Opens.{atoms_of};
ghost use Rattle.evaluate.specs.Program.{part_of, body_from, bodies_from, literal_at, rule_at};
ghost use Rattle.evaluate.specs.Evaluate.{look, part as part_means, body as body_means, any_of};
ghost use Rattle.evaluate.specs.Meanings.{meanings};

use rules::opened::Rules;
use rules::records::{Literal, Rule, Sign};
use truth::form::TruthForm;

// The value of a literal.
fn literal<T: TruthForm>(l: Literal, values: &[T]) -> T
    requires above { 0 < l.atom }
    requires within { l.atom ≤ length values.now }
    ensures { T.means result ≡ part_means (meanings T.neg T.conj T.disj) (look (meanings T.neg T.conj T.disj) (map T.means values.now)) (part_of l) }
{
    let v = values[usize::from(l.atom) - 1];
    match l.sign {
        Sign::Plain => v,
        Sign::Negated => v.not(),
    }
}

// The value of the body that starts at literal `first`.
fn body<T: TruthForm>(rules: &Rules, first: u16, values: &[T]) -> T
    requires first { first ≤ rules.now.layout.literals }
    requires values { length values.now ≡ length (atoms_of rules.now) }
    ensures { T.means result ≡ body_means (meanings T.neg T.conj T.disj) (look (meanings T.neg T.conj T.disj) (map T.means values.now)) (λ _. only_yes) (body_from rules.now first) }
{
    let mut all = T::yes();
    for (_, &l) in rules.literals_from(first) {
        all = all.and(literal(l, values));
    }
    all
}

// The value that the rules from rule `first` on give their head: whether the body of some rule is true.
pub fn any_body<T: TruthForm>(rules: &Rules, first: u16, values: &[T]) -> T
    requires first { first ≤ rules.now.layout.rules }
    requires values { length values.now ≡ length (atoms_of rules.now) }
    ensures { T.means result ≡ any_of (meanings T.neg T.conj T.disj) (look (meanings T.neg T.conj T.disj) (map T.means values.now)) (λ _. only_no) (bodies_from rules.now first) }
{
    let mut any = T::no();
    for (_, &r) in rules.rules_from(first) {
        any = any.or(body(rules, r.first, values));
    }
    any
}
