ghost use Rattle.std.specs.Prelude.{◌<◌, ◌≤◌};
ghost use Rattle.rules.specs.Files.{held};
ghost use Rattle.rules.specs.Summaries.{Bodies, Heads};

use crate::linked::LinkedFile;
use crate::summaries::Summary;

// An atom as the head of its rules, with the summaries of all chains of the file.
#[derive(Clone, Copy)]
pub struct Head<'a> {
    pub links: LinkedFile<'a>,
    pub number: u16,
    pub bodies: &'a [Summary; 8001],
    pub heads: &'a [Summary; 2049],
    ghost above: { 0 < number },
    ghost within: { number ≤ links.file.layout.atoms },
    ghost summed: { Bodies links.file.layout (held links.file) bodies.now },
    ghost summed_rules: { Heads links.file.layout (held links.file) heads.now },
}
